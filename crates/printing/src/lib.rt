// What the programs that test print by: a list of levels, and a writer that passes over a write that fails. Texts, numbers and
// refusals need nothing from here, since `write!` prints them.
#![tactic(auto)]

ghost use Rattle.std.specs.Prelude.{◌≡◌, IsOk, Some, Ok, length};
ghost use Rattle.printing.specs.Printed.{printed};

use std::io::Write;
use std::{fmt, io};

// The levels in decimal, with a comma between each two.
#[derive(Clone, Copy)]
pub struct Levels<'a>(pub &'a [i32]);

impl fmt::Display for Levels<'_> {
    ghost output = { λ levels. Some (printed levels.0.now) };

    fn fmt<W: fmt::Write>(&self, f: &mut fmt::Formatter<W>) -> fmt::Result {
        let [first, rest @ ..] = self.0 else {
            return Ok(());
        };
        write!(f, "{first}")?;
        for level in rest {
            write!(f, ",{level}")?;
        }
        Ok(())
    }
}

// A writer to which nothing fails: a write that fails is passed over, and the next one is tried all the same, since who reads what
// the programs that test print compares it.
#[derive(Drop)]
pub struct PassingOver<W>(pub W);

impl<W: Write> Write for PassingOver<W> {
    fn write(&mut self, buf: &[u8]) -> io::Result<usize>
        ensures passes { result ≡ Ok (length buf.now) }
    {
        let _ = self.0.write_all(buf);
        Ok(buf.len())
    }

    fn flush(&mut self) -> io::Result<()>
        ensures passes { IsOk result }
    {
        let _ = self.0.flush();
        Ok(())
    }

    fn write_all(&mut self, buf: &[u8]) -> io::Result<()>
        ensures passes { IsOk result }
    {
        let _ = self.write(buf);
        Ok(())
    }
}
