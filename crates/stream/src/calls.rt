// The calls of the system: reading and writing, and what is said on standard error where one of them fails.
ghost use Rattle.std.specs.Prelude.{◌≤◌, ◌<◌, length, take, IsNone, OnOk};
ghost use Rattle.std.specs.Io.KnownBytes.{Appends, Consumes, IsAtEnd};

use std::alloc::Global;
use std::io;
use std::io::{ErrorKind, Read, Write};

// A call of the system that failed, with the system's reason.
#[derive(Clone, Copy)]
pub enum Failure {
    NotRead(io::Error),
    NotWritten(io::Error),
}

// How many bytes were read, and the failure, if reading stopped because it failed. No Result: both stand side by side, since what was
// read before a failure counts.
#[derive(Clone, Copy)]
pub struct Got {
    pub len: usize,
    pub failure: Option<io::Error>,
}

// Reads until the bytes are full, the input ends or a read fails.
pub fn fill<R: Read>(input: &mut R, bytes: &mut [u8]) -> Got
    ensures in_bounds { result.len ≤ length bytes.old }
    ensures read { Consumes (R.remaining input.old) (R.remaining input.new) (take result.len bytes.new) }
    ensures end { result.len < length bytes.old → IsNone result.failure → IsAtEnd (R.remaining input.new) }
{
    let mut len = 0;
    // A turn goes on by as many bytes as came, which no range counts.
    while len < bytes.len() {
        match input.read(&mut bytes[len..]) {
            Ok(0) => break,
            Ok(more) => {
                len += more;
            }
            Err(error) => {
                return Got {
                    len,
                    failure: Some(error),
                };
            }
        }
    }
    Got { len, failure: None }
}

// Writes until all of the bytes are written, or a write takes nothing or fails. A write that a signal has interrupted has failed, so it
// is no `write_all`, which would try again.
pub fn put<W: Write>(output: &mut W, bytes: &[u8]) -> io::Result<()>
    ensures { OnOk result (Appends (W.contents output.old) (W.contents output.new) bytes.now) }
{
    let mut done = 0;
    // By as many bytes as were written, in the same way.
    while done < bytes.len() {
        let more = output.write(&bytes[done..])?;
        if more == 0 {
            return Err(io::Error::from(ErrorKind::WriteZero));
        }
        done += more;
    }
    Ok(())
}

// The system's reason: all of a failure's text but the error's number, which stands behind it.
fn reason(text: &str) -> &str {
    text.split_once(" (os error ")
        .map_or(text, |(reason, _)| reason)
}

// Says in a line which program could not do what, and the system's reason.
fn say(
    error: &mut impl Write,
    alloc: Global,
    name: &[u8],
    what: &str,
    failure: io::Error,
) -> io::Result<()> {
    put(error, name)?;
    match format!(in alloc; "{failure}") {
        Ok(text) => {
            let reason = reason(text.as_str());
            writeln!(error, ": cannot {what}: {reason}")
        }
        Err(_) => writeln!(error, ": cannot {what}: {failure}"),
    }
}

// Says on standard error, in a line, which program could not read or write, and the system's reason. Where the reader of what was
// to be written has gone away, nothing is said: who closes a pipe wants no more.
pub fn report(error: &mut impl Write, alloc: Global, name: &[u8], failure: Failure) {
    let (what, failure) = match failure {
        Failure::NotRead(failure) => ("read standard input", failure),
        Failure::NotWritten(failure) if failure.kind() == ErrorKind::BrokenPipe => return,
        Failure::NotWritten(failure) => ("write standard output", failure),
    };
    let _ = say(error, alloc, name, what, failure);
}
