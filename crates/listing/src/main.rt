// An independent second decoder by full listing, held against `tree::decode`: every mask and every folding at n = 1, 2, 3, and
// sampled masks with every folding at n = 4. It prints how many cases were compared, and a line for each that differs.
#![tactic(auto)]

mod case;
mod least;
mod levels;
mod rule;
mod tally;

use printing::PassingOver;
use std::io;
use std::io::{LineWriter, Write};

// Every mask at n = 1, 2, 3: 4, 16 and 256 of them. At n = 4 there are 32 sampled masks. The writer passes over a failed write: who
// reads the lines compares them with those that must come.
fn main(rt: HostRuntime) -> io::Result<()> {
    let mut to = PassingOver(LineWriter::new(rt.alloc(), rt.stdout())?);
    let one = tally::size(&mut to, 1, 4);
    let two = tally::size(&mut to, 2, 16);
    let three = tally::size(&mut to, 3, 256);
    let four = tally::size(&mut to, 4, 32);
    let _ = writeln!(to, "total{}", one + two + three + four);
    Ok(())
}
