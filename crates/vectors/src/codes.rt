// A code by its n and its mask: the constructor and the guard.
use crate::arrow::{refused, shown};
use crate::line::Line;
use code::Code;
use std::io;
use std::io::Write;
use word::Word;

// The code of a line, whose first two numbers are its n and its mask.
pub(crate) fn given(line: Line<'_>) -> Code {
    Code {
        n: line.small(0),
        frozen: Word::from(line.number(1)),
    }
}

pub(crate) fn new(to: &mut impl Write, line: Line<'_>) -> io::Result<()> {
    match Code::new(line.small(0), Word::from(line.number(1))) {
        Ok(code) => write!(
            to,
            " -> code n={} mask=0x{:x}",
            code.n,
            u64::from(code.frozen)
        ),
        Err(refusal) => refused(to, refusal),
    }
}

pub(crate) fn guard(to: &mut impl Write, line: Line<'_>) -> io::Result<()> {
    match given(line).guard() {
        Ok(Some(figure)) => shown(to, figure),
        Ok(None) => write!(to, " -> none"),
        Err(refusal) => refused(to, refusal),
    }
}
