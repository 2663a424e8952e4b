// A record read, and a recorded block decoded: the first of document 01's three records, with up to three bytes changed. Number 0
// of a line is how many of its bytes are given.
use crate::arrow::refused;
use crate::line::Line;
use crate::{decoding, given};
use printing::Levels;
use record::Fields;
use std::io;
use std::io::Write;

fn fields(to: &mut impl Write, fields: Fields) -> io::Result<()> {
    write!(to, " -> n={} folding=0x{:x}", fields.n, fields.folding)?;
    let mask = u64::from(fields.mask);
    write!(to, " allowance={} mask=0x{mask:x}", fields.allowance)?;
    write!(to, " levels={}", Levels(&fields.levels))
}

fn read_of(to: &mut impl Write, bytes: &[u8]) -> io::Result<()> {
    match record::read(bytes) {
        Ok(read) => fields(to, read),
        Err(refusal) => refused(to, refusal),
    }
}

pub(crate) fn read(to: &mut impl Write, line: Line<'_>) -> io::Result<()> {
    match given::changed(line).get(..line.number(0) as usize) {
        Some(bytes) => read_of(to, bytes),
        None => Ok(()),
    }
}

pub(crate) fn decode(to: &mut impl Write, line: Line<'_>) -> io::Result<()> {
    match given::changed(line).get(..line.number(0) as usize) {
        Some(bytes) => decoding::answer(to, lines::block::decode(bytes)),
        None => Ok(()),
    }
}
