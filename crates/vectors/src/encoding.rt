// Encoding a message: to words, and to ideal levels in a lent slice.
use crate::arrow::refused;
use crate::line::Line;
use crate::{buffers, codes};
use code::Encoded;
use refusal::Refusal;
use std::io;
use std::io::Write;
use word::Word;

fn answer(to: &mut impl Write, answer: Result<Encoded, Refusal>) -> io::Result<()> {
    match answer {
        Ok(Encoded { d, x }) => write!(to, " -> d=0x{:x} x=0x{:x}", u64::from(d), u64::from(x)),
        Err(refusal) => refused(to, refusal),
    }
}

pub(crate) fn encode(to: &mut impl Write, line: Line<'_>) -> io::Result<()> {
    let message = Word::from(line.number(2));
    answer(to, code::encode(codes::given(line), message))
}

fn encode_in(to: &mut impl Write, line: Line<'_>, slice: &mut [i32]) -> io::Result<()> {
    let message = Word::from(line.number(2));
    answer(
        to,
        code::levels::encode_levels(codes::given(line), message, slice),
    )?;
    write!(to, " levels=")?;
    for level in slice {
        buffers::sign(to, *level)?;
    }
    Ok(())
}

// A slice of that many slots, up to 65, each at 7 before the call.
pub(crate) fn encode_levels(to: &mut impl Write, line: Line<'_>) -> io::Result<()> {
    let mut slice = [7; 65];
    match slice.get_mut(..line.number(3) as usize) {
        Some(slice) => encode_in(to, line, slice),
        None => Ok(()),
    }
}
