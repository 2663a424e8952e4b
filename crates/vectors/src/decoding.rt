// Decoding levels.
use crate::arrow::refused;
use crate::line::Line;
use refusal::Refusal;
use std::io;
use std::io::Write;
use tree::Decoded;
use word::Word;

// The finished decoding, or why there is none.
pub(crate) fn answer(to: &mut impl Write, answer: Result<Decoded, Refusal>) -> io::Result<()> {
    match answer {
        Ok(found) => {
            let [message, d, x] = [found.message, found.d, found.x].map(u64::from);
            write!(to, " -> message={message} d=0x{d:x} x=0x{x:x}")?;
            write!(to, " distance={} visits={}", found.distance, found.visits)
        }
        Err(refusal) => refused(to, refusal),
    }
}

pub(crate) fn decode(to: &mut impl Write, line: Line<'_>) -> io::Result<()> {
    let mut room = [0; 128];
    let levels = line.levels(&mut room);
    let frozen = Word::from(line.number(1));
    answer(
        to,
        tree::decode(line.small(0), levels, frozen, line.small(2), line.small(3)),
    )
}
