// What came of a call, behind an arrow. The arrow stands in one part with the text behind it: where the write of a part fails, that
// part is lost whole and the next is tried, so that the parts of a line are part of what the program does.
use refusal::Refusal;
use std::fmt::Display;
use std::io;
use std::io::Write;

// A number.
pub(crate) fn shown(to: &mut impl Write, number: impl Display + Drop) -> io::Result<()> {
    write!(to, " -> {number}")
}

// A refusal by its number, and the slot, level or sample that it names: its `Display`, with the arrow in its first part.
pub(crate) fn refused(to: &mut impl Write, refusal: Refusal) -> io::Result<()> {
    let number = refusal.number();
    match refusal {
        Refusal::Range(slot) => write!(to, " -> refused {number} slot {slot}"),
        Refusal::NoCandidate(level) => write!(to, " -> refused {number} level {level}"),
        Refusal::NotFinite(sample) => write!(to, " -> refused {number} sample {sample}"),
        _ => write!(to, " -> refused {number}"),
    }
}
