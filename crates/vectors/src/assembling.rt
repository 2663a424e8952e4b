// The assembler: a new one, taking a reading, giving out the levels.
use crate::arrow::refused;
use crate::line::Line;
use light::{Assembler, Pair, Reading, Refused};
use printing::Levels;
use std::io::Write;
use std::{io, num};

// The assembler of a line, whose first two numbers are its n and how many slots are filled: level i + 1 at each slot i, filled or
// not.
fn given(line: Line<'_>) -> Assembler {
    let mut levels = [0; word::SLOTS];
    for (i, level) in levels.iter_mut().enumerate() {
        *level = i as i32 + 1;
    }
    Assembler {
        n: line.small(0),
        filled: line.number(1) as usize,
        levels,
    }
}

// The n of an assembler, how many slots are filled, and the levels of all its slots.
fn state(to: &mut impl Write, assembler: Assembler) -> io::Result<()> {
    let Assembler { n, filled, levels } = assembler;
    let slots = word::slots(n);
    write!(
        to,
        " n={n} filled={filled} levels={}",
        Levels(&levels[..slots])
    )
}

// Done or refused, and the assembler handed back.
fn handed(to: &mut impl Write, handed: Result<Assembler, Refused>) -> io::Result<()> {
    match handed {
        Ok(assembler) => {
            write!(to, " -> done")?;
            state(to, assembler)
        }
        Err(Refused { why, assembler }) => {
            refused(to, why)?;
            state(to, assembler)
        }
    }
}

pub(crate) fn new(to: &mut impl Write, line: Line<'_>) -> io::Result<()> {
    handed(to, Assembler::new(line.small(0)))
}

// The reading of a line: a pair of samples, one sample, or none.
fn reading(line: Line<'_>) -> Reading {
    let [first, second] = [2, 3].map(|i| num::f32_from_bits_with_nan(line.small(i)));
    if line.has(3) {
        return Reading::Pair(Pair {
            in_phase: first,
            quadrature: second,
        });
    }
    if line.has(2) {
        return Reading::Single(first);
    }
    Reading::Erased
}

pub(crate) fn take(to: &mut impl Write, line: Line<'_>) -> io::Result<()> {
    handed(to, given(line).take(reading(line)))
}

fn give_in(to: &mut impl Write, line: Line<'_>, slice: &mut [i32]) -> io::Result<()> {
    match given(line).give(slice) {
        Ok(()) => write!(to, " -> done")?,
        Err(refusal) => refused(to, refusal)?,
    }
    write!(to, " levels={}", Levels(slice))
}

// A slice of that many slots, up to 65, each at 7 before the call.
pub(crate) fn give(to: &mut impl Write, line: Line<'_>) -> io::Result<()> {
    let mut slice = [7; 65];
    match slice.get_mut(..line.number(2) as usize) {
        Some(slice) => give_in(to, line, slice),
        None => Ok(()),
    }
}
