// What a program over records writes for a piece of them: the lines of document 01's three records, the records of five requests.
ghost use Rattle.std.specs.Prelude.{◌≤◌, length};

use crate::line::Line;
use crate::{buffers, given};
use pieces::{Ends, Program};
use std::io;
use std::io::Write;

// Both buffers after the call: how many bytes were put in front of them, how many of those behind are as they were, and the first
// ones. A second one without bytes is passed over.
fn wrote(
    to: &mut impl Write,
    program: Program,
    out: &[u8],
    said: &[u8],
    ends: Ends,
) -> io::Result<()>
    requires { (ends.out ≤ length out.now) × (ends.said ≤ length said.now) }
{
    let (shown, behind) = out.split_at(ends.out);
    write!(
        to,
        " -> length={} left={}",
        shown.len(),
        buffers::left(behind)
    )?;
    let (told, behind) = said.split_at(ends.said);
    if !said.is_empty() {
        write!(
            to,
            " said length={} left={}",
            told.len(),
            buffers::left(behind)
        )?;
    }
    match program {
        Program::Blocks => buffers::text(to, shown)?,
        Program::Make => buffers::records(to, shown)?,
    }
    buffers::text(to, told)
}

// Both buffers after a call that found no room in one of them.
fn no_room(to: &mut impl Write, out: &[u8], said: &[u8]) -> io::Result<()> {
    write!(to, " -> no room left={}", buffers::left(out))?;
    if !said.is_empty() {
        write!(to, " said left={}", buffers::left(said))?;
    }
    Ok(())
}

fn write(
    to: &mut impl Write,
    program: Program,
    bytes: &[u8],
    number: u32,
    out: &mut [u8],
    said: &mut [u8],
) -> io::Result<()> {
    match pieces::write(program, bytes, number, out, said) {
        Some(ends) => wrote(to, program, out, said, ends),
        None => no_room(to, out, said),
    }
}

// The first bytes of what is given, and two buffers of that room: numbers 2 and 3 of the line, and none where it has no number 3.
fn piece(to: &mut impl Write, program: Program, given: &[u8], line: Line<'_>) -> io::Result<()> {
    let mut out = [7; 900];
    let mut said = [7; 24];
    let number = line.small(0);
    if let Some(bytes) = given.get(..line.number(1) as usize)
        && let Some(out) = out.get_mut(..line.number(2) as usize)
        && let Some(said) = said.get_mut(..line.number(3) as usize)
    {
        return write(to, program, bytes, number, out, said);
    }
    Ok(())
}

pub(crate) fn lines(to: &mut impl Write, line: Line<'_>) -> io::Result<()> {
    piece(to, Program::Blocks, &given::three(), line)
}

pub(crate) fn made(to: &mut impl Write, line: Line<'_>) -> io::Result<()> {
    piece(to, Program::Make, &given::five(), line)
}
