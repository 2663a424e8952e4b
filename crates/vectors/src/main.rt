// Border cases of the public calls, and the rows of document 01 that are not starred. A line of standard input is a call with
// what it is given; it is printed again, with what came. A line that starts with '#' says what the lines below it are there for.
// What must come is in the file `stdout`, which is written from documents 01 and 02 and not by this program.
#![tactic(auto)]

ghost use Rattle.std.specs.Prelude.{◌≤◌, length};

mod arrow;
mod assembling;
mod buffers;
mod codes;
mod decoding;
mod encoding;
mod given;
mod line;
mod piece;
mod records;
mod requests;
mod samples;
mod words;

use line::Line;
use printing::PassingOver;
use std::io;
use std::io::{LineWriter, Read, Write};

// What came of a call, by its name.
fn answer(to: &mut impl Write, line: Line<'_>) -> io::Result<()> {
    match line.name() {
        b"new" => codes::new(to, line),
        b"guard" => codes::guard(to, line),
        b"encode" => encoding::encode(to, line),
        b"encode_levels" => encoding::encode_levels(to, line),
        b"decode" => decoding::decode(to, line),
        b"level" => samples::level(to, line),
        b"new_assembler" => assembling::new(to, line),
        b"take" => assembling::take(to, line),
        b"give" => assembling::give(to, line),
        b"read" => records::read(to, line),
        b"record" => records::decode(to, line),
        b"lines" => piece::lines(to, line),
        b"request" => requests::read(to, line),
        b"write" => requests::write(to, line),
        b"made" => piece::made(to, line),
        _ => words::answer(to, line),
    }
}

// The line again, and what came of its call.
fn case(to: &mut impl Write, line: Line<'_>) -> io::Result<()> {
    to.write_all(line.text)?;
    answer(to, line)?;
    writeln!(to)
}

// Each line that is a call. The writer passes over a failed write: who reads the lines compares them with those that must come.
fn cases(to: &mut impl Write, text: &[u8]) {
    for line in text.split_inclusive(|b| *b == b'\n') {
        match line {
            [b'#', ..] => {}
            [text @ .., b'\n'] | text => {
                let _ = case(to, Line { text });
            }
        }
    }
}

// Reads until the buffer is full, the input ends or a read fails, and returns how many bytes came. (`read_to_end` has no such
// limit, and tries an interrupted read again.)
fn read(input: &mut impl Read, text: &mut [u8]) -> usize
    ensures { result ≤ length text.new }
{
    let mut len = 0;
    while let Ok(more @ 1..) = input.read(&mut text[len..]) {
        len += more;
    }
    len
}

fn main(rt: HostRuntime) -> io::Result<()> {
    let mut text = [0; 65536];
    let len = read(&mut rt.stdin(), &mut text);
    let mut to = PassingOver(LineWriter::new(rt.alloc(), rt.stdout())?);
    cases(&mut to, &text[..len]);
    Ok(())
}
