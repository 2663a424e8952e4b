// A program over the records on standard input: what it writes for each goes to standard output and to standard error, to the end of
// the input or of the record numbers. It is written over any reader and writers, and where their bytes are known its contract says
// which were read and which were written; `run` hands it those of the system.
#![tactic(auto)]

mod calls; // calls.rt: reading and writing, and what is said of a failure
mod piece; // piece.rt: how much of the input a piece has, what is written for it, and the next piece

ghost use Rattle.stream.specs.Streams.{Passes, Runs};

use calls::Failure;
use piece::{Buffers, Piece};
use pieces::Program;
use std::io::{Read, Write};

// Where a program reads, and where it writes.
#[derive(Drop)]
struct Streams<R, W, E> {
    input: R,
    output: W,
    error: E,
}

// Reads a piece, and writes what the program writes for it: then the number of the next piece, if there is one. Where standard error
// cannot be written, the program goes on: its records matter more, and there is no place left to say it.
fn pass<R: Read, W: Write, E: Write>(
    piece: Piece,
    streams: &mut Streams<R, W, E>,
    buffers: &mut Buffers,
) -> Result<Option<u32>, Failure>
    ensures { Passes piece.program piece.number (R.remaining streams.old.input) (R.remaining streams.new.input)
        (W.contents streams.old.output) (W.contents streams.new.output) result }
{
    let got = calls::fill(&mut streams.input, &mut buffers.bytes[..piece.bytes()]);
    let taken = piece.taken(got.len, got.failure.is_some());
    let ends = piece.written(taken, buffers);
    let _ = calls::put(&mut streams.error, &buffers.said[..ends.said]);
    calls::put(&mut streams.output, &buffers.out[..ends.out]).map_err(Failure::NotWritten)?;
    if let Some(failure) = got.failure {
        return Err(Failure::NotRead(failure));
    }
    Ok(piece.after(got.len))
}

// The program over its streams, piece after piece: at its end it has written what the rules say of the whole input.
fn over<R: Read, W: Write, E: Write>(
    program: Program,
    streams: &mut Streams<R, W, E>,
) -> Result<(), Failure>
    ensures { Runs program (R.remaining streams.old.input) (R.remaining streams.new.input)
        (W.contents streams.old.output) (W.contents streams.new.output) result }
{
    let mut buffers = Buffers {
        bytes: [0u8; piece::BYTES],
        out: [0u8; piece::ROOM],
        said: [0u8; piece::SAID],
    };
    let mut number = 0;
    while let Some(next) = pass(Piece { program, number }, streams, &mut buffers)? {
        number = next;
    }
    Ok(())
}

// The whole program, under the name that it says of itself where a call of the system fails.
pub fn run(rt: &HostRuntime, name: &[u8], program: Program) {
    let mut streams = Streams {
        input: rt.stdin(),
        output: rt.stdout(),
        error: rt.stderr(),
    };
    if let Err(failure) = over(program, &mut streams) {
        calls::report(&mut streams.error, rt.alloc(), name, failure);
    }
}
