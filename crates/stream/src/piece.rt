// Pieces of the input: how many bytes the next may have, which of those that were got count, what the program writes for them, and
// the piece after it.
ghost use Rattle.std.specs.Prelude.{◌≡◌, ◌-◌, ◌*◌, ◌≤◌, min, length, take};
ghost use Rattle.rules.specs.Text.{most_records};
ghost use Rattle.laws.specs.Answers.Pieces.{piece_records, piece_bytes, taken_of};
ghost use Rattle.pieces.specs.Programs.{size_of, shown_from, said_from};
ghost use Rattle.text.specs.Puts.{Put};
ghost use Rattle.stream.specs.Pieces.{next_piece};

use pieces::{Ends, MOST_RECORDS, Program, REFUSAL_BYTES};
use record::RECORD_BYTES;

// How many records a piece has at the most.
const RECORDS: u32 = 200;

// The bytes of a whole piece, and the room for what is written for it, of the program that has most of each.
pub const BYTES: usize = RECORDS as usize * RECORD_BYTES;

pub const ROOM: usize = (RECORDS as usize + 1) * RECORD_BYTES;

pub const SAID: usize = (RECORDS as usize + 1) * REFUSAL_BYTES;

// The bytes of a piece, and what is written for them to standard output and to standard error.
#[derive(Drop)]
pub struct Buffers {
    pub bytes: [u8; BYTES],
    pub out: [u8; ROOM],
    pub said: [u8; SAID],
}

// A piece of a program's input, by the number of its first record.
#[derive(Clone, Copy)]
pub struct Piece {
    pub program: Program,
    pub number: u32,
}

impl Piece {
    // How many records it may have, no more than may still be read.
    fn records(self) -> u32
        ensures { result ≡ min piece_records (most_records - self.number) }
    {
        RECORDS.min(MOST_RECORDS - self.number)
    }

    // How many bytes it may have.
    pub fn bytes(self) -> usize
        ensures { result ≡ piece_bytes (size_of self.program) self.number }
    {
        self.records() as usize * self.program.size()
    }

    // How many of the bytes that were got count: after a failed read those of whole records, else all of them.
    pub fn taken(self, got: usize, failed: bool) -> usize
        ensures { result ≡ taken_of (size_of self.program) failed got }
    {
        if failed {
            let size = self.program.size();
            return got / size * size;
        }
        got
    }

    // What the program writes for its bytes that count, at the front of buffers that have room for that of a whole piece.
    pub fn written(self, taken: usize, buffers: &mut Buffers) -> Ends
        requires { taken ≤ piece_records * size_of self.program }
        ensures bytes { buffers.new.bytes ≡ buffers.old.bytes }
        ensures shown { Put buffers.old.out 0 (shown_from self.program self.number (take taken buffers.old.bytes)) result.out buffers.new.out }
        ensures told { Put buffers.old.said 0 (said_from self.program self.number (take taken buffers.old.bytes)) result.said buffers.new.said }
        ensures within { (result.out ≤ length buffers.old.out) × (result.said ≤ length buffers.old.said) }
    {
        pieces::write(
            self.program,
            &buffers.bytes[..taken],
            self.number,
            &mut buffers.out,
            &mut buffers.said,
        )
        .unwrap()
    }

    // The number of the next piece, of this one so many bytes were got: there is one after a full piece, unless no more records may
    // be read.
    pub fn after(self, got: usize) -> Option<u32>
        ensures { result ≡ next_piece self.program self.number got }
    {
        if got < self.bytes() || MOST_RECORDS - self.number <= RECORDS {
            return None;
        }
        Some(self.number + RECORDS)
    }
}
