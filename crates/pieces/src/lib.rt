// What a program over records writes for a piece of many: its records in turn, numbered on, each with its part of standard output
// and of standard error, which stand in two lent buffers. Said once for every such program.
#![tactic(auto)]

mod each; // each.rt: what is written for one record

ghost use Rattle.std.specs.Prelude.{◌≡◌};
ghost use Rattle.pieces.specs.Programs.{size_of, has_room};
ghost use Rattle.pieces.specs.Pieces.{Piece};

use lines::LINE_BYTES;
use record::RECORD_BYTES;
use request::REQUEST_BYTES;

// The programs over records: `blocks` decodes recorded blocks, `make` writes the records of requests.
#[derive(Clone, Copy)]
pub enum Program {
    Blocks,
    Make,
}

// How many records a program reads at the most.
pub const MOST_RECORDS: u32 = 4294967295;

// How many bytes the longest line of a refusal has.
pub const REFUSAL_BYTES: usize = 3;

// Where what is written ends, in each of the two buffers.
#[derive(Clone, Copy)]
pub struct Ends {
    pub out: usize,
    pub said: usize,
}

impl Program {
    // How many bytes a record of the program has.
    pub fn size(self) -> usize
        ensures { result ≡ size_of self }
    {
        match self {
            Program::Blocks => RECORD_BYTES,
            Program::Make => REQUEST_BYTES,
        }
    }

    // Whether buffers that long have room for all that may be written for so many bytes.
    fn has_room(self, len: usize, out: usize, said: usize) -> bool
        ensures { result ≡ has_room self len out said }
    {
        match self {
            Program::Blocks => len / RECORD_BYTES < out / LINE_BYTES,
            Program::Make => {
                let requests = len / REQUEST_BYTES;
                requests < out / RECORD_BYTES && requests < said / REFUSAL_BYTES
            }
        }
    }
}

// What the program writes for the records in bytes, the first of them numbered `number`: to standard output, and to standard error.
// None where one of the buffers has no room.
pub fn write(
    program: Program,
    bytes: &[u8],
    number: u32,
    out: &mut [u8],
    said: &mut [u8],
) -> Option<Ends>
    ensures { Piece program bytes.now number out.old said.old result out.new said.new }
{
    if !program.has_room(bytes.len(), out.len(), said.len()) {
        return None;
    }
    let mut ends = Ends { out: 0, said: 0 };
    for (record, k) in bytes.chunks(program.size()).zip(number..MOST_RECORDS) {
        ends = each::put(program, record, k, out, said, ends);
    }
    Some(ends)
}
