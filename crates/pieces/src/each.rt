// What a program writes for one record: to standard output, and to standard error, each put into its buffer behind what stands there.
// The buffers and their ends go along as parameters: a struct that held the lent buffers would owe a clause more in each method, that
// it still holds the same ones, and is no plainer.
ghost use Rattle.std.specs.Prelude.{◌++◌, ◌+◌, ◌≤◌, length};
ghost use Rattle.rules.specs.Record.{record_bytes};
ghost use Rattle.rules.specs.Text.{decimal, line_end};
ghost use Rattle.rules.specs.Request.{request_answer, record_made, refusal_said};
ghost use Rattle.refusal.specs.Number.{number_of};
ghost use Rattle.text.specs.Within.{Within};
ghost use Rattle.pieces.specs.Programs.{shown_of, said_of, longest_refusal, longest_shown, longest_said};

use crate::{Ends, Program};
use record::RECORD_BYTES;
use refusal::Refusal;

// The number of a refusal, in a line.
fn put_refusal(said: &mut [u8], at: usize, refusal: Refusal) -> usize
    requires { at + longest_refusal ≤ length said.old }
    ensures { Within longest_refusal said.old at (decimal (number_of refusal) ++ line_end) result said.new }
{
    let at = text::decimal(said, at, refusal.number() as u64);
    text::bytes(said, at, b"\n")
}

// The record of a request, or the number of its refusal.
fn make(bytes: &[u8], out: &mut [u8], said: &mut [u8], ends: Ends) -> Ends
    requires { (ends.out + record_bytes ≤ length out.old) × (ends.said + longest_refusal ≤ length said.old) }
    ensures shown { Within record_bytes out.old ends.out (record_made (request_answer bytes.now)) result.out out.new }
    ensures told { Within longest_refusal said.old ends.said (refusal_said (request_answer bytes.now)) result.said said.new }
{
    match request::read(bytes) {
        Ok(request) => {
            request::written::write(request, &mut out[ends.out..]).unwrap();
            Ends {
                out: ends.out + RECORD_BYTES,
                ..ends
            }
        }
        Err(refusal) => Ends {
            said: put_refusal(said, ends.said, refusal),
            ..ends
        },
    }
}

// What the program writes for the record with this number. A caller proves that there is room.
pub(crate) fn put(
    program: Program,
    bytes: &[u8],
    number: u32,
    out: &mut [u8],
    said: &mut [u8],
    ends: Ends,
) -> Ends
    requires { (ends.out + longest_shown program ≤ length out.old) × (ends.said + longest_said program ≤ length said.old) }
    ensures shown { Within (longest_shown program) out.old ends.out (shown_of program number bytes.now) result.out out.new }
    ensures told { Within (longest_said program) said.old ends.said (said_of program number bytes.now) result.said said.new }
{
    match program {
        Program::Blocks => Ends {
            out: lines::put(out, ends.out, number, bytes),
            ..ends
        },
        Program::Make => make(bytes, out, said, ends),
    }
}
