// Recorded blocks and their lines: a record decoded, the line of an answer, the line of a record.
#![tactic(auto)]

mod answers;
pub mod block;

ghost use Rattle.std.specs.Prelude.{◌+◌, ◌≤◌, length};
ghost use Rattle.rules.specs.Text.{line, record_line};
ghost use Rattle.tree.specs.Reading.{answer_of};
ghost use Rattle.text.specs.Within.{Within};
ghost use Rattle.lines.specs.Lines.{longest};

use answers::{put_found, put_refused};
use block::decode;
use refusal::Refusal;
use tree::Decoded;

// How many bytes the longest line has.
pub const LINE_BYTES: usize = 56;

// The line of an answer.
fn put_answer(out: &mut [u8], at: usize, number: u32, answer: Result<Decoded, Refusal>) -> usize
    requires { at + longest ≤ length out.old }
    ensures { Within longest out.old at (line number (answer_of answer)) result out.new }
{
    match answer {
        Ok(found) => put_found(out, at, number, found),
        Err(refusal) => put_refused(out, at, number, refusal),
    }
}

// The line of a record, put into a lent buffer from a place on, and the place behind it. A caller proves that there is room.
pub fn put(out: &mut [u8], at: usize, number: u32, bytes: &[u8]) -> usize
    requires { at + longest ≤ length out.old }
    ensures { Within longest out.old at (record_line number bytes.now) result out.new }
{
    put_answer(out, at, number, decode(bytes))
}
