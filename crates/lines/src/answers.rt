// The line of an answer, written into a lent buffer from a place on.
ghost use Rattle.std.specs.Prelude.{◌+◌, ◌≤◌, length};
ghost use Rattle.rules.specs.Text.{line};
ghost use Rattle.rules.specs.Refusals as rules;
ghost use Rattle.refusal.specs.Number.{refusal_of};
ghost use Rattle.tree.specs.Reading.{decoded_of};
ghost use Rattle.text.specs.Within.{Within};
ghost use Rattle.lines.specs.Lines.{longest};

use refusal::Refusal;
use tree::Decoded;

// The line of a finished decoding.
pub(crate) fn put_found(out: &mut [u8], at: usize, number: u32, found: Decoded) -> usize
    requires { at + longest ≤ length out.old }
    ensures { Within longest out.old at (line number (rules.done (decoded_of found))) result out.new }
{
    let at = text::decimal(out, at, number as u64);
    let at = text::bytes(out, at, b" found ");
    let at = text::hex(out, at, u64::from(found.message));
    let at = text::spaced(out, at, found.distance as u64);
    let at = text::spaced(out, at, found.visits as u64);
    text::bytes(out, at, b"\n")
}

// The line of a refusal.
pub(crate) fn put_refused(out: &mut [u8], at: usize, number: u32, refusal: Refusal) -> usize
    requires { at + longest ≤ length out.old }
    ensures { Within longest out.old at (line number (rules.refused (refusal_of refusal))) result out.new }
{
    let at = text::decimal(out, at, number as u64);
    let at = text::bytes(out, at, b" refused");
    let at = text::spaced(out, at, refusal.number() as u64);
    text::bytes(out, at, b"\n")
}
