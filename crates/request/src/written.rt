// The record of a request, written into a lent buffer: its fields, the ideal levels of its message's codeword, zeros behind them.
ghost use Rattle.std.specs.Prelude.{◌≡◌, ◌+◌, ◌*◌, ◌≤◌, nat_abs, length};
ghost use Rattle.rules.specs.Record.{record_slots};
ghost use Rattle.rules.specs.Request.{unsigned16};
ghost use Rattle.laws.specs.Answers.WrittenRecord.{header};
ghost use Rattle.word.specs.Words.{word_of};
ghost use Rattle.text.specs.Puts.{Put};
ghost use Rattle.request.specs.Reading.{request_in};
ghost use Rattle.request.specs.Writing.{level_in, slot_bytes, Wrote};
ghost use Rattle.request.specs.declared.written.NotWritten.TheVariants.{Refused};

use crate::Request;
use record::{RECORD_BYTES, RECORD_SLOTS};
use refusal::Refusal;
use word::Word;

// Why no record was written: the buffer has no room for it, or the request is refused.
#[derive(Clone, Copy, Debug, PartialEq, Eq)]
pub enum NotWritten {
    NoRoom,
    Refused(Refusal),
}

impl From<Refusal> for NotWritten {
    ghost from_gives = { λ refusal e. e ≡ Refused refusal };

    fn from(refusal: Refusal) -> NotWritten {
        NotWritten::Refused(refusal)
    }
}

// The fields before the levels, and the place behind them.
fn put_head(request: Request, out: &mut [u8]) -> usize
    requires { 16 ≤ length out.old }
    ensures { Put out.old 0 (header (request_in request)) result out.new }
{
    let at = field::put(out, 0, 1, request.n as u64);
    let at = field::put(out, at, 1, request.folding as u64);
    let at = field::put(out, at, 2, 0);
    let at = field::put(out, at, 4, request.allowance as u64);
    field::put(out, at, 8, u64::from(request.mask))
}

// The level of a slot of the record: the ideal level of its bit, and 0 beyond N.
fn level(x: Word, slots: usize, slot: usize) -> i32
    ensures { result ≡ level_in (word_of x) slots slot }
{
    if slot < slots {
        level::ideal(x.bit(slot))
    } else {
        0
    }
}

// A level as it stands in its two bytes.
fn unsigned(level: i32) -> u16
    requires { nat_abs level ≤ 32767 }
    ensures { result ≡ unsigned16 level }
{
    (level as i16).cast_unsigned()
}

// The levels of all slots, from a place on.
fn put_levels(x: Word, slots: usize, out: &mut [u8], at: usize)
    requires { at + 2 * record_slots ≤ length out.old }
    ensures { Put out.old at (slot_bytes (word_of x) slots record_slots) (at + 2 * record_slots) out.new }
{
    for slot in 0..RECORD_SLOTS {
        let bits = unsigned(level(x, slots, slot));
        field::put(out, at + 2 * slot, 2, u64::from(bits));
    }
}

// The record of a request, in the first 144 bytes of a buffer; a buffer without room, and refusals 1, 3, 4, 5, 9, leave it as it was.
pub fn write(request: Request, out: &mut [u8]) -> Result<(), NotWritten>
    ensures { Wrote (request_in request) out.old result out.new }
{
    if out.len() < RECORD_BYTES {
        return Err(NotWritten::NoRoom);
    }
    let words = crate::encoded(request)?;
    let at = put_head(request, out);
    put_levels(words.x, word::slots(request.n), out, at);
    Ok(())
}
