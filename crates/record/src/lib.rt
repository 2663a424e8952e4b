// A record's fields from its 144 bytes, or the first refusal of 13, 1, 12, 3, 4, 5. Of a longer slice the first 144 bytes count.
#![tactic(auto)]

ghost use Rattle.std.specs.Prelude.{◌≡◌, true, map, eqb, ◌≤◌, ◌<◌, length};
ghost use Rattle.rules.specs.Below.{list_below};
ghost use Rattle.rules.specs.Record.{little_endian, slot_level, record_bytes, record_slots, read_answer};
ghost use Rattle.record.specs.Reading.{answer_of, zeros_at};

use field::number;
use refusal::Refusal;
use word::Word;

pub const RECORD_BYTES: usize = 144;

// How many levels a record has, whatever its n.
pub const RECORD_SLOTS: usize = 64;

#[derive(Clone, Copy)]
pub struct Fields {
    pub n: u32,
    pub folding: u32,
    pub allowance: u32,
    pub mask: Word,
    pub levels: [i32; RECORD_SLOTS],
}

// The level of a slot.
fn level(bytes: &[u8], slot: usize) -> i32
    requires { (record_bytes ≤ length bytes.now) × (slot < record_slots) }
    ensures { result ≡ slot_level bytes.now slot }
{
    let bits = number(bytes, 16 + 2 * slot, 2) as u16;
    i32::from(bits.cast_signed())
}

// The levels of all slots.
fn levels(bytes: &[u8]) -> [i32; RECORD_SLOTS]
    requires { record_bytes ≤ length bytes.now }
    ensures { result ≡ map (slot_level bytes.now) (list_below record_slots (λ i. true)) }
{
    // A loop: with `array::from_fn` the crate proves, but what the crates above load of it cannot be written.
    let mut levels = [0; RECORD_SLOTS];
    for slot in 0..RECORD_SLOTS {
        levels[slot] = level(bytes, slot);
    }
    levels
}

// Whether the number in some bytes is zero, so each of them.
fn is_zero(bytes: &[u8]) -> bool
    ensures { result ≡ eqb (little_endian bytes.now) 0 }
{
    bytes.iter().all(|byte| *byte == 0)
}

// Whether bytes 2 and 3 and each level beyond the slots are zero.
fn zeros(bytes: &[u8], slots: usize) -> bool
    requires { (record_bytes ≤ length bytes.now) × (slots ≤ record_slots) }
    ensures { result ≡ zeros_at bytes.now slots }
{
    is_zero(&bytes[2..4]) && is_zero(&bytes[16 + 2 * slots..RECORD_BYTES])
}

// The fields of a record, or why it is refused.
pub fn read(bytes: &[u8]) -> Result<Fields, Refusal>
    ensures { answer_of result ≡ read_answer bytes.now }
{
    if bytes.len() < RECORD_BYTES {
        return Err(Refusal::Short);
    }
    let n = number(bytes, 0, 1) as u32;
    if word::wrong_size(n) {
        return Err(Refusal::Size);
    }
    if !zeros(bytes, word::slots(n)) {
        return Err(Refusal::NotZero);
    }
    let mask = Word::from(number(bytes, 8, 8));
    let folding = number(bytes, 1, 1) as u32;
    checks::folded(n, mask, folding)?;
    let allowance = number(bytes, 4, 4) as u32;
    let levels = levels(bytes);
    Ok(Fields {
        n,
        folding,
        allowance,
        mask,
        levels,
    })
}
