// Levels: the limit, ideal levels, the range, the clip, and a word's distance from the levels of a block; below, what a slot gives.
// Every public function is total. Another limit is one number here, LIMIT, and one in the rules, `limit`.
#![tactic(auto)]

pub mod cost;

ghost use Rattle.std.specs.Prelude.{◌≡◌, ◌<◌, pos, nat_abs, length, IfSome, Some};
ghost use Rattle.rules.specs.Level as rules;
ghost use Rattle.rules.specs.Sample.{clip};
ghost use Rattle.word.specs.Words.{word_of};
ghost use Rattle.word.specs.Options.{option_of};
ghost use Rattle.level.specs.Range.{first_out};
ghost use Rattle.level.specs.Measuring.{measured_of, measured};
ghost use Rattle.level.specs.Printed.{printed};

use std::error::Error;
use std::fmt;
use word::Word;

// The greatest magnitude of a level.
pub const LIMIT: i32 = 2047;

// What a slot costs: at its nearer bit, and by how many times 1024 bit 0 and bit 1 cost more than that.
#[derive(Clone, Copy, Debug, PartialEq, Eq)]
pub struct Slot {
    pub nearest: u64,
    pub zero: u32,
    pub one: u32,
}

// A level of a block is out of range; the first such slot.
#[derive(Clone, Copy, Debug, PartialEq, Eq)]
pub struct OutOfRange {
    pub slot: usize,
}

impl fmt::Display for OutOfRange {
    ghost output = { λ out. Some (printed out) };

    fn fmt<W: fmt::Write>(&self, f: &mut fmt::Formatter<W>) -> fmt::Result {
        write!(f, "slot {} is out of range", self.slot)
    }
}

impl Error for OutOfRange {}

// The ideal level of a bit.
pub fn ideal(b: u32) -> i32
    ensures { result ≡ rules.ideal b }
{
    if b == 0 { -256 } else { 256 }
}

// The magnitude of a level.
pub fn magnitude(level: i32) -> u32
    ensures { result ≡ nat_abs level }
{
    level.unsigned_abs()
}

// Whether a level is a received level's, from -LIMIT to LIMIT.
pub fn in_range(level: i32) -> bool
    ensures { result ≡ rules.in_range level }
{
    -LIMIT <= level && level <= LIMIT
}

// The first slot whose level is out of range.
pub fn first_out_of_range(levels: &[i32]) -> Option<usize>
    ensures found { option_of result ≡ first_out levels.now }
    ensures inside { IfSome result (λ slot. slot < length levels.now) }
{
    levels.iter().position(|level| !in_range(*level))
}

// A whole number clipped to LIMIT.
pub fn clipped(size: u32) -> i32
    ensures { result ≡ clip (pos size) }
{
    size.min(LIMIT as u32) as i32
}

// The distance of a word from the levels of a block. Slots past the largest block do not count, and bits past the slice neither.
pub fn distance(levels: &[i32], x: Word) -> Result<u32, OutOfRange>
    ensures { measured_of result ≡ measured levels.now (word_of x) }
{
    let counted = &levels[..levels.len().min(word::SLOTS)];
    let mut sum: u64 = 0;
    for (slot, level) in counted.iter().enumerate() {
        if !in_range(*level) {
            return Err(OutOfRange { slot });
        }
        sum += cost::bit_cost(*level, x.bit(slot));
    }
    Ok(sum as u32)
}
