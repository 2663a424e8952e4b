// Words with a bit for each slot of the largest block: from numbers and back, a bit, sums modulo 2, common ones and comparison;
// below, counts, single ones, and words moved up and copied.
// Every public function but `Word::copies` is total, and every contract reads a word through `word_of`.
#![tactic(auto)]

pub mod count;
mod place; // place.rt: a single one, a word moved up, and copies

ghost use Rattle.std.specs.Prelude.{◌≡◌, ◌^◌, ltb};
ghost use Rattle.std.specs.Int.Bits.{bit_and, bit_xor};
ghost use Rattle.rules.specs.Word as rules;
ghost use Rattle.rules.specs.Refusals.{is_wrong_size};
ghost use Rattle.word.specs.Words.{word_of, size_of};

use std::ops::{BitAnd, BitXor};

// A word: bit i stands for index i.
#[derive(Clone, Copy, Debug, PartialEq, Eq)]
pub struct Word {
    bits: u64,
}

// The largest n.
pub const LARGEST: u32 = 6;

// How many bits a word has, as many as the largest block has slots.
pub const SLOTS: usize = 64;

// Whether n is not 1..6.
pub fn wrong_size(n: u32) -> bool
    ensures { result ≡ is_wrong_size n }
{
    n < 1 || LARGEST < n
}

// N, the number of slots; an n above the largest counts as the largest.
pub fn slots(n: u32) -> usize
    ensures { result ≡ 2 ^ size_of n }
{
    if n < LARGEST { 1 << n } else { SLOTS }
}

impl Word {
    // The word with no one.
    pub fn none() -> Word
        ensures { word_of result ≡ 0 }
    {
        Word { bits: 0 }
    }

    // Bit i, 0 past the word.
    pub fn bit(self, i: usize) -> u32
        ensures { result ≡ rules.bit (word_of self) i }
    {
        if i < SLOTS {
            ((self.bits >> i) % 2) as u32
        } else {
            0
        }
    }

    // Whether this word is the smaller number. Not a derived order: the must-fail edits `less_turned` and `less_or_equal` have their place here.
    pub fn less(self, other: Word) -> bool
        ensures { result ≡ ltb (word_of self) (word_of other) }
    {
        self.bits < other.bits
    }
}

// The word of a number.
impl From<u64> for Word {
    ghost from_gives = { λ number r. word_of r ≡ number };

    fn from(number: u64) -> Word {
        Word { bits: number }
    }
}

// The number of a word.
impl From<Word> for u64 {
    ghost from_gives = { λ w r. r ≡ word_of w };

    fn from(w: Word) -> u64 {
        w.bits
    }
}

// The sum of two words, bit by bit modulo 2.
impl BitXor for Word {
    type Output = Word;

    ghost bitxor_gives = { λ a b r. word_of r ≡ bit_xor (word_of a) (word_of b) };

    fn bitxor(self, other: Word) -> Word {
        Word {
            bits: self.bits ^ other.bits,
        }
    }
}

// The ones that two words have in common.
impl BitAnd for Word {
    type Output = Word;

    ghost bitand_gives = { λ a b r. word_of r ≡ bit_and (word_of a) (word_of b) };

    fn bitand(self, other: Word) -> Word {
        Word {
            bits: self.bits & other.bits,
        }
    }
}
