// A single one, a word moved up, and copies of a word's bits at the ones of another.
ghost use Rattle.std.specs.Prelude.{◌≡◌, ◌*◌, ◌%◌, ◌^◌};
ghost use Rattle.rules.specs.Refusals.{largest};
ghost use Rattle.laws.specs.Code.Disjoint.{Disjoint};
ghost use Rattle.word.specs.Words.{word_of};

use crate::{SLOTS, Word};

impl Word {
    // A one at index i, no one past the word.
    pub fn single(i: usize) -> Word
        ensures { word_of result ≡ 2 ^ i % 2 ^ (2 ^ largest) }
    {
        Word {
            bits: if i < SLOTS { 1 << i } else { 0 },
        }
    }

    // The word moved up, bit 0 to index i; what passes the word is lost.
    pub fn above(self, i: usize) -> Word
        ensures { word_of result ≡ word_of self * 2 ^ i % 2 ^ (2 ^ largest) }
    {
        Word {
            bits: if i < SLOTS { self.bits << i } else { 0 },
        }
    }

    // A copy of b's bits at each one of this word; their ones must lie in disjoint index bits.
    pub fn copies(self, b: Word) -> Word
        requires { Disjoint largest (word_of self) (word_of b) }
        ensures { word_of result ≡ word_of self * word_of b }
    {
        Word {
            bits: self.bits * b.bits,
        }
    }
}
