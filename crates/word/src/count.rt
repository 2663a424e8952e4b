// Counts of ones: of a word, of a folding, of the mask's unfrozen indices (K), and the fewest in an unfrozen index (W).
ghost use Rattle.std.specs.Prelude.{◌≡◌, ◌^◌, ◌%◌, leb};
ghost use Rattle.std.specs.Int.Count.{ones as ones_of};
ghost use Rattle.rules.specs.Below.{or_less};
ghost use Rattle.rules.specs.Word.{message_bits};
ghost use Rattle.rules.specs.Guard.{fewest_ones};
ghost use Rattle.word.specs.Words.{word_of, size_of};
ghost use Rattle.word.specs.Options.{option_of};

use crate::{SLOTS, Word, slots};

// The number of connection sets in a folding.
pub fn folding_size(folding: u32) -> u32
    ensures { result ≡ ones_of folding }
{
    folding.count_ones()
}

// The fewer of what was found and a count.
fn fewer(found: Option<u32>, count: u32) -> u32
    ensures { result ≡ or_less count (option_of found) }
{
    match found {
        None => count,
        Some(fewest) => fewest.min(count),
    }
}

impl Word {
    // The number of ones in the word.
    pub fn ones(self) -> u32
        ensures { result ≡ ones_of (word_of self) }
    {
        self.bits.count_ones()
    }

    // Whether the word has a one at index i or above.
    pub fn reaches(self, i: usize) -> bool
        ensures { result ≡ leb (2 ^ i) (word_of self) }
    {
        i < SLOTS && (1 << i) <= self.bits
    }

    // The bits of the word at the indices of the N slots.
    fn slot_bits(self, n: u32) -> Word
        ensures { word_of result ≡ word_of self % 2 ^ (2 ^ size_of n) }
    {
        let slots = slots(n);
        if slots < SLOTS {
            Word {
                bits: self.bits % (1 << slots),
            }
        } else {
            self
        }
    }
}

// K, the number of unfrozen indices.
pub fn unfrozen(n: u32, frozen: Word) -> usize
    ensures { result ≡ message_bits (size_of n) (word_of frozen) }
{
    slots(n) - frozen.slot_bits(n).ones() as usize
}

// W, the fewest ones in an unfrozen index; none where no index is unfrozen.
pub fn fewest_ones(n: u32, frozen: Word) -> Option<u32>
    ensures { option_of result ≡ fewest_ones (size_of n) (word_of frozen) }
{
    let mut found = None;
    for i in 0..slots(n) {
        if frozen.bit(i) == 0 {
            found = Some(fewer(found, i.count_ones()));
        }
    }
    found
}
