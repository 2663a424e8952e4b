// The state of the walk: the best word by value with its distance, and the visits.
ghost use Rattle.std.specs.Prelude.{◌≡◌, ◌^◌, ◌<◌, leb};
ghost use Rattle.rules.specs.Level.{nothing, keep};
ghost use Rattle.rules.specs.Walk.{is_farther};
ghost use Rattle.word.specs.Words.{word_of};
ghost use Rattle.walk.specs.States.{kept_of};

use word::Word;

// A distance greater than any word's: there is no best word yet. It is no Option: two tests in place of one and a longer state would
// take 4 to 11 in a hundred more instructions on noisy blocks.
const NO_BEST: u64 = 4294967296;

// What the walk has so far: the best word, its distance, and the visits.
#[derive(Clone, Copy)]
pub struct Walked {
    pub word: Word,
    pub distance: u64,
    pub visits: u64,
}

impl Walked {
    // No best word and no visit yet.
    pub(crate) fn start() -> Walked
        ensures { (kept_of result ≡ nothing) × (result.visits ≡ 0) }
    {
        Walked {
            word: Word::none(),
            distance: NO_BEST,
            visits: 0,
        }
    }

    // Whether every visit that is allowed has been made.
    pub(crate) fn is_used_up(self, allowance: u64) -> bool
        ensures { result ≡ leb allowance self.visits }
    {
        allowance <= self.visits
    }

    // Whether a best word exists and a partial distance is greater than its distance.
    pub(crate) fn is_farther(self, partial: u64) -> bool
        requires { partial < 2 ^ 32 }
        ensures { result ≡ is_farther (kept_of self) partial }
    {
        self.distance < partial
    }

    // The word is kept if there is no best, or if it is nearer, or equally near with a smaller number.
    pub(crate) fn keep(self, distance: u64, word: Word) -> Walked
        requires { distance < 2 ^ 32 }
        ensures { (kept_of result ≡ keep distance (word_of word) (kept_of self)) × (result.visits ≡ self.visits) }
    {
        if distance < self.distance || distance == self.distance && word.less(self.word) {
            return Walked {
                word,
                distance,
                visits: self.visits,
            };
        }
        self
    }
}
