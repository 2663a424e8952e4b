// A tree with its seats, and the tables of words that they make.
ghost use Rattle.groups.specs.Seating.{Seated};
ghost use Rattle.groups.specs.Grouping.{Grouped};

use crate::Tree;
use crate::doubling::double;
use word::Word;

// A tree and the index at each of its seats.
#[derive(Clone, Copy)]
pub struct Layout {
    pub tree: Tree,
    pub index: [usize; word::SLOTS],
    pub ghost grouped: { Grouped tree },
    pub ghost seated: { Seated index tree.n tree.folding },
}

impl Layout {
    ghost use Rattle.std.specs.Prelude.{◌≡◌, ◌-◌, ◌^◌};
    ghost use Rattle.laws.specs.Seats.SeatWords.{unseat};
    ghost use Rattle.word.specs.Words.{word_of};
    ghost use Rattle.groups.specs.Grouping.{Covered, Shut, Changes};

    // The indices of group 0, a one at each.
    fn first_group(&self) -> Word
        ensures { word_of result ≡ unseat self.now.tree.n self.now.tree.folding (2 ^ self.now.tree.size - 1) }
    {
        let mut own = Word::none();
        for t in 0..self.tree.size {
            own = own ^ Word::single(self.index[t]);
        }
        own
    }

    // The frozen indices of each group.
    pub fn shut(&self, frozen: Word) -> [Word; word::SLOTS]
        ensures { Shut result self.now.tree (word_of frozen) }
    {
        let own = self.first_group();
        let mut shut = [Word::none(); word::SLOTS];
        for k in 0..self.tree.groups {
            shut[k] = frozen & own.above(self.index[k * self.tree.size]);
        }
        shut
    }

    // For each group, the codeword of its smallest index alone: a one at the smallest index of each group that it covers.
    // A group with a one bit more covers what the rest of it covers, and the same moved up by the smallest index of the group
    // with that bit alone.
    pub fn covered(&self) -> [Word; word::SLOTS]
        ensures { Covered result self.now.tree }
    {
        let mut covered = [Word::none(); word::SLOTS];
        covered[0] = Word::single(0);
        let mut m = 1;
        // The groups double from turn to turn, which no range counts.
        while m < self.tree.groups {
            let first = self.index[m * self.tree.size];
            double(&mut covered, m, |w: Word| w ^ w.above(first));
            m = m * 2;
        }
        covered
    }

    // For each pattern, the word whose codeword has it in group 0 and zeros elsewhere.
    // One slot more doubles the patterns: to those with its bit the codeword of its index is added.
    pub fn changes(&self) -> [Word; 256]
        ensures { Changes result self.now.tree }
    {
        let mut changes = [Word::none(); 256];
        for t in 0..self.tree.size {
            let column = matrix::map(Word::single(self.index[t]));
            double(&mut changes, 1 << t, |w: Word| w ^ column);
        }
        changes
    }
}
