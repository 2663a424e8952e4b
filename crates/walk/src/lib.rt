// The walk: depth-first recursion over the levels of the tree, the best word by value.
// A node's word is the one whose codeword has the patterns decided so far, and zeros in the groups that are left. So a
// pattern changes it in one way, whatever was decided before, and with no level left it is the information word.
#![tactic(auto)]

pub mod state;

ghost use Rattle.std.specs.Prelude.{◌≡◌, ℕ, ◌+◌, ◌*◌, ◌%◌, ◌^◌, ◌<◌, ◌≤◌, eqb, length, get_or};
ghost use Rattle.std.proofs.Math.Option.{some};
ghost use Rattle.std.specs.Int.Bits.{bit_and, bit_xor};
ghost use Rattle.rules.specs.Refusals.{largest};
ghost use Rattle.rules.specs.Walk.{keep_best};
ghost use Rattle.laws.specs.Code.Disjoint.{Disjoint};
ghost use Rattle.laws.specs.Walk.Allowance.{walk_in};
ghost use Rattle.laws.specs.Seats.Decided.{decided};
ghost use Rattle.word.specs.Words.{word_of, word_at};
ghost use Rattle.walk.specs.States.{empty, running_of, state_of};
ghost use Rattle.rows.specs.Table.{row_at};
ghost use Rattle.walk.specs.Nodes.{Inside, Tabled, Given, row_candidates};

use crate::state::Walked;
use groups::Tree;
use rows::Table;
use word::Word;

// What every node of a walk reads: the tree, and for each group the word that it covers, its frozen indices, and what its
// nearer bits cost. The rows and the changes are lent beside it: where a struct holds these two, or references to them, they are
// cleared and copied once more for each block, which takes 13 in a hundred more instructions on clean blocks, and more.
#[derive(Clone, Copy)]
pub struct Walk {
    pub tree: Tree,
    pub covered: [Word; word::SLOTS],
    pub shut: [Word; word::SLOTS],
    pub near: [u64; word::SLOTS],
}

// So many entries of a row of the table, from a place on.
fn part(packed: &[u32; 256], place: usize, entries: usize) -> &[u32]
    requires { place + entries ≤ 256 }
    ensures long { length result.now ≡ entries }
    ensures same { (j : ℕ) → j < entries → get_or result.now j 0 ≡ get_or packed.now (place + j) 0 }
{
    &packed[place..place + entries]
}

impl Walk {
    // The sorted row of a group.
    fn row<'t>(&self, rows: &'t Table, k: usize) -> &'t [u32]
        requires { Inside self.now.tree.size k }
        ensures { result.now ≡ row_at rows.now self.now.tree.size k }
    {
        let entries: usize = 1 << self.tree.size;
        let start = k * entries;
        part(&rows[start / 256], start % 256, entries)
    }

    // The word with an entry's pattern in a group: what it changes in group 0, at each group that this one covers.
    fn changed(&self, change: &[Word; 256], k: usize, w: Word, e: u32) -> Word
        requires group { k < 2 ^ largest }
        requires apart { Disjoint largest (word_at self.now.covered k) (word_at change.now (e % 256)) }
        ensures { word_of result ≡ bit_xor (word_of w) (word_at self.now.covered k * word_at change.now (e % 256)) }
    {
        w ^ self.covered[k].copies(change[(e % 256) as usize])
    }

    // Whether a word has no one at a group's frozen indices.
    fn is_open(&self, k: usize, w: Word) -> bool
        requires { k < 2 ^ largest }
        ensures { result ≡ eqb (bit_and (word_of w) (word_at self.now.shut k)) 0 }
    {
        !(w & self.shut[k]).reaches(0)
    }

    // With no level left the word is kept or not; else the candidates of the next group are tried in order. None where the
    // allowance is used up.
    fn node(
        &self,
        rows: &Table,
        change: &[Word; 256],
        left: usize,
        partial: u64,
        w: Word,
        state: Walked,
    ) -> Option<Walked>
        requires { Given rows.now change.now self.now left partial (word_of w) state }
        ensures { state_of result ≡ walk_in keep_best self.now.tree.allowance (row_candidates rows.now self.now) left partial (decided self.now.tree.n self.now.tree.folding left (word_of w)) (some (running_of state)) }
    {
        if left == 0 {
            return Some(state.keep(partial, w));
        }
        let k = left - 1;
        let base = partial + self.near[k];
        let row = self.row(rows, k);
        let mut s = state;
        for e in row {
            let next = self.changed(change, k, w, *e);
            if self.is_open(k, next) {
                if s.is_used_up(self.tree.allowance) {
                    return None;
                }
                s.visits = s.visits + 1;
                let total = base + 1024 * (*e / 256) as u64;
                if s.is_farther(total) {
                    return Some(s);
                }
                s = self.node(rows, change, k, total, next, s)?;
            }
        }
        Some(s)
    }

    // The walk from the first level, with no best word. None where the allowance is used up.
    pub fn walk(&self, rows: &Table, change: &[Word; 256]) -> Option<Walked>
        requires { Tabled rows.now change.now self.now }
        ensures { state_of result ≡ walk_in keep_best self.now.tree.allowance (row_candidates rows.now self.now) self.now.tree.groups 0 0 (some empty) }
    {
        let levels = self.tree.groups;
        self.node(rows, change, levels, 0, Word::none(), Walked::start())
    }
}
