// Refusal 7's test, before the walk: the first level of the tree that has no candidate. A group always has the filling 0,
// so no level is ever named; the number stays until it is taken back.
ghost use Rattle.std.specs.Prelude.{◌≡◌, ℕ, ◌-◌, ◌^◌, ◌≤◌};
ghost use Rattle.std.specs.Int.Count.{ones};
ghost use Rattle.word.specs.Words.{word_of};
ghost use Rattle.groups.specs.Grouping.{Grouped, Shut};
ghost use Rattle.word.specs.Options.{option_of};
ghost use Rattle.tree.specs.Empty.{FewShut, first_empty};

use groups::Tree;
use word::Word;

// How many fillings a group has: two to the number of its unfrozen indices.
fn fillings(shut: Word, size: usize) -> u32
    requires { (size ≤ 8) × (ones (word_of shut) ≤ size) }
    ensures { result ≡ 2 ^ (size - ones (word_of shut)) }
{
    1 << (size - shut.ones() as usize)
}

// The first level whose group has no filling. Level 0 decides the last group, and so on down.
pub(crate) fn first_empty(shut: &[Word; word::SLOTS], tree: Tree) -> Option<usize>
    requires { Grouped tree × FewShut shut.now tree }
    ensures { (mask : ℕ) → Shut shut.now tree mask → option_of result ≡ first_empty tree.n mask tree.folding }
{
    for level in 0..tree.groups {
        let group = tree.groups - 1 - level;
        if fillings(shut[group], tree.size) == 0 {
            return Some(level);
        }
    }
    None
}
