// The tree of a folding, and what a walk reads of each group: what its patterns change in the word, and its frozen indices.
// Words are in index order; seats only say which indices a group has.
#![tactic(auto)]

mod doubling;
pub mod layout;
pub mod seat;

ghost use Rattle.std.specs.Prelude.{◌≡◌, ◌^◌, ◌≤◌, ◌<◌};
ghost use Rattle.std.specs.Int.Count.{ones};
ghost use Rattle.rules.specs.Refusals.{largest};
ghost use Rattle.groups.specs.Grouping.{Grouped};

// A tree: n, the folding, how many indices a group has, how many groups there are, and how many visits are allowed.
#[derive(Clone, Copy)]
pub struct Tree {
    pub n: u32,
    pub folding: u32,
    pub size: usize,
    pub groups: usize,
    pub allowance: u64,
}

// The tree of a folding.
pub fn folded(n: u32, folding: u32, allowance: u32) -> Tree
    requires { (n ≤ largest) × (folding < 2 ^ n) × (ones folding ≤ 3) }
    ensures { (result.n ≡ n) × (result.folding ≡ folding) × (result.allowance ≡ allowance) × Grouped result }
{
    let size: usize = 1 << word::count::folding_size(folding);
    let groups = word::slots(n) / size;
    Tree {
        n,
        folding,
        size,
        groups,
        allowance: allowance as u64,
    }
}
