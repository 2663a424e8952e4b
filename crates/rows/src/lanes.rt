// Four rows side by side. Merging a row is one chain of steps, each of which waits for the one before. The rows of four groups
// are merged in step, so that a step of one need not wait for those of the others. Each has a lane of the table, `entries`
// places long, and no lane crosses a row of the table.
ghost use Rattle.std.specs.Prelude.{◌≡◌, ℕ, ◌+◌, ◌-◌, ◌*◌, ◌^◌, ◌<◌, ◌≤◌};
ghost use Rattle.rows.specs.Cells.{cell, Shaped, Room};
ghost use Rattle.rows.specs.Lanes.{Turned, Lanes, Merged, Completed};

use crate::Table;
use crate::seat::Entries;
use crate::table::{entry, store};
use std::hint::select_unpredictable;

// One step of the merging in the lane that begins at `start`: of t entries a came with bit 0, and the smaller of the two next
// ones goes to place t. No branch goes by the data: one comparison chooses the entry and counts. (With `min` there are two, and
// a clean block under a folding of three ones takes 9 instructions in a hundred more.)
fn turn(from: &Table, to: &mut Table, start: usize, t: usize, a: usize, added: Entries) -> usize
    requires place { (a ≤ t) × Room start (t + 1) }
    requires sums_fit { (cell from.now (start + a) + added.zero < 2 ^ 32) × (cell from.now (start + (t - a)) + added.one < 2 ^ 32) }
    ensures { Turned from.now start t a added.zero added.one to.old to.new result }
{
    let x = entry(from, start, a) + added.zero;
    let y = entry(from, start, t - a) + added.one;
    let first = x < y;
    store(to, start, t, select_unpredictable(first, x, y));
    a + usize::from(first)
}

// The upper half of a lane. A row is its own mirror image: an entry and the one as far from the other end add up to one sum,
// since their patterns are each other's opposite. So the upper half is what is left of the lower half to that sum.
fn mirror(to: &mut Table, start: usize, m: usize, both: u32)
    requires room { Shaped to.old × Room start (m + m) }
    requires within_both { (i : ℕ) → i < m → cell to.old (start + i) ≤ both }
    ensures { Completed to.old start m both to.new m }
{
    for t in 0..m {
        store(to, start, m + m - 1 - t, both - entry(to, start, t));
    }
}

// Four lanes from `first` on, in each a row of m entries, and what the bits of its next slot add.
#[derive(Drop)]
pub(crate) struct FourLanes {
    pub(crate) first: usize,
    pub(crate) entries: usize,
    pub(crate) m: usize,
    pub(crate) added: [Entries; 4],
}

impl FourLanes {
    // Where lane k begins.
    fn start(&self, k: usize) -> usize
        requires { self.now.first + k * self.now.entries < 2 ^ 64 }
        ensures { result ≡ self.now.first + k * self.now.entries }
    {
        self.first + k * self.entries
    }

    // The lower halves of the rows with one slot more: in each lane the first m entries once with each bit's own added.
    fn merge(&self, from: &Table, to: &mut Table)
        requires { Lanes from.now self.now.first self.now.entries self.now.m self.now.added × Shaped to.old }
        ensures { Merged from.now self.now.first self.now.entries self.now.m self.now.added to.old to.new self.now.m }
    {
        let mut taken = [0; 4];
        for t in 0..self.m {
            for (k, a) in taken.iter_mut().enumerate() {
                *a = turn(from, to, self.start(k), t, *a, self.added[k]);
            }
        }
    }

    // The rows with one slot more, whole.
    pub(crate) fn double(&self, from: &Table, to: &mut Table)
        requires { Lanes from.now self.now.first self.now.entries self.now.m self.now.added × Shaped to.old }
        ensures { Merged from.now self.now.first self.now.entries self.now.m self.now.added to.old to.new (self.now.m + self.now.m) }
    {
        self.merge(from, to);
        for (k, own) in self.added.iter().enumerate() {
            let start = self.start(k);
            let both = entry(from, start, 0)
                + entry(from, start, self.m - 1)
                + (own.zero + own.one);
            mirror(to, start, self.m, both);
        }
    }
}
