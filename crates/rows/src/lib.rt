// Sorted rows: of each group of slots every pattern of bits with what these add up to, in order.
// An entry is the sum times 256 plus the pattern, so that the order of numbers is that of sums, and of patterns among equal
// sums. The rows stand one after the other in a table of rows of 256 entries.
#![tactic(auto)]

mod first;
mod lanes;
mod seat;
mod table;

ghost use Rattle.std.specs.Prelude.{suc, ◌+◌, ◌<◌};
ghost use Rattle.rows.specs.Adding.{Sized, RowsRight};
ghost use Rattle.rows.specs.Cells.{Shaped, Built, Filled};

use crate::first::first_rows;
use crate::lanes::FourLanes;
pub use crate::seat::Added;
use crate::seat::Entries;

// How many seats the groups of the largest block have together.
pub const SEATS: usize = 64;

// What the bits of a slot add, at each seat.
pub type Seats = [Added; SEATS];

// A slot that adds nothing.
pub const NOTHING: Added = Added { zero: 0, one: 0 };

// How many rows a table has: one for each eight seats.
pub const ROWS: usize = 8;

// The rows of all groups, one after the other.
pub type Table = [[u32; 256]; ROWS];

// From the rows of the first t slots of four groups, those with slot t.
// The seats and the size of a group go along as two parameters: a struct of a lent list and a number has no method of its own here.
fn add_slots(from: &Table, to: &mut Table, group: usize, size: usize, t: usize, seats: &Seats)
    requires slots { (t < size) × Sized (group + 4) size }
    requires tables { Shaped to.old × Built seats.now size t group (group + 4) from.now }
    ensures { Filled seats.now size (suc t) group (group + 4) to.old to.new }
{
    // A loop and no `from_fn`, whose closure would have to ask for the bounds of k, t and the groups once more.
    let mut added = [Entries { zero: 0, one: 0 }; 4];
    for (k, own) in added.iter_mut().enumerate() {
        let seat = (group + k) * size + t;
        *own = seats[seat].entries(t);
    }
    let entries: usize = 1 << size;
    let lanes = FourLanes {
        first: group * entries,
        entries,
        m: 1 << t,
        added,
    };
    lanes.double(from, to);
}

// The rows of four groups. The first two slots at once, then two a turn: from the table to the spare one and back.
fn four_rows(table: &mut Table, spare: &mut Table, group: usize, size: usize, seats: &Seats)
    requires slots { (2 < size) × Sized (group + 4) size }
    requires tables { Shaped table.old × Shaped spare.old }
    ensures spare { Shaped spare.new }
    ensures rows { Filled seats.now size size group (group + 4) table.old table.new }
{
    first_rows(table, seats, group, group + 4, size);
    for t in (2..size).step_by(2) {
        add_slots(table, spare, group, size, t, seats);
        add_slots(spare, table, group, size, t + 1, seats);
    }
}

// The rows of all groups. Those of more than two slots four at a time; where fewer than four are left, the other lanes are
// built of what the seats behind them have.
pub fn rows(seats: &Seats, groups: usize, size: usize) -> Table
    requires { Sized groups size }
    ensures { RowsRight seats.now groups size result }
{
    let mut table = [[0u32; 256]; ROWS];
    if size <= 2 {
        first_rows(&mut table, seats, 0, groups, size);
        return table;
    }
    let mut spare = [[0u32; 256]; ROWS];
    for k in (0..groups).step_by(4) {
        four_rows(&mut table, &mut spare, k, size, seats);
    }
    table
}
