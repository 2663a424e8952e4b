// The rows of the first slot, or of the first two: their entries in order, with no loop.
ghost use Rattle.std.specs.Prelude.{◌≡◌, ◌+◌, ◌^◌, ◌<◌, ◌≤◌, min, max};
ghost use Rattle.laws.specs.Rows.SortedRows.{row_of};
ghost use Rattle.rules.specs.Refusals.{largest};
ghost use Rattle.rows.specs.Adding.{Sized, adds};
ghost use Rattle.rows.specs.Cells.{Shaped, Room, InOrder, Placed, Filled};

use crate::table::store_row;
use crate::{Seats, Table};

// The smaller and the greater of two.
fn in_order(x: u32, y: u32) -> (u32, u32)
    ensures { (result.0 ≡ min x y) × (result.1 ≡ max x y) }
{
    (x.min(y), x.max(y))
}

// The entries of both bits of slot t, in the group whose first seat is given, in order.
fn slot_entries(seats: &Seats, first: usize, t: usize) -> (u32, u32)
    requires { (t < 2) × (first + t < 2 ^ largest) }
    ensures in_order { InOrder (adds seats.now first) t result.0 result.1 }
    ensures small { (result.0 < 2 ^ 29) × (result.1 < 2 ^ 29) }
{
    let own = seats[first + t].entries(t);
    in_order(own.zero, own.one)
}

// The row of one slot.
fn one_slot(seats: &Seats, first: usize) -> [u32; 2]
    requires { first + 1 ≤ 2 ^ largest }
    ensures { result ≡ row_of (adds seats.now first) 1 }
{
    let (low, high) = slot_entries(seats, first, 0);
    [low, high]
}

// The row of two slots: the sums of their entries. Only the two in the middle are not in order by themselves.
fn two_slots(seats: &Seats, first: usize) -> [u32; 4]
    requires { first + 2 ≤ 2 ^ largest }
    ensures { result ≡ row_of (adds seats.now first) 2 }
{
    let (low, high) = slot_entries(seats, first, 0);
    let (next_low, next_high) = slot_entries(seats, first, 1);
    let (left, right) = in_order(high + next_low, low + next_high);
    [low + next_low, left, right, high + next_high]
}

// The row of a group's first slots: of its one, or else of two.
fn first_row(table: &mut Table, start: usize, seats: &Seats, first: usize, size: usize)
    requires room { Shaped table.old × Room start (2 ^ min size 2) }
    requires seats { (1 ≤ size) × (first + size ≤ 2 ^ largest) }
    ensures { Placed table.old start (row_of (adds seats.now first) (min size 2)) table.new }
{
    if size == 1 {
        store_row(table, start, &one_slot(seats, first));
        return;
    }
    store_row(table, start, &two_slots(seats, first));
}

// Those rows for the groups from `group` to before `last`.
pub(crate) fn first_rows(table: &mut Table, seats: &Seats, group: usize, last: usize, size: usize)
    requires { Shaped table.old × Sized last size × (group ≤ last) }
    ensures { Filled seats.now size (min size 2) group last table.old table.new }
{
    let entries: usize = 1 << size;
    for k in group..last {
        first_row(table, k * entries, seats, k * size, size);
    }
}
