// What the slots of a block give, in seat order: what each bit costs more than the nearer one, and what the nearer bits of each
// group cost. The rest of a decoding goes by these numbers alone.
ghost use Rattle.std.specs.Prelude.{◌≡◌, ◌+◌, ◌*◌, ◌^◌, ◌<◌, length, get_or};
ghost use Rattle.rules.specs.Level.{level_at};
ghost use Rattle.rules.specs.Refusals.{largest};
ghost use Rattle.tree.specs.Slots.{Levelled, GroupGives, Gives, Ranked};

use groups::layout::Layout;
use rows::{Added, Seats, Table};

// The level at a seat.
fn seat_level(levels: &[i32], index: &[usize; word::SLOTS], seat: usize) -> i32
    requires { (seat < 2 ^ largest) × (get_or index.now seat 0 < length levels.now) }
    ensures { result ≡ level_at levels.now (get_or index.now seat 0) }
{
    let i = index[seat];
    levels[i]
}

// What the slots of the group give whose first seat is given: at each seat what each bit costs more, and what the nearer ones cost.
fn group_gives(
    levels: &[i32],
    index: &[usize; word::SLOTS],
    first: usize,
    size: usize,
    seats: &mut Seats,
) -> u64
    requires { Levelled levels.now index.now first size × (length seats.old ≡ 2 ^ largest) }
    ensures { GroupGives levels.now index.now first seats.old size seats.new result }
{
    let mut near = 0;
    for t in 0..size {
        let seat = first + t;
        let own = level::cost::slot(seat_level(levels, index, seat));
        seats[seat] = Added {
            zero: own.zero,
            one: own.one,
        };
        near += own.nearest;
    }
    near
}

// What all slots give.
fn gives(levels: &[i32], layout: &Layout, seats: &mut Seats, near: &mut [u64; word::SLOTS])
    requires levelled { Levelled levels.now layout.now.index 0 (layout.now.tree.groups * layout.now.tree.size) }
    requires long { (length seats.old ≡ 2 ^ largest) × (length near.old ≡ 2 ^ largest) }
    ensures { Gives levels.now layout.now.index layout.now.tree.groups layout.now.tree.size seats.new near.new }
{
    let size = layout.tree.size;
    for k in 0..layout.tree.groups {
        near[k] = group_gives(levels, &layout.index, k * size, size, seats);
    }
}

// The sorted rows of all groups by what their bits cost more than the nearer ones, and into the list what the nearer ones cost.
pub(crate) fn rows(levels: &[i32], layout: &Layout, near: &mut [u64; word::SLOTS]) -> Table
    requires { Levelled levels.now layout.now.index 0 (layout.now.tree.groups * layout.now.tree.size) × (length near.old ≡ 2 ^ largest) }
    ensures { Ranked levels.now layout.now.index layout.now.tree.groups layout.now.tree.size result near.new }
{
    let mut seats = [rows::NOTHING; word::SLOTS];
    gives(levels, layout, &mut seats, near);
    rows::rows(&seats, layout.tree.groups, layout.tree.size)
}
