// What a slot costs at each bit, for every level: the cost of the nearer bit, and what the farther bit costs more.
// No step branches on what was received but to choose one of two numbers.
ghost use Rattle.std.specs.Prelude.{◌≡◌, ◌*◌};
ghost use Rattle.rules.specs.Level.{slot_cost};
ghost use Rattle.laws.specs.Distance.Excess.{nearest, excess};

use crate::{Slot, magnitude};
use std::hint::select_unpredictable;

// The square of a number.
fn square(a: u32) -> u64
    ensures { result ≡ a * a }
{
    let wide = u64::from(a);
    wide * wide
}

// What a slot with that level costs.
pub fn slot(level: i32) -> Slot
    ensures { (result.nearest ≡ nearest level) × (result.zero ≡ excess level 0) × (result.one ≡ excess level 1) }
{
    let m = magnitude(level);
    Slot {
        nearest: square(m.abs_diff(256)),
        zero: select_unpredictable(0 < level, m, 0),
        one: select_unpredictable(level < 0, m, 0),
    }
}

// The cost of a bit.
pub(crate) fn bit_cost(level: i32, b: u32) -> u64
    ensures { result ≡ slot_cost level b }
{
    let s = slot(level);
    s.nearest + 1024 * u64::from(select_unpredictable(b == 0, s.zero, s.one))
}
