// One case: decode's answer beside the full listing's.
ghost use Rattle.std.specs.Prelude.{◌<◌, ◌≤◌};

use crate::{least, levels, rule};
use std::fmt;
use word::Word;

// Greater than the number of visits of every walk here.
const ALLOWANCE: u32 = 4294967295;

// The number of slots.
fn slots(n: u32) -> usize
    requires { n ≤ 4 }
    ensures { result ≤ 16 }
{
    1 << n
}

// A size, a folding, a mask, and a block of levels by its number.
#[derive(Clone, Copy)]
pub(crate) struct Case {
    pub(crate) n: u32,
    pub(crate) folding: u32,
    pub(crate) mask: u64,
    pub(crate) block: u64,
}

impl fmt::Display for Case {
    fn fmt<W: fmt::Write>(&self, f: &mut fmt::Formatter<W>) -> fmt::Result {
        write!(f, "n={} folding={}", self.n, self.folding)?;
        write!(f, " mask=0x{:x} block={}", self.mask, self.block)
    }
}

impl Case {
    // Whether decode finds the listing's words and distance.
    pub(crate) fn agrees(self) -> bool
        requires { (self.n ≤ 4) × (self.block < 65536) }
    {
        let levels = levels::block(self.block);
        let levels = &levels[..slots(self.n)];
        let wanted = least::least_word(levels, self.mask);
        let message = rule::message(levels.len(), self.mask, wanted.d);
        tree::decode(
            self.n,
            levels,
            Word::from(self.mask),
            self.folding,
            ALLOWANCE,
        )
        .is_ok_and(|found| {
            u64::from(found.message) == message
                && u64::from(found.d) == wanted.d
                && u64::from(found.x) == wanted.x
                && found.distance == wanted.distance
        })
    }
}
