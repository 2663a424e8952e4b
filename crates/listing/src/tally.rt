// The cases of a size: every folding, under it every mask of the size or a sample of them, and eight blocks for each mask.
ghost use Rattle.std.specs.Prelude.{◌≡◌, ◌*◌, ◌≤◌, ◌<◌};

use crate::case::Case;
use crate::levels;
use std::fmt;
use std::io::Write;
use std::ops::Add;

// How many cases were compared, and how many of them differ.
#[derive(Clone, Copy, Default)]
pub(crate) struct Tally {
    compared: u64,
    different: u64,
}

impl Add for Tally {
    ghost use Rattle.std.specs.Prelude.{◌+◌, ◌^◌};

    type Output = Tally;

    ghost can_add = { λ a b. (a.compared + b.compared < 2 ^ 64) × (a.different + b.different < 2 ^ 64) };

    ghost add_gives = { λ a b r. (r.compared ≡ a.compared + b.compared) × (r.different ≡ a.different + b.different) };

    fn add(self, other: Tally) -> Tally {
        Tally {
            compared: self.compared + other.compared,
            different: self.different + other.different,
        }
    }
}

// Behind what the line begins with.
impl fmt::Display for Tally {
    fn fmt<W: fmt::Write>(&self, f: &mut fmt::Formatter<W>) -> fmt::Result {
        write!(
            f,
            " compared={} different={}",
            self.compared, self.different
        )
    }
}

// Blocks of levels for each mask.
const BLOCKS: u64 = 8;

// A mask by its number: the number itself for n = 1, 2, 3, and a sampled one for n = 4.
fn mask(n: u32, number: u64) -> u64
    requires { number < 65536 }
{
    if n < 4 { number } else { levels::mask(number) }
}

// Every mask and block under one folding, all of them compared, and a line for each case that differs.
fn folded(to: &mut impl Write, n: u32, folding: u32, masks: u64) -> Tally
    requires small { n ≤ 4 }
    requires few { masks ≤ 256 }
    ensures { (result.compared ≡ masks * 8) × (result.different ≤ 2048) }
{
    let mut different = 0;
    for block in 0..masks * BLOCKS {
        let case = Case {
            n,
            folding,
            mask: mask(n, block / BLOCKS),
            block,
        };
        if !case.agrees() {
            let _ = writeln!(to, "differs: {case}");
            different += 1;
        }
    }
    Tally {
        compared: masks * BLOCKS,
        different,
    }
}

// The same with its line, for a folding of three ones at most; no folding has more.
fn permitted(to: &mut impl Write, n: u32, folding: u32, masks: u64) -> Tally
    requires small { n ≤ 4 }
    requires few { masks ≤ 256 }
    ensures { (result.compared ≤ 2048) × (result.different ≤ 2048) }
{
    if folding.count_ones() > 3 {
        return Tally::default();
    }
    let tally = folded(to, n, folding, masks);
    let _ = writeln!(to, "n={n} folding={folding}{tally}");
    tally
}

// Every folding of a size, 0 to 2^n - 1.
pub(crate) fn size(to: &mut impl Write, n: u32, masks: u64) -> Tally
    requires small { n ≤ 4 }
    requires few { masks ≤ 256 }
    ensures { (result.compared ≤ 32768) × (result.different ≤ 32768) }
{
    let mut total = Tally::default();
    for folding in 0..1 << n {
        total = total + permitted(to, n, folding, masks);
    }
    total
}
