// The least word by full listing: every permitted word is tried, in rising order.
ghost use Rattle.std.specs.Prelude.{◌≤◌, length};

use crate::rule;

// A word, its codeword, and the codeword's distance from the levels.
#[derive(Clone, Copy)]
pub(crate) struct Least {
    pub(crate) d: u64,
    pub(crate) x: u64,
    pub(crate) distance: u32,
}

impl Least {
    fn at(levels: &[i32], d: u64) -> Least
        requires { length levels.now ≤ 16 }
    {
        let x = rule::codeword(levels.len(), d);
        Least {
            d,
            x,
            distance: rule::distance(levels, x),
        }
    }
}

// The permitted word of least distance; among equals the smallest. A word with a one at a frozen index is not permitted; the
// listing starts from the word 0, which every mask permits.
pub(crate) fn least_word(levels: &[i32], frozen: u64) -> Least
    requires { length levels.now ≤ 16 }
{
    let mut best = Least::at(levels, 0);
    for d in 1..1 << levels.len() {
        if d & frozen == 0 {
            let tried = Least::at(levels, d);
            if tried.distance < best.distance {
                best = tried;
            }
        }
    }
    best
}
