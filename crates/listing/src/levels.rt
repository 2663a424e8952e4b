// Blocks of levels and sampled masks, from a small generator: the same numbers in every run.
ghost use Rattle.std.specs.Prelude.{◌<◌};

use level::LIMIT;

// The next state of the generator.
fn next(state: u64) -> u64
    requires { state < 2147483648 }
    ensures { result < 2147483648 }
{
    (state * 1103515245 + 12345) % 2147483648
}

// A level by a number; the first three make the most ties.
fn level(number: u64) -> i32 {
    match number {
        0 => 0,
        1 => -256,
        2 => 256,
        3 => 255,
        4 => -255,
        5 => LIMIT,
        _ => -LIMIT,
    }
}

// A level for a block from the generator's state: 0 in every eighth block, 0 and the ideal levels in three of eight, and in the
// other four also levels beside and beyond them.
fn drawn(number: u64, state: u64) -> i32 {
    match number % 8 {
        0 => 0,
        1 | 2 | 3 => level(state / 65536 % 3),
        _ => level(state / 65536 % 7),
    }
}

// A block of levels by a number.
pub(crate) fn block(number: u64) -> [i32; 16]
    requires { number < 65536 }
{
    let mut levels = [0; 16];
    let mut state = number;
    for level in &mut levels {
        state = next(state);
        *level = drawn(number, state);
    }
    levels
}

// A mask of 16 indices by a number, with ten unfrozen indices at most: one that freezes fewer than six is turned over.
pub(crate) fn mask(number: u64) -> u64
    requires { number < 65536 }
{
    let mask = next(next(number)) / 4096 % 65536;
    if mask.count_ones() < 6 {
        return 65535 - mask;
    }
    mask
}
