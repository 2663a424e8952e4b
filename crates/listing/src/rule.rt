// Document 01's rules of words and distance, straight from its sentences, for words of up to 16 bits.
ghost use Rattle.std.specs.Prelude.{◌+◌, ◌*◌, ◌<◌, ◌≤◌, nat_abs, length};
ghost use Rattle.rules.specs.Level.{limit};

use level::LIMIT;

// Bit i of a word.
fn bit(w: u64, i: usize) -> u64
    requires { i < 16 }
    ensures { result < 2 }
{
    (w >> i) % 2
}

// d_j where every one bit of i is also one in j, and 0 elsewhere.
fn term(d: u64, i: usize, j: usize) -> u64
    requires { j < 16 }
    ensures { result < 2 }
{
    if i & j == i { bit(d, j) } else { 0 }
}

// x_i: the sum modulo 2 of all d_j such that every one bit of i is also one in j.
fn code_bit(slots: usize, d: u64, i: usize) -> u64
    requires { slots ≤ 16 }
{
    let mut sum = 0;
    for j in 0..slots {
        sum += term(d, i, j);
    }
    sum % 2
}

// The codeword of an information word.
pub(crate) fn codeword(slots: usize, d: u64) -> u64
    requires { slots ≤ 16 }
{
    let mut x = 0;
    for i in 0..slots {
        x |= code_bit(slots, d, i) << i;
    }
    x
}

// The ideal level of a bit: +256 of bit 1, -256 of bit 0.
fn ideal(b: u64) -> i32
    ensures { nat_abs result ≤ 256 }
{
    if b == 1 { 256 } else { -256 }
}

// (level - ideal)², for a level in range.
fn part(level: i32, ideal: i32) -> u32
    requires { nat_abs ideal ≤ 256 }
    ensures { result ≤ (limit + 256) * (limit + 256) }
{
    if level.unsigned_abs() > LIMIT.unsigned_abs() {
        return 0;
    }
    let gap = level.abs_diff(ideal);
    gap * gap
}

// The sum over slots of (level - ideal)².
pub(crate) fn distance(levels: &[i32], x: u64) -> u32
    requires { length levels.now ≤ 16 }
{
    let mut sum = 0;
    for (i, level) in levels.iter().enumerate() {
        sum += part(*level, ideal(bit(x, i)));
    }
    sum
}

// The message of an information word: bit 0 is at the smallest unfrozen index, bit 1 at the next, and so on.
pub(crate) fn message(slots: usize, frozen: u64, d: u64) -> u64
    requires { slots ≤ 16 }
{
    let mut message = 0;
    for i in (0..slots).rev() {
        if bit(frozen, i) == 0 {
            message = message << 1 | bit(d, i);
        }
    }
    message
}
