// Parts of lines put into a lent buffer from a place on: bytes, a number in decimal, hexadecimal digits. Each answers the place
// behind. A caller proves that the buffer has room.
// The buffer and the place stay two parameters. A struct that holds both has to promise in each of its methods, beside what is put,
// that it still lends the caller's buffer, and each caller makes it and takes it apart again: that is no plainer.
#![tactic(auto)]

ghost use Rattle.std.specs.Prelude.{◌≡◌, ◌++◌, ◌+◌, ◌≤◌, ◌<◌, length};
ghost use Rattle.rules.specs.Text as rules;
ghost use Rattle.text.specs.Puts.{Put};

// The byte of a digit.
fn digit(v: u64) -> u8
    requires { v < 16 }
    ensures { result ≡ rules.digit v }
{
    if v < 10 {
        b'0' + v as u8
    } else {
        b'a' + (v - 10) as u8
    }
}

// Bytes as they are.
#[tactic(auto, using(crate::proofs::Copied::put_copied))]
pub fn bytes(out: &mut [u8], at: usize, bytes: &[u8]) -> usize
    requires { at + length bytes.now ≤ length out.old }
    ensures { Put out.old at bytes.now result out.new }
{
    out[at..at + bytes.len()].copy_from_slice(bytes);
    at + bytes.len()
}

// A number in decimal: the digits before the last, then the last.
pub fn decimal(out: &mut [u8], at: usize, v: u64) -> usize
    requires { at + length (rules.decimal v) ≤ length out.old }
    ensures { Put out.old at (rules.decimal v) result out.new }
{
    if v < 10 {
        out[at] = digit(v);
        at + 1
    } else {
        let last = decimal(out, at, v / 10);
        out[last] = digit(v % 10);
        last + 1
    }
}

// A space and a number in decimal.
pub fn spaced(out: &mut [u8], at: usize, v: u64) -> usize
    requires { at + length (rules.space ++ rules.decimal v) ≤ length out.old }
    ensures { Put out.old at (rules.space ++ rules.decimal v) result out.new }
{
    let at = bytes(out, at, b" ");
    decimal(out, at, v)
}

// A number as 16 hexadecimal digits, the highest first.
pub fn hex(out: &mut [u8], at: usize, v: u64) -> usize
    requires { at + 16 ≤ length out.old }
    ensures { Put out.old at (rules.hex 16 v) result out.new }
{
    for i in 0..16 {
        out[at + i] = digit((v >> (60 - 4 * i)) % 16);
    }
    at + 16
}
