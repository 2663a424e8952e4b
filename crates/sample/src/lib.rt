// The level of a sample: NaN and infinities told apart, a large magnitude clipped first, the whole number nearest to the scaled
// sample worked out from its bits, and the clip.
#![tactic(auto)]

ghost use Rattle.std.specs.Prelude.{◌≡◌, ◌<◌, T};
ghost use Rattle.std.specs.Float.Ieee.Scale.{finite};
ghost use Rattle.rules.specs.Sample.{nearest_whole};
ghost use Rattle.rules.specs.Answers.{level_answer};
ghost use Rattle.sample.specs.Steps.{within, whole_of, Near, quantised_of};

use std::cmp::Ordering;

// How many levels one unit of light has.
const SCALE: f32 = 256.0;

// Every sample past this magnitude has a level past the limit: 8 times SCALE is 2048.
const FAR: f32 = 8.0;

// A large magnitude clipped first, at FAR.
fn near(s: f32) -> f32
    requires { T (finite s) }
    ensures { Near 8 s result }
{
    s.clamp(-FAR, FAR)
}

// The whole number nearest to a / b, an exact half going to the even neighbour.
fn nearest_whole(a: u32, b: u32) -> u32
    requires { (a < 4294967295) × (0 < b) }
    ensures { result ≡ nearest_whole a b }
{
    let whole = a / b;
    let rest = a % b;
    match rest.cmp(&(b - rest)) {
        Ordering::Less => whole,
        Ordering::Equal => whole + whole % 2,
        Ordering::Greater => whole + 1,
    }
}

// The whole number nearest to the magnitude of x, from the bits of x. An exponent below 126 is a magnitude below 1/2; else
// the 24 digits are divided by two to the number of digits behind the point.
fn nearest(x: f32) -> u32
    requires { T (within 2048 x) }
    ensures { result ≡ whole_of x }
{
    let bits = x.to_bits();
    let exponent = bits >> 23 & 0xff;
    if exponent < 126 {
        return 0;
    }
    let digits = 0x80_0000 + (bits & 0x7f_ffff);
    nearest_whole(digits, 1u32 << (150 - exponent))
}

// The level of a sample; none, which is refusal 11, for NaN and the infinities.
pub fn level(s: f32) -> Option<i32>
    ensures { quantised_of result ≡ level_answer s }
{
    if !s.is_finite() {
        return None;
    }
    let x = near(s);
    let size = level::clipped(nearest(x * SCALE));
    Some(if x < 0.0 { -size } else { size })
}
