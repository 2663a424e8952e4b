// The matrix map: a byte by the table of all 256 transformed bytes, a word by halves.
#![tactic(auto)]

mod table;

ghost use Rattle.std.specs.Prelude.{◌≡◌, ◌+◌, ◌^◌, ◌<◌};
ghost use Rattle.rules.specs.Word.{codeword};
ghost use Rattle.rules.specs.Refusals.{largest};
ghost use Rattle.word.specs.Words.{word_of};
ghost use Rattle.matrix.specs.Bytes.{byte_words};
ghost use Rattle.matrix.specs.Halves.{Maps};

use crate::table::BYTES;
use word::Word;

// The codewords of all bytes, at n = 3.
fn bytes() -> &'static [u8; 256]
    ensures { result.now ≡ byte_words }
{
    BYTES
}

// The codeword of a byte, at n = 3.
fn byte(b: u64) -> u64
    requires { b < 2 ^ 2 ^ 3 }
    ensures { result ≡ codeword 3 b }
{
    bytes()[b as usize] as u64
}

// The codeword of a word whose halves `map` maps at n: the upper half's codeword, and below it that of the sum of both halves.
// The halves' map is a closure and no call of this function itself, which would cost three in a hundred of a clean decoding.
fn by_halves<F: Fn(u64) -> u64>(n: u32, map: F, w: u64) -> u64
    requires small { n < largest }
    requires maps { Maps (F.pre map) (F.post map) n }
    requires fits { w < 2 ^ 2 ^ (n + 1) }
    ensures { result ≡ codeword (n + 1) w }
{
    let half = 1u32 << n;
    let upper = w >> half;
    let lower = w % (1 << half);
    (map(upper) << half) + map(lower ^ upper)
}

// The codeword of an information word, at the largest n, which serves every n.
pub fn map(w: Word) -> Word
    ensures { word_of result ≡ codeword largest (word_of w) }
{
    // The words of two bytes, and below those of four.
    let pair = |w: u64|
        requires { w < 2 ^ 2 ^ 4 }
        ensures { result ≡ codeword 4 w }
    { by_halves(3, byte, w) };
    let quad = |w: u64|
        requires { w < 2 ^ 2 ^ 5 }
        ensures { result ≡ codeword 5 w }
    { by_halves(4, pair, w) };
    Word::from(by_halves(5, quad, u64::from(w)))
}
