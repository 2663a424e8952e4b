// The functions of words: bits, sums, the map, messages, counts, sizes, and words moved up and copied.
ghost use Rattle.std.specs.Prelude.{◌≡◌, true};
ghost use Rattle.rules.specs.Refusals.{largest};
ghost use Rattle.rules.specs.Word.{bit};
ghost use Rattle.laws.specs.Code.Disjoint.{Disjoint};
ghost use Rattle.word.specs.Words.{word_of};

use crate::arrow::shown;
use crate::line::Line;
use std::io;
use std::io::Write;
use word::Word;

fn came(to: &mut impl Write, w: Word) -> io::Result<()> {
    write!(to, " -> 0x{:x}", u64::from(w))
}

fn said(to: &mut impl Write, yes: bool) -> io::Result<()> {
    if yes {
        write!(to, " -> yes")
    } else {
        write!(to, " -> no")
    }
}

fn fewest_ones(to: &mut impl Write, n: u32, frozen: Word) -> io::Result<()> {
    match word::count::fewest_ones(n, frozen) {
        Some(ones) => shown(to, ones),
        None => write!(to, " -> none"),
    }
}

// Whether the word has no one at index i, or one is right there.
fn right_at(w: Word, i: usize, right: bool) -> bool
    ensures { result ≡ true → bit (word_of w) i ≡ 1 → right ≡ true }
{
    w.bit(i) == 0 || right
}

// Whether every index of a one of w has none of the set's bits, and every index of a one of b no other.
fn apart(w: u64, b: u64, own: usize) -> bool
    ensures { result ≡ true → Disjoint largest w b }
{
    for i in 0..word::SLOTS {
        let common = i & own;
        if !right_at(Word::from(w), i, common == 0) || !right_at(Word::from(b), i, common == i) {
            return false;
        }
    }
    true
}

// The one call that asks something of its caller: the ones of both words must lie in disjoint index bits.
fn copies(to: &mut impl Write, w: u64, b: u64, own: usize) -> io::Result<()> {
    if apart(w, b, own) {
        came(to, Word::from(w).copies(Word::from(b)))
    } else {
        write!(to, " -> none")
    }
}

// A call by its name, with the numbers of its line as words; the first of them as an n too, the second as an index, and the third
// as a set of index bits. A line with any other name is taken for copies.
pub(crate) fn answer(to: &mut impl Write, line: Line<'_>) -> io::Result<()> {
    let n = line.small(0);
    let i = line.number(1) as usize;
    let own = line.number(2) as usize;
    let [a, b, c] = [0, 1, 2].map(|i| Word::from(line.number(i)));
    match line.name() {
        b"bit" => shown(to, a.bit(i)),
        b"reaches" => said(to, a.reaches(i)),
        b"xor" => came(to, a ^ b),
        b"common" => came(to, a & b),
        b"less" => said(to, a.less(b)),
        b"map" => came(to, matrix::map(a)),
        b"spread" => came(to, message::spread(n, b, c)),
        b"gather" => came(to, message::gather(n, b, c)),
        b"ones" => shown(to, a.ones()),
        b"folding_size" => shown(to, word::count::folding_size(n)),
        b"unfrozen" => shown(to, word::count::unfrozen(n, b)),
        b"fewest_ones" => fewest_ones(to, n, b),
        b"slots" => shown(to, word::slots(n)),
        b"wrong_size" => said(to, word::wrong_size(n)),
        b"above" => came(to, a.above(i)),
        _ => copies(to, a.into(), b.into(), own),
    }
}
