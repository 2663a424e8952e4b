// Messages: to an information word and back, bit by bit over the unfrozen indices.
#![tactic(auto)]

ghost use Rattle.std.specs.Prelude.{Bool, ◌≡◌, ◌*◌, ◌^◌, ◌<◌};
ghost use Rattle.rules.specs.Refusals.{largest};
ghost use Rattle.rules.specs.Word as rules;
ghost use Rattle.word.specs.Words.{word_of, size_of};
ghost use Rattle.message.specs.Ends.{Goes, turned_word};

use word::Word;

// A bit moved to index i.
fn moved(b: u32, i: usize) -> u64
    requires { (b < 2) × (i < 2 ^ largest) }
    ensures { result ≡ b * 2 ^ i }
{
    u64::from(b) << i
}

// A word's bits over the unfrozen indices in turn. Of each index's place among them and the index, `ends` says from where its bit
// comes and where it goes: from the place to the index, or from the index to the place.
fn turned<F: Fn(usize, usize) -> (usize, usize)>(n: u32, frozen: Word, w: Word, ends: F) -> Word
    requires callable { F.IsAlwaysCallable ends }
    requires way { (packs : Bool) × Goes (F.post ends) packs }
    ensures { (packs : Bool) → Goes (F.post ends) packs → word_of result ≡ turned_word packs (size_of n) (word_of frozen) (word_of w) }
{
    let mut r: u64 = 0;
    // The place is counted here and not by an enumerate over a filter of the indices: what has been moved is said up to each index,
    // frozen ones too, and a loop over all of them says it at each.
    let mut place = 0;
    for i in 0..word::slots(n) {
        if frozen.bit(i) == 0 {
            let (from, to) = ends(place, i);
            r += moved(w.bit(from), to);
            place += 1;
        }
    }
    Word::from(r)
}

// The information word of a message: its bits at the unfrozen indices in turn.
pub fn spread(n: u32, frozen: Word, message: Word) -> Word
    ensures { word_of result ≡ rules.spread (size_of n) (word_of frozen) (word_of message) }
{
    turned(n, frozen, message, |place, index| (place, index))
}

// The message of an information word: its bits at the unfrozen indices in turn.
pub fn gather(n: u32, frozen: Word, d: Word) -> Word
    ensures { word_of result ≡ rules.gather (size_of n) (word_of frozen) (word_of d) }
{
    turned(n, frozen, d, |place, index| (index, place))
}
