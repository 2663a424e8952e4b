// Decoding by the folded tree: the least word of received levels, under every folding.
#![tactic(auto)]

mod empty;
mod slot;

ghost use Rattle.std.specs.Prelude.{◌≡◌};
ghost use Rattle.rules.specs.Answers.{decode_answer};
ghost use Rattle.word.specs.Words.{word_of};
ghost use Rattle.tree.specs.Reading.{answer_of};
ghost use Rattle.tree.specs.Search.{Searchable, search_answer};

use groups::layout::Layout;
use refusal::Refusal;
use walk::Walk;
use word::Word;

// A finished decoding.
#[derive(Clone, Copy, Debug, PartialEq, Eq)]
pub struct Decoded {
    pub message: Word,
    pub d: Word,
    pub x: Word,
    pub distance: u32,
    pub visits: u32,
}

// The least word by the walk, for what refusals 1 to 6 have let pass; refusals 7, 8.
fn search(
    n: u32,
    levels: &[i32],
    frozen: Word,
    folding: u32,
    allowance: u32,
) -> Result<Decoded, Refusal>
    requires { Searchable n levels.now folding }
    ensures { answer_of result ≡ search_answer n levels.now (word_of frozen) folding allowance }
{
    let layout = Layout {
        tree: groups::folded(n, folding, allowance),
        index: groups::seat::seats(n, folding),
    };
    let tree = layout.tree;
    let shut = layout.shut(frozen);
    if let Some(level) = empty::first_empty(&shut, tree) {
        return Err(Refusal::NoCandidate(level));
    }
    let mut near = [0u64; word::SLOTS];
    let rows = slot::rows(levels, &layout, &mut near);
    let change = layout.changes();
    let walk = Walk {
        tree,
        covered: layout.covered(),
        shut,
        near,
    };
    let Some(end) = walk.walk(&rows, &change) else {
        return Err(Refusal::Allowance);
    };
    let d = end.word;
    let distance = end.distance as u32;
    let visits = end.visits as u32;
    Ok(Decoded {
        message: message::gather(n, frozen, d),
        d,
        x: matrix::map(d),
        distance,
        visits,
    })
}

// The message whose codeword is nearest to the levels, ties to the smallest information word; refusals 1 to 8.
// An n, a mask and a folding are any numbers until this call has tested them, so they stay parameters: a struct of untested ones would
// be taken apart again here.
pub fn decode(
    n: u32,
    levels: &[i32],
    frozen: Word,
    folding: u32,
    allowance: u32,
) -> Result<Decoded, Refusal>
    ensures { answer_of result ≡ decode_answer n levels.now (word_of frozen) folding allowance }
{
    if word::wrong_size(n) {
        return Err(Refusal::Size);
    }
    let slots = word::slots(n);
    if levels.len() != slots {
        return Err(Refusal::Length);
    }
    checks::folded(n, frozen, folding)?;
    if let Some(slot) = level::first_out_of_range(levels) {
        return Err(Refusal::Range(slot));
    }
    search(n, levels, frozen, folding, allowance)
}
