// The tests of a code and of a folding, said once for every call that begins with them.
#![tactic(auto)]

ghost use Rattle.std.specs.Prelude.{◌≡◌};
ghost use Rattle.word.specs.Words.{word_of};
ghost use Rattle.checks.specs.Verdicts.{verdict_of, code_verdict, folded_verdict};

use refusal::Refusal;
use word::Word;

// Whether an n and a mask are a code; refusals 1, 3.
pub fn code(n: u32, frozen: Word) -> Result<(), Refusal>
    ensures { verdict_of result ≡ code_verdict n (word_of frozen) }
{
    if word::wrong_size(n) {
        return Err(Refusal::Size);
    }
    if frozen.reaches(word::slots(n)) {
        return Err(Refusal::Mask);
    }
    Ok(())
}

// Whether an n and a mask are a code and the folding is one of it; refusals 1, 3, 4, 5.
pub fn folded(n: u32, frozen: Word, folding: u32) -> Result<(), Refusal>
    ensures { verdict_of result ≡ folded_verdict n (word_of frozen) folding }
{
    code(n, frozen)?;
    if (1 << n) <= folding {
        return Err(Refusal::Folding);
    }
    if 3 < word::count::folding_size(folding) {
        return Err(Refusal::WideFolding);
    }
    Ok(())
}
