// Encoding to ideal levels in a lent slice: a level for each slot, slot i first to last.
ghost use Rattle.std.specs.Prelude.{◌≡◌, ℕ, ◌^◌, length};
ghost use Rattle.rules.specs.Level as rules;
ghost use Rattle.rules.specs.Answers.{encode_levels_answer, encode_levels_left};
ghost use Rattle.word.specs.Words.{word_of};
ghost use Rattle.code.specs.Reading.{encoded_of};

use crate::{Code, Encoded};
use refusal::Refusal;
use word::Word;

// The ideal level of the codeword's bit i, written to each slot i: a slice of N then holds its ideal levels.
fn fill(x: Word, levels: &mut [i32])
    ensures { (k : ℕ) → length levels.old ≡ 2 ^ k → levels.new ≡ rules.ideal_levels k (word_of x) }
{
    for (i, z) in levels.iter_mut().enumerate() {
        *z = level::ideal(x.bit(i));
    }
}

// The words of a message, and the ideal levels of its codeword in a slice of N; refusals 1, 2, 3, 9 leave the slice as it was.
pub fn encode_levels(code: Code, message: Word, levels: &mut [i32]) -> Result<Encoded, Refusal>
    ensures answer { encoded_of result ≡ encode_levels_answer code.n levels.old (word_of code.frozen) (word_of message) }
    ensures left { levels.new ≡ encode_levels_left code.n levels.old (word_of code.frozen) (word_of message) }
{
    let n = code.n;
    if word::wrong_size(n) {
        return Err(Refusal::Size);
    }
    if levels.len() != word::slots(n) {
        return Err(Refusal::Length);
    }
    let encoded = crate::encode(code, message)?;
    fill(encoded.x, levels);
    Ok(encoded)
}
