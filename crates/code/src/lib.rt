// Codes: an n with a frozen mask. The constructor, the guard, and encoding to words or to ideal levels.
// A Code is plain data that a caller can make up, so every function that takes one refuses 1 and 3 itself.
#![tactic(auto)]

pub mod levels;

ghost use Rattle.std.specs.Prelude.{◌≡◌};
ghost use Rattle.rules.specs.Answers.{encode_answer, guard_answer};
ghost use Rattle.word.specs.Words.{word_of};
ghost use Rattle.code.specs.Reading.{code_of, made_of, guarded_of, encoded_of};
ghost use Rattle.code.specs.Made.{made_answer, reed_muller};

use refusal::Refusal;
use word::Word;

#[derive(Clone, Copy, Debug, PartialEq, Eq)]
pub struct Code {
    pub n: u32,
    pub frozen: Word,
}

// The information word and the codeword of a message.
#[derive(Clone, Copy, Debug, PartialEq, Eq)]
pub struct Encoded {
    pub d: Word,
    pub x: Word,
}

impl Code {
    // The frozen mask of RM(64,57), at n = 6, as a number.
    pub const RM_64_57: u64 = 0x0000000100010117;

    // RM(64,57).
    pub fn reed_muller() -> Code
        ensures { code_of result ≡ reed_muller }
    {
        Code {
            n: 6,
            frozen: Word::from(Code::RM_64_57),
        }
    }

    // The code of an n and a mask; refusals 1, 3.
    pub fn new(n: u32, frozen: Word) -> Result<Code, Refusal>
        ensures { made_of result ≡ made_answer n (word_of frozen) }
    {
        checks::code(n, frozen)?;
        Ok(Code { n, frozen })
    }

    // The guard of the code's mask, none for K = 0; refusals 1, 3.
    pub fn guard(self) -> Result<Option<u32>, Refusal>
        ensures { guarded_of result ≡ guard_answer self.n (word_of self.frozen) }
    {
        checks::code(self.n, self.frozen)?;
        let fewest = word::count::fewest_ones(self.n, self.frozen);
        Ok(fewest.map(|w| 256 << w))
    }
}

// The words of a message; refusals 1, 3, 9. It goes into its caller, so that words which a caller does not use are not worked out.
#[inline(always)]
pub fn encode(code: Code, message: Word) -> Result<Encoded, Refusal>
    ensures { encoded_of result ≡ encode_answer code.n (word_of code.frozen) (word_of message) }
{
    let n = code.n;
    let frozen = code.frozen;
    checks::code(n, frozen)?;
    if message.reaches(word::count::unfrozen(n, frozen)) {
        return Err(Refusal::Message);
    }
    let d = message::spread(n, frozen, message);
    Ok(Encoded {
        d,
        x: matrix::map(d),
    })
}
