// Requests for a record: a request's fields from its 24 bytes, or the first refusal of 13, 1, 12, 3, 4, 5, 9; below, its record.
// A Request is plain data that a caller can make up, so writing its record refuses 1, 3, 4, 5, 9 itself.
#![tactic(auto)]

pub mod written;

ghost use Rattle.std.specs.Prelude.{◌≡◌};
ghost use Rattle.rules.specs.Refusals.{answer};
ghost use Rattle.rules.specs.Answers as rules;
ghost use Rattle.rules.specs.Request.{request_answer, write_order};
ghost use Rattle.word.specs.Words.{word_of};
ghost use Rattle.code.specs.Reading.{encoded_of};
ghost use Rattle.request.specs.Reading.{request_in, asked_of};

use code::{Code, Encoded};
use field::number;
use refusal::Refusal;
use word::Word;

pub const REQUEST_BYTES: usize = 24;

#[derive(Clone, Copy)]
pub struct Request {
    pub n: u32,
    pub folding: u32,
    pub allowance: u32,
    pub mask: Word,
    pub message: Word,
}

// The words of the request's message; refusals 1, 3, 4, 5, 9. It goes into its caller, as `read` does, which uses none of them.
#[inline(always)]
fn encoded(request: Request) -> Result<Encoded, Refusal>
    ensures { encoded_of result ≡ answer (write_order (request_in request)) (rules.encoded request.n (word_of request.mask) (word_of request.message)) }
{
    checks::folded(request.n, request.mask, request.folding)?;
    let code = Code {
        n: request.n,
        frozen: request.mask,
    };
    code::encode(code, request.message)
}

// The fields of a request, or why it is refused. Of a longer slice the first 24 bytes count.
#[inline(always)]
pub fn read(bytes: &[u8]) -> Result<Request, Refusal>
    ensures { asked_of result ≡ request_answer bytes.now }
{
    if bytes.len() < REQUEST_BYTES {
        return Err(Refusal::Short);
    }
    let n = number(bytes, 0, 1) as u32;
    if word::wrong_size(n) {
        return Err(Refusal::Size);
    }
    if number(bytes, 2, 2) != 0 {
        return Err(Refusal::NotZero);
    }
    let request = Request {
        n,
        folding: number(bytes, 1, 1) as u32,
        allowance: number(bytes, 4, 4) as u32,
        mask: Word::from(number(bytes, 8, 8)),
        message: Word::from(number(bytes, 16, 8)),
    };
    encoded(request)?;
    Ok(request)
}
