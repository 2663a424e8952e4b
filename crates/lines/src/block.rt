// A recorded block decoded: reading, then decoding its fields.
ghost use Rattle.std.specs.Prelude.{◌≡◌};
ghost use Rattle.rules.specs.Record.{record_answer};
ghost use Rattle.tree.specs.Reading.{answer_of};

use refusal::Refusal;
use tree::Decoded;

// What a record answers: 13, 1, 12, 3, 4, 5, 6, 7, 8, or the finished decoding.
pub fn decode(bytes: &[u8]) -> Result<Decoded, Refusal>
    ensures { answer_of result ≡ record_answer bytes.now }
{
    let fields = record::read(bytes)?;
    tree::decode(
        fields.n,
        &fields.levels[..word::slots(fields.n)],
        fields.mask,
        fields.folding,
        fields.allowance,
    )
}
