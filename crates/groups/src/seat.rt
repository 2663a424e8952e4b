// Seats: the indices ordered group after group, each group's indices rising.
ghost use Rattle.std.specs.Prelude.{◌≡◌, ℕ, ◌+◌, ◌*◌, ◌^◌, ◌≤◌, ◌<◌, take};
ghost use Rattle.rules.specs.Below.{count_below};
ghost use Rattle.rules.specs.Refusals.{largest};
ghost use Rattle.laws.specs.Seats.Seats as laws;
ghost use Rattle.groups.specs.Seating.{AtMost, WidensBy, Seated};

use crate::doubling::double;

// The first m indices widened by each bit of the folding below n that has the value wanted, and how many there are then.
// Widened by a bit, a list has its indices once more behind them, each with the bit added.
fn widen_by(index: &mut [usize], m: usize, n: u32, folding: u32, wanted: u32) -> usize
    requires { WidensBy index.old m n folding wanted }
    ensures many { result ≡ m * 2 ^ count_below n (laws.has_bit folding wanted) }
    ensures widened { take result index.new ≡ laws.widened_by (laws.has_bit folding wanted) n (take m index.old) }
    ensures small { (c : ℕ) → AtMost index.old m c → AtMost index.new result (c + 2 ^ largest * n) }
{
    let mut many = m;
    for b in 0..n {
        if (folding >> b) % 2 == wanted {
            let bit: usize = 1 << b;
            double(index, many, |i: usize| i + bit);
            many = many * 2;
        }
    }
    many
}

// The index at each seat.
pub fn seats(n: u32, folding: u32) -> [usize; word::SLOTS]
    requires { (n ≤ largest) × (folding < 2 ^ n) }
    ensures { Seated result n folding }
{
    let mut index = [0usize; word::SLOTS];
    let inside = widen_by(&mut index, 1, n, folding, 1);
    widen_by(&mut index, inside, n, folding, 0);
    index
}
