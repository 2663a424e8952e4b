// Numbers in bytes, the lowest byte first, as the fields of records and requests are: read from a place on, and put into a lent
// buffer from a place on, which answers the place behind. A caller proves that the bytes are there.
#![tactic(auto)]

ghost use Rattle.std.specs.Prelude.{◌≡◌, ◌+◌, ◌^◌, ◌≤◌, ◌<◌, length};
ghost use Rattle.rules.specs.Record.{number_at};
ghost use Rattle.rules.specs.Request.{bytes_of};
ghost use Rattle.text.specs.Puts.{Put};

// The number in so many bytes from a place on as the field is wide, at most eight of them.
pub fn number(bytes: &[u8], place: usize, width: usize) -> u64
    requires there { place + width ≤ length bytes.now }
    requires narrow { width ≤ 8 }
    ensures value { result ≡ number_at bytes.now place width }
    ensures small { result < 256 ^ width }
{
    let mut number = 0;
    for i in 0..width {
        number += u64::from(bytes[place + i]) << (8 * i);
    }
    number
}

// The lowest bytes of a number, so many as the field is wide. The buffer and the place stay two parameters, as in `text`, which says
// why.
pub fn put(out: &mut [u8], at: usize, width: usize, v: u64) -> usize
    requires { at + width ≤ length out.old }
    ensures { Put out.old at (bytes_of width v) result out.new }
{
    let mut rest = v;
    for place in at..at + width {
        out[place] = (rest % 256) as u8;
        rest /= 256;
    }
    at + width
}
