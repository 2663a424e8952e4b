// A request read, which is that of document 01's first record with up to four bytes changed; and the record of any request
// written into a lent buffer.
ghost use Rattle.std.specs.Prelude.{◌≤◌, length};

use crate::arrow::refused;
use crate::line::Line;
use crate::{buffers, given};
use request::Request;
use request::written::NotWritten;
use std::io;
use std::io::Write;
use word::Word;

fn fields(to: &mut impl Write, request: Request) -> io::Result<()> {
    write!(to, " -> n={} folding=0x{:x}", request.n, request.folding)?;
    let mask = u64::from(request.mask);
    let message = u64::from(request.message);
    write!(
        to,
        " allowance={} mask=0x{mask:x} message={message}",
        request.allowance
    )
}

fn read_of(to: &mut impl Write, bytes: &[u8]) -> io::Result<()> {
    match request::read(bytes) {
        Ok(request) => fields(to, request),
        Err(refusal) => refused(to, refusal),
    }
}

// Number 0 of the line is how many bytes of the request are given.
pub(crate) fn read(to: &mut impl Write, line: Line<'_>) -> io::Result<()> {
    match given::changed_request(line).get(..line.number(0) as usize) {
        Some(bytes) => read_of(to, bytes),
        None => Ok(()),
    }
}

// The request of a line, by its fields.
fn given(line: Line<'_>) -> Request {
    Request {
        n: line.small(0),
        folding: line.small(1),
        allowance: line.small(2),
        mask: Word::from(line.number(3)),
        message: Word::from(line.number(4)),
    }
}

// The record in front of the buffer.
fn wrote(to: &mut impl Write, out: &[u8]) -> io::Result<()>
    requires { 144 ≤ length out.now }
{
    let (record, behind) = out.split_at(144);
    write!(to, " ->")?;
    buffers::records(to, record)?;
    write!(to, " left={}", buffers::left(behind))
}

fn write_in(to: &mut impl Write, request: Request, out: &mut [u8]) -> io::Result<()> {
    match request::written::write(request, out) {
        Ok(()) => wrote(to, out),
        Err(NotWritten::NoRoom) => write!(to, " -> no room left={}", buffers::left(out)),
        Err(NotWritten::Refused(refusal)) => {
            refused(to, refusal)?;
            write!(to, " left={}", buffers::left(out))
        }
    }
}

// A buffer of that many bytes, up to 160.
pub(crate) fn write(to: &mut impl Write, line: Line<'_>) -> io::Result<()> {
    let mut out = [7; 160];
    match out.get_mut(..line.number(5) as usize) {
        Some(out) => write_in(to, given(line), out),
        None => Ok(()),
    }
}
