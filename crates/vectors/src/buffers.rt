// What stands in a lent buffer after a call: text, records, and the bytes that are as they were. Each byte is 7 before the call.
use std::io;
use std::io::Write;

// A text after a space, with '/' for a newline, and nothing where it is empty.
pub(crate) fn text(to: &mut impl Write, text: &[u8]) -> io::Result<()> {
    if !text.is_empty() {
        write!(to, " ")?;
    }
    for b in text {
        let shown = if *b == b'\n' { b'/' } else { *b };
        to.write_all(&[shown])?;
    }
    Ok(())
}

// How many bytes of the buffer are as they were before the call.
pub(crate) fn left(buffer: &[u8]) -> usize {
    buffer.iter().filter(|b| **b == 7).count()
}

// A level: + for 256, - for -256, . where nothing was written, ? for any other.
pub(crate) fn sign(to: &mut impl Write, level: i32) -> io::Result<()> {
    let sign = match level {
        256 => '+',
        -256 => '-',
        0 => '0',
        7 => '.',
        _ => '?',
    };
    write!(to, "{sign}")
}

// A record: its first 16 bytes, and the signs of its 64 levels.
fn record(to: &mut impl Write, record: &[u8; 144]) -> io::Result<()> {
    let (header, levels) = record.split_at(16);
    write!(to, " record=")?;
    for b in header {
        write!(to, "{:x}{:x}", b >> 4, b & 15)?;
    }
    write!(to, " levels=")?;
    for level in levels.as_chunks::<2>().0 {
        sign(to, i16::from_le_bytes(*level).into())?;
    }
    Ok(())
}

// The records of a buffer, each of 144 bytes.
pub(crate) fn records(to: &mut impl Write, buffer: &[u8]) -> io::Result<()> {
    for bytes in buffer.as_chunks::<144>().0 {
        record(to, bytes)?;
    }
    Ok(())
}
