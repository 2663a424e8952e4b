// The records and the requests that are given: the first of document 01's three records, or its request, with changes; and the
// three records, or five requests, one after the other.
use crate::line::Line;

// The first record: n = 3, folding 0, allowance 100, mask 0x05, levels 256 twice, -256 six times and then zeros.
fn record() -> [u8; 144] {
    let mut bytes = [0; 144];
    bytes[0] = 3;
    bytes[4] = 100;
    bytes[8] = 5;
    bytes[17] = 1;
    bytes[19] = 1;
    bytes[21] = 255;
    bytes[23] = 255;
    bytes[25] = 255;
    bytes[27] = 255;
    bytes[29] = 255;
    bytes[31] = 255;
    bytes
}

// Fills all the bytes with the given ones, again and again.
fn repeat(bytes: &mut [u8], given: &[u8]) {
    for (byte, of) in bytes.iter_mut().zip(given.iter().cycle()) {
        *byte = *of;
    }
}

// One change, where the line has it: its place and its value are these numbers of the line.
fn change(bytes: &mut [u8], line: Line<'_>, place: usize, value: usize) {
    if line.has(value)
        && let Some(byte) = bytes.get_mut(line.number(place) as usize)
        && let Ok(value) = u8::try_from(line.number(value))
    {
        *byte = value;
    }
}

// The first record and two bytes of 255, with up to three changes: from number 1 of the line on a place and a value in turn.
pub(crate) fn changed(line: Line<'_>) -> [u8; 146] {
    let mut bytes = [255; 146];
    bytes[..144].copy_from_slice(&record());
    for (place, value) in [(1, 2), (3, 4), (5, 6)] {
        change(&mut bytes, line, place, value);
    }
    bytes
}

// The three records, the second with allowance 13 and the third with folding 8, and 48 bytes of 255 behind them.
pub(crate) fn three() -> [u8; 480] {
    let mut bytes = [255; 480];
    repeat(&mut bytes[..432], &record());
    bytes[148] = 13;
    bytes[289] = 8;
    bytes
}

// The request of the first record: its n, folding, allowance and mask, and message 1.
fn request() -> [u8; 24] {
    let mut bytes = [0; 24];
    bytes[0] = 3;
    bytes[4] = 100;
    bytes[8] = 5;
    bytes[16] = 1;
    bytes
}

// That request and two bytes of 255, with up to four changes, given as a record's.
pub(crate) fn changed_request(line: Line<'_>) -> [u8; 26] {
    let mut bytes = [255; 26];
    bytes[..24].copy_from_slice(&request());
    for (place, value) in [(1, 2), (3, 4), (5, 6), (7, 8)] {
        change(&mut bytes, line, place, value);
    }
    bytes
}

// Five requests: that one; with 1 in byte 2; with n = 6, folding 7 and a message of 62 bits; with folding 8; and 24 bytes of 255.
pub(crate) fn five() -> [u8; 120] {
    let mut bytes = [255; 120];
    repeat(&mut bytes[..96], &request());
    bytes[26] = 1;
    bytes[48] = 6;
    bytes[49] = 7;
    bytes[71] = 63;
    bytes[73] = 8;
    bytes
}
