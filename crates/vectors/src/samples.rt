// The level of a sample. A sample is given by its bit pattern, and a NaN's pattern is the one NaN.
use crate::arrow::shown;
use crate::line::Line;
use std::io::Write;
use std::{io, num};

pub(crate) fn level(to: &mut impl Write, line: Line<'_>) -> io::Result<()> {
    match sample::level(num::f32_from_bits_with_nan(line.small(0))) {
        Some(level) => shown(to, level),
        None => shown(to, "not finite"),
    }
}
