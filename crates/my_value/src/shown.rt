//! Bytes, values and rows as errors print them.

use crate::row::Row;
use crate::value::Value;
use std::fmt;

/// Bytes that are printed as text, with U+FFFD in place of what is no UTF-8.
#[derive(Clone, Copy)]
pub struct Lossy<'a>(pub &'a [u8]);

impl fmt::Display for Lossy<'_> {
    fn fmt<W: fmt::Write>(&self, f: &mut fmt::Formatter<W>) -> fmt::Result {
        for chunk in self.0.utf8_chunks() {
            f.write_str(chunk.valid())?;
            if !chunk.invalid().is_empty() {
                f.write_str("\u{fffd}")?;
            }
        }
        Ok(())
    }
}

/// A value that is printed as text: bytes as they read, numbers in decimal, floats by their bits, dates as
/// `2020-12-31 23:59:59.000001` and times as `-1 23:59:59.000001`, where the 1 counts days.
#[derive(Clone, Copy)]
pub struct ShownValue<'a>(pub &'a Value);

impl fmt::Display for ShownValue<'_> {
    fn fmt<W: fmt::Write>(&self, f: &mut fmt::Formatter<W>) -> fmt::Result {
        match self.0 {
            Value::NULL => f.write_str("NULL"),
            Value::Bytes(bytes) => Lossy(bytes.as_slice()).fmt(f),
            Value::Int(n) => write!(f, "{n}"),
            Value::UInt(n) => write!(f, "{n}"),
            Value::FloatBits(bits) => write!(f, "float {bits:#010x}"),
            Value::DoubleBits(bits) => write!(f, "double {bits:#018x}"),
            Value::Date(year, month, day, hour, minute, second, micros) => {
                write!(f, "{year:04}-{month:02}-{day:02} ")?;
                write!(f, "{hour:02}:{minute:02}:{second:02}.{micros:06}")
            }
            Value::Time(negative, days, hours, minutes, seconds, micros) => {
                f.write_str(if *negative { "-" } else { "" })?;
                write!(f, "{days} ")?;
                write!(f, "{hours:02}:{minutes:02}:{seconds:02}.{micros:06}")
            }
        }
    }
}

/// A row that is printed as its cells with a comma and a blank between them, in parentheses.
#[derive(Clone, Copy)]
pub(crate) struct ShownRow<'a>(pub(crate) &'a Row);

impl fmt::Display for ShownRow<'_> {
    fn fmt<W: fmt::Write>(&self, f: &mut fmt::Formatter<W>) -> fmt::Result {
        f.write_str("(")?;
        for (place, cell) in self.0.cells().iter().enumerate() {
            if place > 0 {
                f.write_str(", ")?;
            }
            ShownValue(cell).fmt(f)?;
        }
        f.write_str(")")
    }
}
