//! Cells of the binary protocol.

ghost use Rattle.std.specs.Prelude.{◌≡◌, ◌<◌, Option, List, slice_index};
ghost use Rattle.std.specs.Option.{option_map};
ghost use Rattle.std.specs.Int.{w8, w16, w32};
ghost use Rattle.my_value.specs.Cell.{value_of};
ghost use Rattle.my_value.specs.BinaryCell.{binary_cell_at, date_of, integer, long_integer, micros_at, parts_at, time_of};

use crate::cell::Cell;
use crate::form::CellForm;
use crate::value::Value;
use my_frame::numbers::{take_bytes, take_text, take_u8, take_u16, take_u32, take_u64};

fn tiny(n: u8, unsigned: bool) -> Value
    ensures { result ≡ integer w8 unsigned n }
{
    Value::Int(if unsigned {
        i64::from(n)
    } else {
        i64::from(n.cast_signed())
    })
}

fn short(n: u16, unsigned: bool) -> Value
    ensures { result ≡ integer w16 unsigned n }
{
    Value::Int(if unsigned {
        i64::from(n)
    } else {
        i64::from(n.cast_signed())
    })
}

fn long(n: u32, unsigned: bool) -> Value
    ensures { result ≡ integer w32 unsigned n }
{
    Value::Int(if unsigned {
        i64::from(n)
    } else {
        i64::from(n.cast_signed())
    })
}

fn long_long(n: u64, unsigned: bool) -> Value
    ensures { result ≡ long_integer unsigned n }
{
    if unsigned {
        Value::UInt(n)
    } else {
        Value::Int(n.cast_signed())
    }
}

// The part at a place, 0 where it is missing.
fn part(parts: &[u8], place: usize) -> u8
    ensures { result ≡ slice_index parts.now place }
{
    parts.get(place).copied().unwrap_or(0)
}

fn micros(parts: &[u8], place: usize) -> u32
    requires { place < 16 }
    ensures { result ≡ micros_at parts.now place }
{
    u32::from_le_bytes([
        part(parts, place),
        part(parts, place + 1),
        part(parts, place + 2),
        part(parts, place + 3),
    ])
}

fn date(parts: &[u8]) -> Option<Value>
    ensures { result ≡ date_of parts.now }
{
    if !matches!(parts.len(), 0 | 4 | 7 | 11) {
        return None;
    }
    Some(Value::Date(
        u16::from_le_bytes([part(parts, 0), part(parts, 1)]),
        part(parts, 2),
        part(parts, 3),
        part(parts, 4),
        part(parts, 5),
        part(parts, 6),
        micros(parts, 7),
    ))
}

fn time(parts: &[u8]) -> Option<Value>
    ensures { result ≡ time_of parts.now }
{
    let sign = part(parts, 0);
    if !matches!(parts.len(), 0 | 8 | 12) || sign > 1 {
        return None;
    }
    Some(Value::Time(
        sign == 1,
        micros(parts, 1),
        part(parts, 5),
        part(parts, 6),
        part(parts, 7),
        micros(parts, 8),
    ))
}

// The parts after their length, and the bytes after them.
fn take_parts(bytes: &[u8]) -> Option<(&[u8], &[u8])>
    ensures { option_map (λ x. (x.0.now, x.1.now)) result ≡ parts_at bytes.now }
{
    let (len, rest) = bytes.split_first()?;
    take_bytes(rest, usize::from(*len))
}

/// The cell at the front in this form, and the bytes after it.
pub fn binary_cell(form: CellForm, unsigned: bool, bytes: &[u8]) -> Option<(Cell<'_>, &[u8])>
    ensures { option_map (λ x. (value_of x.0, x.1.now)) result ≡ binary_cell_at form unsigned bytes.now }
{
    match form {
        CellForm::Tiny => {
            let (n, rest) = take_u8(bytes)?;
            Some((Cell::Plain(tiny(n, unsigned)), rest))
        }
        CellForm::Short => {
            let (n, rest) = take_u16(bytes)?;
            Some((Cell::Plain(short(n, unsigned)), rest))
        }
        CellForm::Long => {
            let (n, rest) = take_u32(bytes)?;
            Some((Cell::Plain(long(n, unsigned)), rest))
        }
        CellForm::LongLong => {
            let (n, rest) = take_u64(bytes)?;
            Some((Cell::Plain(long_long(n, unsigned)), rest))
        }
        CellForm::Float => {
            let (bits, rest) = take_u32(bytes)?;
            Some((Cell::Plain(Value::FloatBits(bits)), rest))
        }
        CellForm::Double => {
            let (bits, rest) = take_u64(bytes)?;
            Some((Cell::Plain(Value::DoubleBits(bits)), rest))
        }
        CellForm::Date => {
            let (parts, rest) = take_parts(bytes)?;
            Some((Cell::Plain(date(parts)?), rest))
        }
        CellForm::Time => {
            let (parts, rest) = take_parts(bytes)?;
            Some((Cell::Plain(time(parts)?), rest))
        }
        CellForm::Null => Some((Cell::Plain(Value::NULL), bytes)),
        CellForm::Text => {
            let (text, rest) = take_text(bytes)?;
            Some((Cell::Lent(text), rest))
        }
    }
}
