//! Values and rows as text.
ghost use Rattle.std.specs.Prelude.{◌≡◌, ◌++◌, ◌∷◌, [], OnOk, if◌then◌else◌, ◌<◌, ◌≤◌, codes, length, slice_get, drop};
ghost use Rattle.std.specs.Fmt.{decimal, signed_decimal};
ghost use Rattle.my_script.specs.TextParts.{marked};
ghost use Rattle.my_script.specs.ValueText.{date_text, clock_text, bits_text, value_text, cell_text, cells_text, joined_text, boxed_text, boxes_text, rows_text, row_text};

use super::parts::{push_bytes, push_decimal, push_hex, push_marked, push_signed};
use my_value::{Row, Value};
use std::alloc::{AllocError, Global};

// Year, month and day.
#[tactic(auto, unfolding(crate::specs::ValueText::date_text))]
fn push_date(
    alloc: Global,
    out: &mut Vec<u8>,
    year: u16,
    month: u8,
    day: u8,
) -> Result<(), AllocError>
    ensures { OnOk result (out.new.items ≡ out.old.items ++ date_text year month day) }
{
    push_decimal(alloc, out, year as u64)?;
    push_marked(alloc, out, b'-', month as u64)?;
    push_marked(alloc, out, b'-', day as u64)
}

// Hours, minutes, seconds and microseconds, after a blank's mark.
#[tactic(auto, unfolding(crate::specs::ValueText::clock_text))]
fn push_clock(
    alloc: Global,
    out: &mut Vec<u8>,
    hour: u8,
    minute: u8,
    second: u8,
    micros: u32,
) -> Result<(), AllocError>
    ensures { OnOk result (out.new.items ≡ out.old.items ++ clock_text hour minute second micros) }
{
    push_marked(alloc, out, b'_', hour as u64)?;
    push_marked(alloc, out, b':', minute as u64)?;
    push_marked(alloc, out, b':', second as u64)?;
    push_marked(alloc, out, b'.', micros as u64)
}

fn sign_digit(negative: bool) -> u64
    ensures { result ≡ (if negative then 1 else 0) }
{
    if negative { 1 } else { 0 }
}

// A kind's letter, and the digits of bits.
#[tactic(auto, unfolding(crate::specs::ValueText::bits_text))]
fn push_bits(alloc: Global, out: &mut Vec<u8>, letter: u8, bits: &[u8]) -> Result<(), AllocError>
    ensures { OnOk result (out.new.items ≡ out.old.items ++ bits_text letter bits.now) }
{
    out.push(letter)?;
    out.push(b':')?;
    push_hex(alloc, out, bits)
}

fn push_int(alloc: Global, out: &mut Vec<u8>, n: i64) -> Result<(), AllocError>
    ensures { OnOk result (out.new.items ≡ out.old.items ++ (codes "i:" ++ signed_decimal n)) }
{
    out.extend_from_slice(b"i:")?;
    push_signed(alloc, out, n)
}

fn push_uint(alloc: Global, out: &mut Vec<u8>, n: u64) -> Result<(), AllocError>
    ensures { OnOk result (out.new.items ≡ out.old.items ++ (codes "u:" ++ decimal n)) }
{
    out.extend_from_slice(b"u:")?;
    push_decimal(alloc, out, n)
}

// A date and a time of day.
fn push_moment(
    alloc: Global,
    out: &mut Vec<u8>,
    year: u16,
    month: u8,
    day: u8,
    hour: u8,
    minute: u8,
    second: u8,
    micros: u32,
) -> Result<(), AllocError>
    ensures { OnOk result (out.new.items ≡ out.old.items
        ++ (codes "D:" ++ date_text year month day ++ clock_text hour minute second micros)) }
{
    out.extend_from_slice(b"D:")?;
    push_date(alloc, out, year, month, day)?;
    push_clock(alloc, out, hour, minute, second, micros)
}

// A span of time, which may be negative.
fn push_span(
    alloc: Global,
    out: &mut Vec<u8>,
    negative: bool,
    days: u32,
    hours: u8,
    minutes: u8,
    seconds: u8,
    micros: u32,
) -> Result<(), AllocError>
    ensures { let sign = if negative then 1 else 0 in
        OnOk result (out.new.items ≡ out.old.items
        ++ (codes "T:" ++ decimal sign ++ marked 95 days ++ clock_text hours minutes seconds micros)) }
{
    out.extend_from_slice(b"T:")?;
    push_decimal(alloc, out, sign_digit(negative))?;
    push_marked(alloc, out, b'_', days as u64)?;
    push_clock(alloc, out, hours, minutes, seconds, micros)
}

/// A value as text.
pub fn push_value(alloc: Global, out: &mut Vec<u8>, value: &Value) -> Result<(), AllocError>
    ensures { OnOk result (out.new.items ≡ out.old.items ++ value_text value.now) }
{
    match value {
        Value::NULL => out.extend_from_slice(b"NULL"),
        Value::Bytes(bytes) => push_bytes(alloc, out, bytes.as_slice()),
        Value::Int(n) => push_int(alloc, out, *n),
        Value::UInt(n) => push_uint(alloc, out, *n),
        Value::FloatBits(bits) => push_bits(alloc, out, b'f', &bits.to_be_bytes()),
        Value::DoubleBits(bits) => push_bits(alloc, out, b'd', &bits.to_be_bytes()),
        Value::Date(year, month, day, hour, minute, second, micros) => {
            push_moment(
                alloc, out, *year, *month, *day, *hour, *minute, *second, *micros,
            )
        }
        Value::Time(negative, days, hours, minutes, seconds, micros) => {
            push_span(
                alloc, out, *negative, *days, *hours, *minutes, *seconds, *micros,
            )
        }
    }
}

// A blank and the value of a cell.
fn push_cell(alloc: Global, out: &mut Vec<u8>, row: &Row, index: usize) -> Result<(), AllocError>
    requires { index < length row.now.cells }
    ensures { OnOk result (out.new.items ≡ out.old.items ++ cell_text (slice_get row.now.cells index)) }
{
    match row.as_ref(index) {
        None => Ok(()),
        Some(value) => {
            out.push(b' ')?;
            push_value(alloc, out, value)
        }
    }
}

// A blank and a value, for each cell from this place on.
fn push_cells(alloc: Global, out: &mut Vec<u8>, row: &Row, from: usize) -> Result<(), AllocError>
    requires { from ≤ length row.now.cells }
    ensures { OnOk result (out.new.items ≡ out.old.items ++ cells_text (drop from row.now.cells)) }
{
    for i in from..row.len() {
        push_cell(alloc, out, row, i)?;
    }
    Ok(())
}

/// A row as text: `row` and its values.
pub fn push_row(alloc: Global, out: &mut Vec<u8>, row: &Row) -> Result<(), AllocError>
    ensures { OnOk result (out.new.items ≡ out.old.items ++ row_text row.now.cells) }
{
    out.extend_from_slice(b"row")?;
    push_cells(alloc, out, row, 0)
}

// The values, a blank between them.
fn push_joined(alloc: Global, out: &mut Vec<u8>, row: &Row) -> Result<(), AllocError>
    ensures { OnOk result (out.new.items ≡ out.old.items ++ joined_text row.now.cells) }
{
    match row.as_ref(0) {
        None => Ok(()),
        Some(value) => {
            push_value(alloc, out, value)?;
            push_cells(alloc, out, row, 1)
        }
    }
}

#[tactic(auto, unfolding(crate::specs::ValueText::boxed_text))]
fn push_boxed(alloc: Global, out: &mut Vec<u8>, row: &Row) -> Result<(), AllocError>
    ensures { OnOk result (out.new.items ≡ out.old.items ++ boxed_text row.now.cells) }
{
    out.extend_from_slice(b" [")?;
    push_joined(alloc, out, row)?;
    out.push(b']')?;
    Ok(())
}

fn push_boxes(alloc: Global, out: &mut Vec<u8>, rows: &[Row]) -> Result<(), AllocError>
    ensures { OnOk result (out.new.items ≡ out.old.items ++ boxes_text rows.now) }
{
    for row in rows {
        push_boxed(alloc, out, row)?;
    }
    Ok(())
}

/// Rows as text: `rows`, how many they are, and each in brackets.
#[tactic(auto, unfolding(crate::specs::ValueText::rows_text))]
pub fn push_rows(alloc: Global, out: &mut Vec<u8>, rows: &[Row]) -> Result<(), AllocError>
    ensures { OnOk result (out.new.items ≡ out.old.items ++ rows_text rows.now) }
{
    out.extend_from_slice(b"rows ")?;
    push_decimal(alloc, out, rows.len() as u64)?;
    push_boxes(alloc, out, rows)
}
