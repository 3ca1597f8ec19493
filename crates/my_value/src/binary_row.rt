//! Rows of the binary protocol.

ghost use Rattle.std.specs.Prelude.{◌≡◌, ◌<◌, ◌^◌, ℕ, IfOk, MatchResult, List, Option, is_some, length};
ghost use Rattle.std.specs.Option.{option_map};
ghost use Rattle.my_frame.specs.Reading.{GivesAs};
ghost use Rattle.my_reply.specs.declared.column.Column.{Column};
ghost use Rattle.my_value.specs.RowParts.{columns_of};
ghost use Rattle.my_value.specs.declared.value.Value.{Value};
ghost use Rattle.my_value.specs.Cell.{value_of};
ghost use Rattle.my_value.specs.TextRow.{following};
ghost use Rattle.my_value.specs.BinaryRow.{IsBinaryRow, binary_cells_at, binary_row_at, bitmap_at, column_cell_at, is_null_at};

use crate::binary_cell::binary_cell;
use crate::cell::{Cell, own};
use crate::form::{form_of, has_no_sign};
use crate::row::{Columns, Row, column_list, row_or_error};
use crate::value::Value;
use my_frame::numbers::take_bytes;
use my_frame::{NoMemory, ReadError};
use my_reply::Column;
use std::alloc::Global;

// Whether the cell at a place is NULL by the bitmap.
fn is_null(bitmap: &[u8], place: usize) -> bool
    requires { place < 2 ^ 63 }
    ensures { result ≡ is_null_at bitmap.now place }
{
    let byte = bitmap.get((place + 2) / 8).copied().unwrap_or(0);
    (byte >> ((place + 2) % 8)) % 2 == 1
}

// The cell of a column, and the bytes after it.
fn column_cell(null: bool, column_type: u8, flags: u16, bytes: &[u8]) -> Option<(Cell<'_>, &[u8])>
    ensures { option_map (λ x. (value_of x.0, x.1.now)) result ≡ column_cell_at null column_type flags bytes.now }
{
    if null {
        return Some((Cell::Plain(Value::NULL), bytes));
    }
    let form = form_of(column_type)?;
    binary_cell(form, has_no_sign(flags), bytes)
}

// The cells of the columns, and the bytes after them.
fn binary_cells<'a>(
    alloc: Global,
    bitmap: &[u8],
    columns: &[Column],
    bytes: &'a [u8],
) -> Result<Option<(Vec<Value>, &'a [u8])>, NoMemory>
    ensures { IfOk result (λ o. option_map (λ x. (x.0.items, x.1.now)) o
        ≡ binary_cells_at 0 bitmap.now columns.now bytes.now) }
{
    let mut values = Vec::new(alloc);
    let mut rest = bytes;
    for (place, column) in columns.iter().enumerate() {
        let null = is_null(bitmap, place);
        match column_cell(null, column.column_type, column.flags, rest) {
            None => return Ok(None),
            Some((cell, after)) => {
                values.push(own(alloc, cell)?)?;
                rest = after;
            }
        }
    }
    Ok(Some((values, rest)))
}

// The bytes after the cells of the columns.
fn after_binary_cells<'a>(bitmap: &[u8], columns: &[Column], bytes: &'a [u8]) -> Option<&'a [u8]>
    ensures { option_map (λ x. x.now) result ≡ following (binary_cells_at 0 bitmap.now columns.now bytes.now) }
{
    let mut rest = bytes;
    for (place, column) in columns.iter().enumerate() {
        let null = is_null(bitmap, place);
        let (_, after) = column_cell(null, column.column_type, column.flags, rest)?;
        rest = after;
    }
    Some(rest)
}

// The bitmap of `count` cells after the head of a row, and the bytes after it.
fn bitmap_of(count: usize, payload: &[u8]) -> Option<(&[u8], &[u8])>
    requires { count < 2 ^ 63 }
    ensures { option_map (λ x. (x.0.now, x.1.now)) result ≡ bitmap_at count payload.now }
{
    match payload {
        [0, rest @ ..] => take_bytes(rest, (count + 9) / 8),
        _ => None,
    }
}

// The cells of a row, or `None` where the payload isn't one.
fn binary_row(
    alloc: Global,
    columns: &[Column],
    payload: &[u8],
) -> Result<Option<Vec<Value>>, NoMemory>
    ensures { IfOk result (λ o. option_map (λ v. v.items) o ≡ binary_row_at columns.now payload.now) }
{
    let Some((bitmap, bytes)) = bitmap_of(columns.len(), payload) else {
        return Ok(None);
    };
    match binary_cells(alloc, bitmap, columns, bytes)? {
        Some((values, [])) => Ok(Some(values)),
        _ => Ok(None),
    }
}

/// Reads a row of the binary protocol: each cell is what its column's type and flags say.
pub fn read_binary_row(alloc: Global, payload: &[u8], columns: &Columns) -> Result<Row, ReadError>
    ensures exact { GivesAs (λ r. r.cells) result (binary_row_at (columns_of columns.now) payload.now) }
    ensures found { IfOk result (λ r. IsBinaryRow (columns_of columns.now) payload.now r.cells) }
    ensures only { (cells : List Value) → IsBinaryRow (columns_of columns.now) payload.now cells
        → MatchResult result (λ r. r.cells ≡ cells) (λ e. e ≡ ReadError.NoMemory) }
    ensures columns { IfOk result (λ r. r.columns ≡ columns_of columns.now) }
{
    row_or_error(binary_row(alloc, column_list(columns), payload), columns)
}

/// Whether the payload is a row of these columns of the binary protocol.
pub fn is_binary_row(columns: &[Column], payload: &[u8]) -> bool
    ensures { result ≡ is_some (binary_row_at columns.now payload.now) }
{
    let Some((bitmap, bytes)) = bitmap_of(columns.len(), payload) else {
        return false;
    };
    matches!(after_binary_cells(bitmap, columns, bytes), Some([]))
}
