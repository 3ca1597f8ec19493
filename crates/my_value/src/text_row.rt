//! Rows of the text protocol.

ghost use Rattle.std.specs.Prelude.{◌≡◌, ℕ, IfOk, MatchResult, List, Option, is_some, length};
ghost use Rattle.std.specs.Option.{option_map};
ghost use Rattle.my_value.specs.RowParts.{columns_of};
ghost use Rattle.my_value.specs.declared.value.Value.{Value};
ghost use Rattle.my_frame.specs.Reading.{GivesAs};
ghost use Rattle.my_value.specs.Cell.{value_of};
ghost use Rattle.my_value.specs.TextRow.{IsTextRow, following, text_cell_at, text_cells_at, text_row_at};

use crate::cell::{Cell, own};
use crate::row::{Columns, Row, column_count, row_or_error};
use crate::value::Value;
use my_frame::numbers::take_text;
use my_frame::{NoMemory, ReadError};
use std::alloc::Global;

// The cell at the front, and the bytes after it.
fn text_cell(bytes: &[u8]) -> Option<(Cell<'_>, &[u8])>
    ensures { option_map (λ x. (value_of x.0, x.1.now)) result ≡ text_cell_at bytes.now }
{
    match bytes {
        [] => None,
        [0xFB, rest @ ..] => Some((Cell::Plain(Value::NULL), rest)),
        _ => {
            let (text, rest) = take_text(bytes)?;
            Some((Cell::Lent(text), rest))
        }
    }
}

// The first `count` cells, and the bytes after them.
fn text_cells(
    alloc: Global,
    count: usize,
    bytes: &[u8],
) -> Result<Option<(Vec<Value>, &[u8])>, NoMemory>
    ensures { IfOk result (λ o. option_map (λ x. (x.0.items, x.1.now)) o ≡ text_cells_at count bytes.now) }
{
    // Each cell takes a byte at least.
    let mut values = Vec::with_capacity(alloc, count.min(bytes.len()))?;
    let mut rest = bytes;
    for _ in 0..count {
        match text_cell(rest) {
            None => return Ok(None),
            Some((cell, after)) => {
                values.push(own(alloc, cell)?)?;
                rest = after;
            }
        }
    }
    Ok(Some((values, rest)))
}

// The bytes after `count` cells.
fn after_text_cells(count: usize, bytes: &[u8]) -> Option<&[u8]>
    ensures { option_map (λ x. x.now) result ≡ following (text_cells_at count bytes.now) }
{
    let mut rest = bytes;
    for _ in 0..count {
        let (_, after) = text_cell(rest)?;
        rest = after;
    }
    Some(rest)
}

// The cells of a row, or `None` where the payload isn't one.
fn text_row(alloc: Global, count: usize, payload: &[u8]) -> Result<Option<Vec<Value>>, NoMemory>
    ensures { IfOk result (λ o. option_map (λ v. v.items) o ≡ text_row_at count payload.now) }
{
    if payload.is_empty() {
        return Ok(None);
    }
    match text_cells(alloc, count, payload)? {
        Some((values, [])) => Ok(Some(values)),
        _ => Ok(None),
    }
}

/// Reads a row of the text protocol: each cell is `NULL` or bytes.
pub fn read_text_row(alloc: Global, payload: &[u8], columns: &Columns) -> Result<Row, ReadError>
    ensures exact { GivesAs (λ r. r.cells) result (text_row_at (length (columns_of columns.now)) payload.now) }
    ensures found { IfOk result (λ r. IsTextRow (length (columns_of columns.now)) payload.now r.cells) }
    ensures only { (cells : List Value) → IsTextRow (length (columns_of columns.now)) payload.now cells
        → MatchResult result (λ r. r.cells ≡ cells) (λ e. e ≡ ReadError.NoMemory) }
    ensures columns { IfOk result (λ r. r.columns ≡ columns_of columns.now) }
{
    row_or_error(text_row(alloc, column_count(columns), payload), columns)
}

/// Whether the payload is a row of `count` cells of the text protocol.
pub fn is_text_row(count: usize, payload: &[u8]) -> bool
    ensures { result ≡ is_some (text_row_at count payload.now) }
{
    match after_text_cells(count, payload) {
        Some([]) => !payload.is_empty(),
        _ => false,
    }
}
