//! A payload of a set as the row of its columns.

ghost use Rattle.std.specs.Prelude.{◌≡◌, IfOk, length};
ghost use Rattle.my_frame.specs.Reading.{Gives, GivesAs};
ghost use Rattle.my_grammar.specs.Kinds.{cells_at};
ghost use Rattle.my_reading.specs.Rows.{row_at};
ghost use Rattle.my_value.specs.RowParts.{columns_of};

use my_frame::ReadError;
use my_grammar::RowFormat;
use my_statements::SetColumns;
use my_value::{Columns, Row, read_binary_row, read_text_row};
use std::alloc::Global;

// The cells, as the format says, with the columns.
fn read_cells(
    alloc: Global,
    rows: RowFormat,
    columns: &Columns,
    payload: &[u8],
) -> Result<Row, ReadError>
    ensures cells { let known = columns_of columns.now in
        GivesAs (λ row. row.cells) result (cells_at rows (length known) known payload.now) }
    ensures columns { IfOk result (λ row. row.columns ≡ columns_of columns.now) }
{
    match rows {
        RowFormat::Text => read_text_row(alloc, payload, columns),
        RowFormat::Binary => read_binary_row(alloc, payload, columns),
    }
}

/// Reads a row of these columns.
pub fn read_row(
    alloc: Global,
    rows: RowFormat,
    columns: &SetColumns,
    payload: &[u8],
) -> Result<Row, ReadError>
    ensures { Gives result (row_at rows columns.now payload.now) }
{
    read_cells(alloc, rows, columns.shared(), payload)
}
