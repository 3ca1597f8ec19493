//! Laws of values: each is a function that does nothing, and its contract is the law.

ghost use Rattle.std.specs.Prelude.{◌≡◌, ◌<◌, ◌⊎◌, ◌↔◌, ℕ, List, Option, Some, length, map};
ghost use Rattle.std.specs.List.{flat_map};
ghost use Rattle.my_reply.specs.Server.{cell_bytes};
ghost use Rattle.my_reply.specs.declared.column.Column.{Column};
ghost use Rattle.my_value.specs.BinaryRow.{IsBinaryRow, binary_row_at};
ghost use Rattle.my_value.specs.RowConversions.{FourCells, OneCell, ThreeCells, TwoCells};
ghost use Rattle.my_value.specs.RowParts.{RowParts};
ghost use Rattle.my_value.specs.TextRow.{IsTextRow, text_row_at};
ghost use Rattle.my_value.specs.WrittenRow.{TextsFit, sent_value};
ghost use Rattle.my_value.specs.declared.value.Value as value;
ghost use Rattle.my_value.specs.declared.value.Value.TheVariants as values;

use crate::conversion::FromValue;
use crate::row::Row;
use crate::row_conversion::FromRow;
use crate::value::Value;

/// A payload has at most one list of cells, and it is the one that reading gives.
pub fn text_rows_are_read()
    ensures { (count : ℕ) (payload : List ℕ) (cells : List value.Value)
        → (text_row_at count payload ≡ Some cells) ↔ IsTextRow count payload cells }
{}

/// A payload has at most one list of cells, and it is the one that reading gives.
pub fn binary_rows_are_read()
    ensures { (columns : List Column) (payload : List ℕ) (cells : List value.Value)
        → (binary_row_at columns payload ≡ Some cells) ↔ IsBinaryRow columns payload cells }
{}

/// The cells of a row are read back as they were written.
pub fn written_text_rows_are_read()
    ensures { (cells : List (Option (List ℕ))) → 0 < length cells → TextsFit cells
        → text_row_at (length cells) (flat_map cell_bytes cells) ≡ Some (map sent_value cells) }
{}

/// Each value converts to a `Value`, and each row to a `Row`.
pub fn values_and_rows_convert()
    ensures values { (v : value.Value) → ⟦<Value as FromValue>⟧.converts v }
    ensures rows { (r : RowParts) → ⟦<Row as FromRow>⟧.row_converts r }
{}

/// `NULL` and what converts to a type convert to an option of that type, and nothing else.
pub fn options_convert<T: FromValue>()
    ensures { (v : value.Value) → ⟦<Option<T> as FromValue>⟧.converts v ↔ ((v ≡ values.NULL) ⊎ T.converts v) }
{}

/// A row converts to a tuple exactly where it has a cell for each part, and each cell converts.
pub fn tuples_convert<A: FromValue + Drop, B: FromValue + Drop, C: FromValue + Drop, D: FromValue>()
    ensures one { (r : RowParts) → ⟦<(A,) as FromRow>⟧.row_converts r ↔ OneCell A.converts r.cells }
    ensures two { (r : RowParts) → ⟦<(A, B) as FromRow>⟧.row_converts r ↔ TwoCells A.converts B.converts r.cells }
    ensures three { (r : RowParts) → ⟦<(A, B, C) as FromRow>⟧.row_converts r
        ↔ ThreeCells A.converts B.converts C.converts r.cells }
    ensures four { (r : RowParts) → ⟦<(A, B, C, D) as FromRow>⟧.row_converts r
        ↔ FourCells A.converts B.converts C.converts D.converts r.cells }
{}
