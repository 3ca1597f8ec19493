//! Conversion of rows of one cell to the type of that cell.

ghost use Rattle.std.specs.Prelude.{◌≡◌, ◌⊎◌, string_bytes};
ghost use Rattle.std.specs.Int.{w8, w16, w32, w64};
ghost use Rattle.my_value.specs.Conversions.{Becomes, HoldsBytes, HoldsText, IsOptional, IsSigned, IsTruth, IsUnsigned};
ghost use Rattle.my_value.specs.ConversionLaws.{one_becomes, one_converts, optional_converts};
ghost use Rattle.my_value.specs.RowConversions.{OneCell};
ghost use Rattle.my_value.specs.declared.value.Value.TheVariants as values;

use crate::conversion::FromValue;
use crate::row::Row;
use crate::row_conversion::{FromRow, FromRowError};
use crate::tuples::one_cell;
use crate::value::Value;
use std::alloc::Global;

impl FromRow for u8 {
    ghost row_converts = { λ r. OneCell (Becomes (IsUnsigned 8)) r.cells };

    ghost row_becomes = { λ r x. OneCell (λ v. IsUnsigned 8 v x) r.cells };

    ghost only_what_converts = { λ r x h. one_becomes (IsUnsigned 8) r.cells x h };

    fn from_row_opt(alloc: Global, row: Row) -> Result<u8, FromRowError> {
        one_cell(alloc, row)
    }
}

impl FromRow for u16 {
    ghost row_converts = { λ r. OneCell (Becomes (IsUnsigned 16)) r.cells };

    ghost row_becomes = { λ r x. OneCell (λ v. IsUnsigned 16 v x) r.cells };

    ghost only_what_converts = { λ r x h. one_becomes (IsUnsigned 16) r.cells x h };

    fn from_row_opt(alloc: Global, row: Row) -> Result<u16, FromRowError> {
        one_cell(alloc, row)
    }
}

impl FromRow for u32 {
    ghost row_converts = { λ r. OneCell (Becomes (IsUnsigned 32)) r.cells };

    ghost row_becomes = { λ r x. OneCell (λ v. IsUnsigned 32 v x) r.cells };

    ghost only_what_converts = { λ r x h. one_becomes (IsUnsigned 32) r.cells x h };

    fn from_row_opt(alloc: Global, row: Row) -> Result<u32, FromRowError> {
        one_cell(alloc, row)
    }
}

impl FromRow for u64 {
    ghost row_converts = { λ r. OneCell (Becomes (IsUnsigned 64)) r.cells };

    ghost row_becomes = { λ r x. OneCell (λ v. IsUnsigned 64 v x) r.cells };

    ghost only_what_converts = { λ r x h. one_becomes (IsUnsigned 64) r.cells x h };

    fn from_row_opt(alloc: Global, row: Row) -> Result<u64, FromRowError> {
        one_cell(alloc, row)
    }
}

impl FromRow for i8 {
    ghost row_converts = { λ r. OneCell (Becomes (IsSigned w8)) r.cells };

    ghost row_becomes = { λ r x. OneCell (λ v. IsSigned w8 v x) r.cells };

    ghost only_what_converts = { λ r x h. one_becomes (IsSigned w8) r.cells x h };

    fn from_row_opt(alloc: Global, row: Row) -> Result<i8, FromRowError> {
        one_cell(alloc, row)
    }
}

impl FromRow for i16 {
    ghost row_converts = { λ r. OneCell (Becomes (IsSigned w16)) r.cells };

    ghost row_becomes = { λ r x. OneCell (λ v. IsSigned w16 v x) r.cells };

    ghost only_what_converts = { λ r x h. one_becomes (IsSigned w16) r.cells x h };

    fn from_row_opt(alloc: Global, row: Row) -> Result<i16, FromRowError> {
        one_cell(alloc, row)
    }
}

impl FromRow for i32 {
    ghost row_converts = { λ r. OneCell (Becomes (IsSigned w32)) r.cells };

    ghost row_becomes = { λ r x. OneCell (λ v. IsSigned w32 v x) r.cells };

    ghost only_what_converts = { λ r x h. one_becomes (IsSigned w32) r.cells x h };

    fn from_row_opt(alloc: Global, row: Row) -> Result<i32, FromRowError> {
        one_cell(alloc, row)
    }
}

impl FromRow for i64 {
    ghost row_converts = { λ r. OneCell (Becomes (IsSigned w64)) r.cells };

    ghost row_becomes = { λ r x. OneCell (λ v. IsSigned w64 v x) r.cells };

    ghost only_what_converts = { λ r x h. one_becomes (IsSigned w64) r.cells x h };

    fn from_row_opt(alloc: Global, row: Row) -> Result<i64, FromRowError> {
        one_cell(alloc, row)
    }
}

impl FromRow for bool {
    ghost row_converts = { λ r. OneCell (Becomes IsTruth) r.cells };

    ghost row_becomes = { λ r x. OneCell (λ v. IsTruth v x) r.cells };

    ghost only_what_converts = { λ r x h. one_becomes IsTruth r.cells x h };

    fn from_row_opt(alloc: Global, row: Row) -> Result<bool, FromRowError> {
        one_cell(alloc, row)
    }
}

impl FromRow for Vec<u8> {
    ghost row_converts = { λ r. OneCell (Becomes HoldsBytes) r.cells };

    ghost row_becomes = { λ r x. OneCell (λ v. HoldsBytes v x.items) r.cells };

    ghost only_what_converts = { λ r x h. one_becomes HoldsBytes r.cells x.items h };

    fn from_row_opt(alloc: Global, row: Row) -> Result<Vec<u8>, FromRowError> {
        one_cell(alloc, row)
    }
}

impl FromRow for String {
    ghost row_converts = { λ r. OneCell (Becomes HoldsText) r.cells };

    ghost row_becomes = { λ r x. OneCell (λ v. HoldsText v (string_bytes x)) r.cells };

    ghost only_what_converts = { λ r x h. one_becomes HoldsText r.cells (string_bytes x) h };

    fn from_row_opt(alloc: Global, row: Row) -> Result<String, FromRowError> {
        one_cell(alloc, row)
    }
}

impl FromRow for Value {
    ghost row_converts = { λ r. OneCell (λ _. Unit {0}) r.cells };

    ghost row_becomes = { λ r x. OneCell (λ v. x ≡ v) r.cells };

    ghost only_what_converts = { λ r x h. one_converts (λ _. Unit {0}) (λ v y. y ≡ v) (λ v y e. tt) r.cells x h };

    fn from_row_opt(alloc: Global, row: Row) -> Result<Value, FromRowError> {
        one_cell(alloc, row)
    }
}

impl<T: FromValue> FromRow for Option<T> {
    ghost row_converts = { λ r. OneCell (λ v. (v ≡ values.NULL) ⊎ T.converts v) r.cells };

    ghost row_becomes = { λ r x. OneCell (λ v. IsOptional T.becomes v x) r.cells };

    ghost only_what_converts = { λ r x h. one_converts (λ v. (v ≡ values.NULL) ⊎ T.converts v) (IsOptional T.becomes)
        (optional_converts T.converts T.becomes T.only_what_converts) r.cells x h };

    fn from_row_opt(alloc: Global, row: Row) -> Result<Option<T>, FromRowError> {
        one_cell(alloc, row)
    }
}
