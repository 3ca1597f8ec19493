//! Conversion of rows of one cell, and to tuples.

ghost use Rattle.std.specs.Prelude.{◌≡◌, ◌<◌, IfOk, IfErr, MatchOption, Option, slice_get, Some};
ghost use Rattle.my_value.specs.RowConversions.{FourCells, OneCell, RefusesRow, ThreeCells, TwoCells};
ghost use Rattle.my_value.specs.ConversionLaws.{four_convert, one_converts, three_convert, two_convert};

use crate::conversion::{FromValue, FromValueError};
use crate::row::Row;
use crate::row_conversion::{FromRow, FromRowError};
use crate::value::Value;
use my_frame::NoMemory;
use std::alloc::Global;

/// The converted cell of a row of one cell.
pub(crate) fn one_cell<T: FromValue>(alloc: Global, row: Row) -> Result<T, FromRowError>
    ensures converted { IfOk result (λ x. OneCell (λ v. T.becomes v x) row.cells) }
    ensures refused { IfErr result (RefusesRow (OneCell T.converts row.cells) row) }
{
    let mut row = row;
    if row.len() != 1 {
        return Err(FromRowError::Row(row));
    }
    let Some(cell) = row.take(0) else {
        return Err(FromRowError::Row(row));
    };
    match T::from_value_opt(alloc, cell) {
        Ok(x) => Ok(x),
        Err(FromValueError::NoMemory) => Err(FromRowError::NoMemory),
        Err(FromValueError::Value(cell)) => {
            row.put(0, cell);
            Err(FromRowError::Row(row))
        }
    }
}

// The conversion of a copy of the cell, so that a row that is refused is given back whole.
fn converted<T: FromValue>(alloc: Global, cell: &Value) -> Result<Option<T>, NoMemory>
    ensures { IfOk result (λ o. MatchOption o (T.converts cell.now → ⊥) (T.becomes cell.now)) }
{
    match T::from_value_opt(alloc, cell.copy(alloc)?) {
        Ok(x) => Ok(Some(x)),
        Err(FromValueError::Value(_)) => Ok(None),
        Err(FromValueError::NoMemory) => Err(NoMemory),
    }
}

impl<A: FromValue> FromRow for (A,) {
    ghost row_converts = { λ r. OneCell A.converts r.cells };

    ghost row_becomes = { λ r x. OneCell (λ v. A.becomes v x.0) r.cells };

    ghost only_what_converts = { λ r x h. one_converts A.converts A.becomes A.only_what_converts r.cells x.0 h };

    fn from_row_opt(alloc: Global, row: Row) -> Result<(A,), FromRowError> {
        match one_cell(alloc, row) {
            Ok(x) => Ok((x,)),
            Err(e) => Err(e),
        }
    }
}

// The conversion of two cells.
fn converted_pair<A: FromValue + Drop, B: FromValue>(
    alloc: Global,
    first: &Value,
    second: &Value,
) -> Result<Option<(A, B)>, NoMemory>
    ensures { IfOk result (λ o. MatchOption o ((A.converts first.now × B.converts second.now) → ⊥)
        (λ x. A.becomes first.now x.0 × B.becomes second.now x.1)) }
{
    let Some(first) = converted::<A>(alloc, first)? else {
        return Ok(None);
    };
    let Some(second) = converted::<B>(alloc, second)? else {
        return Ok(None);
    };
    Ok(Some((first, second)))
}

fn two_cells<A: FromValue + Drop, B: FromValue>(
    alloc: Global,
    cells: &[Value],
) -> Result<Option<(A, B)>, NoMemory>
    ensures { IfOk result (λ o. MatchOption o (TwoCells A.converts B.converts cells.now → ⊥)
        (λ x. TwoCells (λ v. A.becomes v x.0) (λ v. B.becomes v x.1) cells.now)) }
{
    let [a, b] = cells else {
        return Ok(None);
    };
    converted_pair(alloc, a, b)
}

impl<A: FromValue + Drop, B: FromValue> FromRow for (A, B) {
    ghost row_converts = { λ r. TwoCells A.converts B.converts r.cells };

    ghost row_becomes = { λ r x. TwoCells (λ v. A.becomes v x.0) (λ v. B.becomes v x.1) r.cells };

    ghost only_what_converts = { λ r x h. two_convert A.converts A.becomes A.only_what_converts
        B.converts B.becomes B.only_what_converts r.cells x.0 x.1 h };

    fn from_row_opt(alloc: Global, row: Row) -> Result<(A, B), FromRowError> {
        match two_cells(alloc, row.cells()) {
            Ok(Some(converted)) => Ok(converted),
            Ok(None) => Err(FromRowError::Row(row)),
            Err(NoMemory) => Err(FromRowError::NoMemory),
        }
    }
}

fn three_cells<A: FromValue + Drop, B: FromValue + Drop, C: FromValue>(
    alloc: Global,
    cells: &[Value],
) -> Result<Option<(A, B, C)>, NoMemory>
    ensures { IfOk result (λ o. MatchOption o (ThreeCells A.converts B.converts C.converts cells.now → ⊥)
        (λ x. ThreeCells (λ v. A.becomes v x.0) (λ v. B.becomes v x.1) (λ v. C.becomes v x.2) cells.now)) }
{
    let [a, b, c] = cells else {
        return Ok(None);
    };
    let Some((a, b)) = converted_pair::<A, B>(alloc, a, b)? else {
        return Ok(None);
    };
    let Some(c) = converted::<C>(alloc, c)? else {
        return Ok(None);
    };
    Ok(Some((a, b, c)))
}

impl<A: FromValue + Drop, B: FromValue + Drop, C: FromValue> FromRow for (A, B, C) {
    ghost row_converts = { λ r. ThreeCells A.converts B.converts C.converts r.cells };

    ghost row_becomes = { λ r x. ThreeCells (λ v. A.becomes v x.0) (λ v. B.becomes v x.1) (λ v. C.becomes v x.2)
        r.cells };

    ghost only_what_converts = { λ r x h. three_convert A.converts A.becomes A.only_what_converts
        B.converts B.becomes B.only_what_converts C.converts C.becomes C.only_what_converts
        r.cells x.0 x.1 x.2 h };

    fn from_row_opt(alloc: Global, row: Row) -> Result<(A, B, C), FromRowError> {
        match three_cells(alloc, row.cells()) {
            Ok(Some(converted)) => Ok(converted),
            Ok(None) => Err(FromRowError::Row(row)),
            Err(NoMemory) => Err(FromRowError::NoMemory),
        }
    }
}

fn four_cells<A: FromValue + Drop, B: FromValue + Drop, C: FromValue + Drop, D: FromValue>(
    alloc: Global,
    cells: &[Value],
) -> Result<Option<(A, B, C, D)>, NoMemory>
    ensures { IfOk result (λ o. MatchOption o (FourCells A.converts B.converts C.converts D.converts cells.now → ⊥)
        (λ x. FourCells (λ v. A.becomes v x.0) (λ v. B.becomes v x.1) (λ v. C.becomes v x.2)
        (λ v. D.becomes v x.3) cells.now)) }
{
    let [a, b, c, d] = cells else {
        return Ok(None);
    };
    let Some((a, b)) = converted_pair::<A, B>(alloc, a, b)? else {
        return Ok(None);
    };
    let Some((c, d)) = converted_pair::<C, D>(alloc, c, d)? else {
        return Ok(None);
    };
    Ok(Some((a, b, c, d)))
}

impl<A: FromValue + Drop, B: FromValue + Drop, C: FromValue + Drop, D: FromValue> FromRow
    for (A, B, C, D) {
    ghost row_converts = { λ r. FourCells A.converts B.converts C.converts D.converts r.cells };

    ghost row_becomes = { λ r x. FourCells (λ v. A.becomes v x.0) (λ v. B.becomes v x.1) (λ v. C.becomes v x.2)
        (λ v. D.becomes v x.3) r.cells };

    ghost only_what_converts = { λ r x h. four_convert A.converts A.becomes A.only_what_converts
        B.converts B.becomes B.only_what_converts C.converts C.becomes C.only_what_converts
        D.converts D.becomes D.only_what_converts r.cells x.0 x.1 x.2 x.3 h };

    fn from_row_opt(alloc: Global, row: Row) -> Result<(A, B, C, D), FromRowError> {
        match four_cells(alloc, row.cells()) {
            Ok(Some(converted)) => Ok(converted),
            Ok(None) => Err(FromRowError::Row(row)),
            Err(NoMemory) => Err(FromRowError::NoMemory),
        }
    }
}
