//! Conversion of a row.

ghost use Rattle.std.specs.Prelude.{◌≡◌, IfOk, IfErr};
ghost use Rattle.my_value.specs.RowConversions.{RefusesRow};

use crate::row::Row;
use crate::shown::ShownRow;
use my_frame::NoMemory;
use std::alloc::Global;
use std::fmt;

/// Why a row wasn't converted.
#[derive(Debug, Drop, PartialEq, Eq)]
pub enum FromRowError {
    /// The row, which doesn't convert to the type that was asked for.
    Row(Row),
    NoMemory,
}

impl fmt::Display for FromRowError {
    fn fmt<W: fmt::Write>(&self, f: &mut fmt::Formatter<W>) -> fmt::Result {
        match self {
            FromRowError::Row(row) => write!(f, "the row doesn't convert: {}", ShownRow(row)),
            FromRowError::NoMemory => f.write_str("out of memory"),
        }
    }
}

impl std::error::Error for FromRowError {}

impl FromRowError {
    /// A second value of the same error.
    pub fn copy(&self, alloc: Global) -> Result<FromRowError, NoMemory>
        ensures { IfOk result (λ copy. copy ≡ self.now) }
    {
        match self {
            FromRowError::Row(row) => Ok(FromRowError::Row(row.copy(alloc)?)),
            FromRowError::NoMemory => Ok(FromRowError::NoMemory),
        }
    }
}

/// A type that rows convert to.
pub trait FromRow: Sized {
    ghost use Rattle.my_value.specs.RowParts.{RowParts};

    /// The rows that convert.
    ghost row_converts: { RowParts → Type 0 };

    /// What a row becomes.
    ghost row_becomes: { RowParts → Self → Type 0 };

    /// The converted row; where it doesn't convert it is given back.
    fn from_row_opt(alloc: Global, row: Row) -> Result<Self, FromRowError>
        ensures converted { IfOk result (row_becomes row) }
        ensures refused { IfErr result (RefusesRow (row_converts row) row) };

    /// What becomes something converts.
    ghost only_what_converts: { (r : RowParts) (x : Self) → row_becomes r x → row_converts r };
}

/// Converts a row.
pub fn from_row<T: FromRow>(alloc: Global, row: Row) -> Result<T, FromRowError>
    ensures converted { IfOk result (T.row_becomes row) }
    ensures refused { IfErr result (RefusesRow (T.row_converts row) row) }
{
    T::from_row_opt(alloc, row)
}

impl FromRow for Row {
    ghost row_converts = { λ _. Unit {0} };

    ghost row_becomes = { λ r x. x ≡ r };

    ghost only_what_converts = { λ r x h. tt };

    fn from_row_opt(_alloc: Global, row: Row) -> Result<Row, FromRowError> {
        Ok(row)
    }
}
