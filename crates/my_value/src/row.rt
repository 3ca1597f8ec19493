//! A row of a result.

ghost use Rattle.std.specs.Prelude.{◌≡◌, ◌<◌, ◌==◌, IfOk, IsErrOf, MatchResult, Option, length, slice_get, slice_set};
ghost use Rattle.std.specs.Option.{option_copied, option_map};
ghost use Rattle.my_frame.specs.Reading.{GivesAs};
ghost use Rattle.my_value.specs.RowParts.{columns_of};

use crate::value::Value;
use my_frame::{NoMemory, ReadError, copy_items};
use my_reply::Column;
use std::alloc::Global;
use std::marker::Model;
use std::mem;
use std::sync::Arc;

/// The columns of a result, which its rows share.
pub type Columns = Arc<Vec<Column>>;

/// The cells of a row, with the columns of its result.
///
/// Contracts see it as the list of its cells and the list of its columns.
#[derive(Debug, Drop)]
pub struct Row {
    values: Vec<Value>,
    columns: Columns,
}

impl Model for Row {
    ghost use Rattle.my_value.specs.RowParts.{RowParts, columns_of};

    ghost Value = { RowParts };

    ghost view = { λ r. record { cells = r.values.items; columns = columns_of r.columns } };
}

impl PartialEq for Row {
    ghost use Rattle.my_reply.specs.contracts.column.ColumnPartialEq.TheImpl.Laws as of_column;
    ghost use Rattle.my_value.specs.contracts.value.ValuePartialEq.TheImpl.Laws as of_value;
    ghost use Rattle.std.specs.Cmp;
    ghost use Rattle.std.specs.Cmp.Lexicographic.{lists_per, pointwise};
    ghost use Rattle.std.specs.Ordering.{eq_of_both, on};

    ghost eq = { eq_of_both (on (λ r. r.cells) (pointwise ⟦<Value as PartialEq>⟧.eq))
        (on (λ r. r.columns) (pointwise ⟦<Column as PartialEq>⟧.eq)) };

    ghost laws = { Cmp.and_per (Cmp.on_per (λ r. r.cells) (lists_per of_value.laws-law))
        (Cmp.on_per (λ r. r.columns) (lists_per of_column.laws-law)) };

    fn eq(&self, other: &Row) -> bool {
        self.values == other.values && self.columns_ref() == other.columns_ref()
    }
}

impl Eq for Row {
    ghost use Rattle.my_reply.specs.contracts.column.ColumnEq.TheImpl.Laws as of_column;
    ghost use Rattle.my_value.specs.contracts.value.ValueEq.TheImpl.Laws as of_value;
    ghost use Rattle.std.specs.Cmp;
    ghost use Rattle.std.specs.Cmp.Lexicographic.{lists_equiv};

    ghost laws = { Cmp.and_equiv (Cmp.on_equiv (λ r. r.cells) (lists_equiv of_value.laws-law))
        (Cmp.on_equiv (λ r. r.columns) (lists_equiv of_column.laws-law)) };
}

// The number of columns.
pub(crate) fn column_count(columns: &Columns) -> usize
    ensures { result ≡ length (columns_of columns.now) }
{
    columns.len()
}

// The columns as a slice.
pub(crate) fn column_list(columns: &Columns) -> &[Column]
    ensures { result.now ≡ columns_of columns.now }
{
    columns.as_slice()
}

/// The row of these cells, or why there is none.
pub(crate) fn row_or_error(
    cells: Result<Option<Vec<Value>>, NoMemory>,
    columns: &Columns,
) -> Result<Row, ReadError>
    ensures cells { MatchResult cells (λ o. GivesAs (λ r. r.cells) result (option_map (λ v. v.items) o))
        (λ _. IsErrOf result ReadError.NoMemory) }
    ensures columns { IfOk result (λ r. r.columns ≡ columns_of columns.now) }
{
    match cells {
        Ok(Some(cells)) => Ok(Row::new(cells, Arc::try_clone(columns)?)),
        Ok(None) => Err(ReadError::Malformed),
        Err(NoMemory) => Err(ReadError::NoMemory),
    }
}

impl Row {
    /// These cells of a result with these columns.
    pub fn new(values: Vec<Value>, columns: Columns) -> Row
        ensures cells { result.cells ≡ values.items }
        ensures columns { result.columns ≡ columns_of columns }
    {
        Row { values, columns }
    }

    /// The number of cells.
    pub fn len(&self) -> usize
        ensures { result ≡ length self.now.cells }
    {
        self.values.len()
    }

    pub fn is_empty(&self) -> bool
        ensures { result ≡ (length self.now.cells == 0) }
    {
        self.values.is_empty()
    }

    pub fn columns_ref(&self) -> &[Column]
        ensures { result.now ≡ self.now.columns }
    {
        column_list(&self.columns)
    }

    /// The cell at an index, counted from 0.
    pub fn as_ref(&self, index: usize) -> Option<&Value>
        ensures { option_copied result ≡ slice_get self.now.cells index }
    {
        self.values.get(index)
    }

    /// Takes out the cell at an index, which is `NULL` afterwards.
    pub fn take(&mut self, index: usize) -> Option<Value>
        ensures value { result ≡ slice_get self.old.cells index }
        ensures cells { self.new.cells ≡ slice_set self.old.cells index Value.NULL }
        ensures columns { self.new.columns ≡ self.old.columns }
    {
        if index >= self.values.len() {
            return None;
        }
        Some(mem::replace(&mut self.values[index], Value::NULL))
    }

    /// The cells, borrowed.
    pub(crate) fn cells(&self) -> &[Value]
        ensures { result.now ≡ self.now.cells }
    {
        self.values.as_slice()
    }

    /// Puts a cell in the place of another.
    pub(crate) fn put(&mut self, index: usize, value: Value)
        requires { index < length self.old.cells }
        ensures cells { self.new.cells ≡ slice_set self.old.cells index value }
        ensures columns { self.new.columns ≡ self.old.columns }
    {
        self.values[index] = value;
    }

    /// The cells.
    pub fn unwrap(self) -> Vec<Value>
        ensures { result.items ≡ self.cells }
    {
        self.values
    }

    /// A second row like this one, which shares its columns.
    pub fn copy(&self, alloc: Global) -> Result<Row, NoMemory>
        ensures { IfOk result (λ r. r ≡ self.now) }
    {
        let values = copy_items(alloc, self.values.as_slice())?;
        let columns = Arc::try_clone(&self.columns)?;
        Ok(Row { values, columns })
    }
}
