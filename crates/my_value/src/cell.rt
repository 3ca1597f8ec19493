//! A cell of a payload, before memory is allocated for it.

ghost use Rattle.std.specs.Prelude.{◌≡◌, IfOk};
ghost use Rattle.my_value.specs.Cell.{value_of};

use crate::value::Value;
use my_frame::{Blob, NoMemory};
use std::alloc::Global;

/// A value that is still in the payload, or needs no memory.
#[derive(Drop)]
pub enum Cell<'a> {
    Lent(&'a [u8]),
    Plain(Value),
}

/// The cell's value, apart from the payload.
pub fn own(alloc: Global, cell: Cell<'_>) -> Result<Value, NoMemory>
    ensures { IfOk result (λ v. v ≡ value_of cell.entry) }
{
    match cell {
        Cell::Lent(text) => Ok(Value::Bytes(Blob::from_slice(alloc, text)?)),
        Cell::Plain(value) => Ok(value),
    }
}
