//! What the rows of a set are gathered into, where they are passed to a function, or may not convert.
ghost use Rattle.std.specs.Prelude.{◌≡◌, IfOk};
ghost use Rattle.my_results.specs.Gathers.{Runs, TriedIs, Tries};

use my_rows::Gather;
use my_value::{FromRow, FromRowError, Row};
use std::alloc::{AllocError, Global};

/// A function that is called with each row.
#[derive(Drop)]
pub struct Each<F> {
    pub f: F,
}

impl<F: FnMut(Row)> Gather<Row> for Each<F> {
    ghost ready = { λ s. F.IsAlwaysCallable s.f };

    ghost takes = { Runs (λ p x v q. F.step p x v q) };

    fn take(self, row: Row) -> Result<Each<F>, AllocError> {
        let Each { mut f } = self;
        f(row);
        Ok(Each { f })
    }
}

/// What the rows so far became; each row that doesn't convert is kept as it is.
#[derive(Drop)]
pub struct Tried<T> {
    pub(crate) alloc: Global,
    pub items: Vec<Result<T, FromRowError>>,
}

// What the row becomes, or the row itself where it doesn't convert.
fn item_or_row<T: FromRow>(alloc: Global, row: Row) -> Result<Result<T, FromRowError>, AllocError>
    ensures { IfOk result (TriedIs T.row_converts T.row_becomes row) }
{
    match T::from_row_opt(alloc, row) {
        Ok(item) => return Ok(Ok(item)),
        Err(FromRowError::Row(back)) => return Ok(Err(FromRowError::Row(back))),
        Err(FromRowError::NoMemory) => return Err(AllocError),
    }
}

impl<T: FromRow + Drop> Gather<Row> for Tried<T> {
    ghost use Rattle.std.specs.Prelude.{⊤};

    ghost ready = { λ s. ⊤ };

    ghost takes = { Tries T.row_converts T.row_becomes };

    fn take(self, row: Row) -> Result<Tried<T>, AllocError> {
        let Tried { alloc, mut items } = self;
        let made = item_or_row::<T>(alloc, row)?;
        items.push(made)?;
        Ok(Tried { alloc, items })
    }
}
