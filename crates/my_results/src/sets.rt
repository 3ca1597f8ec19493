//! The rows that are left of a set, gathered in one call each.
ghost use Rattle.std.specs.Prelude.{◌≡◌, None};
ghost use Rattle.my_results.specs.Sets.{CollectsSet, FoldsSet, MapsSet, RunsSet, TriesSet};

use crate::gather::{Each, Tried};
use crate::result::QueryResult;
use my_rows::{Calls, Collected, Folded, Mapped, QueryError, read_set};
use my_value::{FromRow, FromRowError, Row};
use std::alloc::Global;

// Calls the function with each row.
pub(crate) fn run_set<F: FnMut(Row), C: Calls>(
    conn: &mut C,
    alloc: Global,
    f: F,
) -> Result<(), QueryError>
    requires idle { (C.conn_of conn.old).pending ≡ None }
    requires callable { F.IsAlwaysCallable f }
    ensures idle { (C.conn_of conn.new).pending ≡ None }
    ensures loans { C.loans_of conn.new ≡ C.loans_of conn.old }
    ensures set { RunsSet C.L.looks (λ p x v q. F.step p x v q) f (C.conn_of conn.old) (C.conn_of conn.new) result }
{
    match read_set::<Row, Each<F>, C>(conn, alloc, Each { f }) {
        Ok(each) => {
            drop(each);
            return Ok(());
        }
        Err(error) => return Err(error),
    }
}

// What the function returns of each row.
pub(crate) fn map_set<U: Drop, F: FnMut(Row) -> U, C: Calls>(
    conn: &mut C,
    alloc: Global,
    f: F,
) -> Result<Vec<U>, QueryError>
    requires idle { (C.conn_of conn.old).pending ≡ None }
    requires callable { F.IsAlwaysCallable f }
    ensures idle { (C.conn_of conn.new).pending ≡ None }
    ensures loans { C.loans_of conn.new ≡ C.loans_of conn.old }
    ensures set { MapsSet C.L.looks (λ p x v q. F.step p x v q) f (C.conn_of conn.old) (C.conn_of conn.new) result }
{
    let start = Mapped {
        items: Vec::new(alloc),
        f,
    };
    match read_set::<Row, Mapped<U, F>, C>(conn, alloc, start) {
        Ok(mapped) => return Ok(mapped.items),
        Err(error) => return Err(error),
    }
}

// The function folded over what the rows become.
pub(crate) fn fold_set<T: FromRow, U: Drop, F: FnMut(U, T) -> U, C: Calls>(
    conn: &mut C,
    alloc: Global,
    init: U,
    f: F,
) -> Result<U, QueryError>
    requires idle { (C.conn_of conn.old).pending ≡ None }
    requires callable { F.IsAlwaysCallable f }
    ensures idle { (C.conn_of conn.new).pending ≡ None }
    ensures loans { C.loans_of conn.new ≡ C.loans_of conn.old }
    ensures set { FoldsSet C.L.looks T.row_converts T.row_becomes (λ p x y v q. F.step p x y v q) init f
        (C.conn_of conn.old) (C.conn_of conn.new) result }
{
    let start = Folded { value: init, f };
    match read_set::<T, Folded<U, F>, C>(conn, alloc, start) {
        Ok(folded) => return Ok(folded.value),
        Err(error) => return Err(error),
    }
}

// What the rows become.
pub(crate) fn collect_set<T: FromRow + Drop, C: Calls>(
    conn: &mut C,
    alloc: Global,
) -> Result<Vec<T>, QueryError>
    requires { (C.conn_of conn.old).pending ≡ None }
    ensures idle { (C.conn_of conn.new).pending ≡ None }
    ensures loans { C.loans_of conn.new ≡ C.loans_of conn.old }
    ensures set { CollectsSet C.L.looks T.row_converts T.row_becomes (C.conn_of conn.old) (C.conn_of conn.new) result }
{
    let start = Collected {
        items: Vec::new(alloc),
    };
    match read_set::<T, Collected<T>, C>(conn, alloc, start) {
        Ok(collected) => return Ok(collected.items),
        Err(error) => return Err(error),
    }
}

// What the rows become, and those that don't convert.
pub(crate) fn try_set<T: FromRow + Drop, C: Calls>(
    conn: &mut C,
    alloc: Global,
) -> Result<Vec<Result<T, FromRowError>>, QueryError>
    requires { (C.conn_of conn.old).pending ≡ None }
    ensures idle { (C.conn_of conn.new).pending ≡ None }
    ensures loans { C.loans_of conn.new ≡ C.loans_of conn.old }
    ensures set { TriesSet C.L.looks T.row_converts T.row_becomes (C.conn_of conn.old) (C.conn_of conn.new) result }
{
    let start = Tried {
        alloc,
        items: Vec::new(alloc),
    };
    match read_set::<Row, Tried<T>, C>(conn, alloc, start) {
        Ok(tried) => return Ok(tried.items),
        Err(error) => return Err(error),
    }
}

impl<C: Calls, P> QueryResult<C, P> {
    /// Calls the function with each row that is left of the set, in order.
    pub fn for_each<F: FnMut(Row)>(&mut self, alloc: Global, f: F) -> Result<(), QueryError>
        requires idle { (C.conn_of self.old.holder).pending ≡ None }
        requires callable { F.IsAlwaysCallable f }
        ensures idle { (C.conn_of self.new.holder).pending ≡ None }
        ensures loans { C.loans_of self.new.holder ≡ C.loans_of self.old.holder }
        ensures set { RunsSet C.L.looks (λ p x v q. F.step p x v q) f
            (C.conn_of self.old.holder) (C.conn_of self.new.holder) result }
    {
        run_set::<F, C>(&mut self.holder, alloc, f)
    }

    /// What the function returns of each row that is left of the set, in order.
    pub fn map<U: Drop, F: FnMut(Row) -> U>(
        &mut self,
        alloc: Global,
        f: F,
    ) -> Result<Vec<U>, QueryError>
        requires idle { (C.conn_of self.old.holder).pending ≡ None }
        requires callable { F.IsAlwaysCallable f }
        ensures idle { (C.conn_of self.new.holder).pending ≡ None }
        ensures loans { C.loans_of self.new.holder ≡ C.loans_of self.old.holder }
        ensures set { MapsSet C.L.looks (λ p x v q. F.step p x v q) f
            (C.conn_of self.old.holder) (C.conn_of self.new.holder) result }
    {
        map_set::<U, F, C>(&mut self.holder, alloc, f)
    }

    /// Folds the function over what the rows that are left of the set become, in order, from `init`.
    ///
    /// A row that doesn't convert ends it: that row is in the error, and the rest of the answer is still to be read.
    pub fn reduce<T: FromRow, U: Drop, F: FnMut(U, T) -> U>(
        &mut self,
        alloc: Global,
        init: U,
        f: F,
    ) -> Result<U, QueryError>
        requires idle { (C.conn_of self.old.holder).pending ≡ None }
        requires callable { F.IsAlwaysCallable f }
        ensures idle { (C.conn_of self.new.holder).pending ≡ None }
        ensures loans { C.loans_of self.new.holder ≡ C.loans_of self.old.holder }
        ensures set { FoldsSet C.L.looks T.row_converts T.row_becomes (λ p x y v q. F.step p x y v q) init f
            (C.conn_of self.old.holder) (C.conn_of self.new.holder) result }
    {
        fold_set::<T, U, F, C>(&mut self.holder, alloc, init, f)
    }

    /// What the rows that are left of the set become, in order.
    ///
    /// A row that doesn't convert ends it, as in `reduce`.
    pub fn collect<T: FromRow + Drop>(&mut self, alloc: Global) -> Result<Vec<T>, QueryError>
        requires { (C.conn_of self.old.holder).pending ≡ None }
        ensures idle { (C.conn_of self.new.holder).pending ≡ None }
        ensures loans { C.loans_of self.new.holder ≡ C.loans_of self.old.holder }
        ensures set { CollectsSet C.L.looks T.row_converts T.row_becomes
            (C.conn_of self.old.holder) (C.conn_of self.new.holder) result }
    {
        collect_set::<T, C>(&mut self.holder, alloc)
    }

    /// What the rows that are left of the set become, in order. In place of one that doesn't convert is the row itself.
    pub fn try_collect<T: FromRow + Drop>(
        &mut self,
        alloc: Global,
    ) -> Result<Vec<Result<T, FromRowError>>, QueryError>
        requires { (C.conn_of self.old.holder).pending ≡ None }
        ensures idle { (C.conn_of self.new.holder).pending ≡ None }
        ensures loans { C.loans_of self.new.holder ≡ C.loans_of self.old.holder }
        ensures set { TriesSet C.L.looks T.row_converts T.row_becomes
            (C.conn_of self.old.holder) (C.conn_of self.new.holder) result }
    {
        try_set::<T, C>(&mut self.holder, alloc)
    }
}
