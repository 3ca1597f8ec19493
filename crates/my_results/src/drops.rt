//! A set that is gathered in one call each, after which the rest of the answer is dropped.
ghost use Rattle.std.specs.Prelude.{◌≡◌, None};
ghost use Rattle.my_reading.specs.declared.call.Call.TheVariants as calls;
ghost use Rattle.my_reading.specs.declared.call.CallKind.TheVariants as kinds;
ghost use Rattle.my_conn.specs.Drives.{DoneIs};
ghost use Rattle.my_results.specs.Sets.{CollectsSet, DropsAfter, FoldsSet, MapsSet, RunsSet, TriesSet};

use crate::result::QueryResult;
use crate::sets::{collect_set, fold_set, map_set, run_set, try_set};
use my_reading::Error;
use my_rows::{Calls, Lent, QueryError, drop_after};
use my_value::{FromRow, FromRowError, Row};
use std::alloc::Global;

impl<'a, C: Calls, P: Drop> QueryResult<Lent<'a, C>, P> {
    /// Drops what is left.
    pub fn drop_result(self, alloc: Global) -> Result<(), Error>
        requires { (C.conn_of self.holder.holder.now).pending ≡ None }
        ensures idle { (C.conn_of self.exit.0.0.now).pending ≡ None }
        ensures loans { C.loans_of self.exit.0.0.now ≡ C.loans_of self.entry.holder.holder.now }
        ensures done { DoneIs C.L.looks kinds.DropResult calls.DropResult
            (C.conn_of self.entry.holder.holder.now) (C.conn_of self.exit.0.0.now) result }
    {
        let holder = &mut *self.holder.holder;
        holder.drop_rest(alloc)
    }

    /// As `for_each`; then the rest of the answer is dropped. After an error nothing more is read.
    pub fn for_each_and_drop<F: FnMut(Row)>(self, alloc: Global, f: F) -> Result<(), QueryError>
        requires idle { (C.conn_of self.holder.holder.now).pending ≡ None }
        requires callable { F.IsAlwaysCallable f }
        ensures idle { (C.conn_of self.exit.0.0.now).pending ≡ None }
        ensures loans { C.loans_of self.exit.0.0.now ≡ C.loans_of self.entry.holder.holder.now }
        ensures set { DropsAfter C.L.looks (RunsSet C.L.looks (λ p x v q. F.step p x v q) f)
            (C.conn_of self.entry.holder.holder.now) (C.conn_of self.exit.0.0.now) result }
    {
        let holder = &mut *self.holder.holder;
        let read = run_set::<F, C>(holder, alloc, f);
        drop_after(holder, alloc, read)
    }

    /// As `map`; then the rest of the answer is dropped. After an error nothing more is read.
    pub fn map_and_drop<U: Drop, F: FnMut(Row) -> U>(
        self,
        alloc: Global,
        f: F,
    ) -> Result<Vec<U>, QueryError>
        requires idle { (C.conn_of self.holder.holder.now).pending ≡ None }
        requires callable { F.IsAlwaysCallable f }
        ensures idle { (C.conn_of self.exit.0.0.now).pending ≡ None }
        ensures loans { C.loans_of self.exit.0.0.now ≡ C.loans_of self.entry.holder.holder.now }
        ensures set { DropsAfter C.L.looks (MapsSet C.L.looks (λ p x v q. F.step p x v q) f)
            (C.conn_of self.entry.holder.holder.now) (C.conn_of self.exit.0.0.now) result }
    {
        let holder = &mut *self.holder.holder;
        let read = map_set::<U, F, C>(holder, alloc, f);
        drop_after(holder, alloc, read)
    }

    /// As `reduce`; then the rest of the answer is dropped. After an error nothing more is read.
    pub fn reduce_and_drop<T: FromRow, U: Drop, F: FnMut(U, T) -> U>(
        self,
        alloc: Global,
        init: U,
        f: F,
    ) -> Result<U, QueryError>
        requires idle { (C.conn_of self.holder.holder.now).pending ≡ None }
        requires callable { F.IsAlwaysCallable f }
        ensures idle { (C.conn_of self.exit.0.0.now).pending ≡ None }
        ensures loans { C.loans_of self.exit.0.0.now ≡ C.loans_of self.entry.holder.holder.now }
        ensures set { DropsAfter C.L.looks
            (FoldsSet C.L.looks T.row_converts T.row_becomes (λ p x y v q. F.step p x y v q) init f)
            (C.conn_of self.entry.holder.holder.now) (C.conn_of self.exit.0.0.now) result }
    {
        let holder = &mut *self.holder.holder;
        let read = fold_set::<T, U, F, C>(holder, alloc, init, f);
        drop_after(holder, alloc, read)
    }

    /// As `collect`; then the rest of the answer is dropped. After an error nothing more is read.
    pub fn collect_and_drop<T: FromRow + Drop>(self, alloc: Global) -> Result<Vec<T>, QueryError>
        requires { (C.conn_of self.holder.holder.now).pending ≡ None }
        ensures idle { (C.conn_of self.exit.0.0.now).pending ≡ None }
        ensures loans { C.loans_of self.exit.0.0.now ≡ C.loans_of self.entry.holder.holder.now }
        ensures set { DropsAfter C.L.looks (CollectsSet C.L.looks T.row_converts T.row_becomes)
            (C.conn_of self.entry.holder.holder.now) (C.conn_of self.exit.0.0.now) result }
    {
        let holder = &mut *self.holder.holder;
        let read = collect_set::<T, C>(holder, alloc);
        drop_after(holder, alloc, read)
    }

    /// As `try_collect`; then the rest of the answer is dropped. After an error nothing more is read.
    pub fn try_collect_and_drop<T: FromRow + Drop>(
        self,
        alloc: Global,
    ) -> Result<Vec<Result<T, FromRowError>>, QueryError>
        requires { (C.conn_of self.holder.holder.now).pending ≡ None }
        ensures idle { (C.conn_of self.exit.0.0.now).pending ≡ None }
        ensures loans { C.loans_of self.exit.0.0.now ≡ C.loans_of self.entry.holder.holder.now }
        ensures set { DropsAfter C.L.looks (TriesSet C.L.looks T.row_converts T.row_becomes)
            (C.conn_of self.entry.holder.holder.now) (C.conn_of self.exit.0.0.now) result }
    {
        let holder = &mut *self.holder.holder;
        let read = try_set::<T, C>(holder, alloc);
        drop_after(holder, alloc, read)
    }
}
