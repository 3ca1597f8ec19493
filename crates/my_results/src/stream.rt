//! The rows of one set, read one at a time.
ghost use Rattle.std.specs.Prelude.{◌≡◌, None};
ghost use Rattle.my_results.specs.Streams.{CollectsLeft, ItemLeftIs, StreamIs, ended_with, ends_stream};
ghost use Rattle.my_conn.specs.Streams.{StreamWaits};

use crate::result::QueryResult;
use crate::sets::collect_set;
use my_reading::Error;
use my_rows::{Calls, QueryError, next_item};
use my_value::FromRow;
use std::alloc::Global;
use std::marker::PhantomData;

/// The rows of one set of a result that is lent: the set is the stream's own, and ends where it ends. A stream that is
/// let go before leaves the rest of its set, which the next stream passes over.
#[derive(Drop)]
pub struct SetStream<'r, C, T, P> {
    pub over: &'r mut QueryResult<C, P>,
    /// The end was read, or a read failed: nothing more is read. A row that doesn't convert doesn't end it.
    pub ended: bool,
    pub item: PhantomData<T>,
}

impl<C: Calls, P> QueryResult<C, P> {
    /// A stream of the set that is read, or of the next one; the rest of a set that an earlier stream took is passed
    /// over first. `None`: nothing is left.
    pub fn stream<T: FromRow>(
        &mut self,
        alloc: Global,
    ) -> Result<Option<SetStream<'_, C, T, P>>, Error>
        requires { (C.conn_of self.old.holder).pending ≡ None }
        ensures stream { StreamIs (λ q. C.conn_of q.holder) self.entry.ghost_name
            (λ new r. StreamWaits C.L.looks (C.conn_of self.old.holder) new r) result }
    {
        match self.holder.take_set(alloc) {
            Ok(true) => Ok(Some(SetStream {
                over: self,
                ended: false,
                item: PhantomData,
            })),
            Ok(false) => Ok(None),
            Err(error) => Err(error),
        }
    }
}

// Whether a stream ends by this error.
fn ends_stream(error: &QueryError) -> bool
    ensures { result ≡ ends_stream error.now }
{
    match error {
        QueryError::Client(_) => true,
        QueryError::FromRow(_) => false,
    }
}

// Whether a stream ended whose rows were collected so.
fn ended_with<T>(collected: &Result<Vec<T>, QueryError>) -> bool
    ensures { result ≡ ended_with collected.now }
{
    match collected {
        Ok(_) => true,
        Err(error) => ends_stream(error),
    }
}

/// What the next row of a stream becomes, and whether the stream ended. `None`: it ended, and if it had before,
/// nothing is read. A row that doesn't convert is returned, and the stream goes on after it; every other error ends
/// it.
pub fn next_left<T: FromRow, C: Calls>(
    conn: &mut C,
    alloc: Global,
    ended: &mut bool,
) -> Result<Option<T>, QueryError>
    requires { (C.conn_of conn.old).pending ≡ None }
    ensures idle { (C.conn_of conn.new).pending ≡ None }
    ensures loans { C.loans_of conn.new ≡ C.loans_of conn.old }
    ensures item { ItemLeftIs C.L.looks T.row_converts T.row_becomes ended.old ended.new
        (C.conn_of conn.old) (C.conn_of conn.new) result }
{
    if *ended {
        return Ok(None);
    }
    match next_item::<T, C>(conn, alloc) {
        Ok(Some(item)) => return Ok(Some(item)),
        Ok(None) => {
            *ended = true;
            return Ok(None);
        }
        Err(error) => {
            *ended = ends_stream(&error);
            return Err(error);
        }
    }
}

/// What the rows that are left of a stream become, in order, and whether it ended: it did unless a row doesn't
/// convert, which is returned; the rows after that one are left.
pub fn collect_left<T: FromRow + Drop, C: Calls>(
    conn: &mut C,
    alloc: Global,
    ended: &mut bool,
) -> Result<Vec<T>, QueryError>
    requires { (C.conn_of conn.old).pending ≡ None }
    ensures idle { (C.conn_of conn.new).pending ≡ None }
    ensures loans { C.loans_of conn.new ≡ C.loans_of conn.old }
    ensures left { CollectsLeft C.L.looks T.row_converts T.row_becomes ended.old ended.new
        (C.conn_of conn.old) (C.conn_of conn.new) result }
{
    if *ended {
        return Ok(Vec::new(alloc));
    }
    let items = collect_set::<T, C>(conn, alloc);
    *ended = ended_with(&items);
    items
}

impl<'r, C: Calls, T: FromRow, P> SetStream<'r, C, T, P> {
    /// What the next row becomes, as in `next_left`.
    pub fn next(&mut self, alloc: Global) -> Result<Option<T>, QueryError>
        requires { (C.conn_of self.old.over.now.holder).pending ≡ None }
        ensures idle { (C.conn_of self.new.over.now.holder).pending ≡ None }
        ensures loans { C.loans_of self.new.over.now.holder ≡ C.loans_of self.old.over.now.holder }
        ensures same { self.new.over.ghost_name ≡ self.old.over.ghost_name }
        ensures item { ItemLeftIs C.L.looks T.row_converts T.row_becomes self.old.ended self.new.ended
            (C.conn_of self.old.over.now.holder) (C.conn_of self.new.over.now.holder) result }
    {
        next_left::<T, C>(&mut self.over.holder, alloc, &mut self.ended)
    }

    /// Whether it ended: nothing more is read.
    pub fn is_terminated(&self) -> bool
        ensures { result ≡ self.now.ended }
    {
        self.ended
    }
}

impl<'r, C: Calls, T: FromRow + Drop, P> SetStream<'r, C, T, P> {
    /// What the rows that are left of the set become, as in `collect_left`.
    pub fn collect(&mut self, alloc: Global) -> Result<Vec<T>, QueryError>
        requires { (C.conn_of self.old.over.now.holder).pending ≡ None }
        ensures idle { (C.conn_of self.new.over.now.holder).pending ≡ None }
        ensures loans { C.loans_of self.new.over.now.holder ≡ C.loans_of self.old.over.now.holder }
        ensures same { self.new.over.ghost_name ≡ self.old.over.ghost_name }
        ensures left { CollectsLeft C.L.looks T.row_converts T.row_becomes self.old.ended self.new.ended
            (C.conn_of self.old.over.now.holder) (C.conn_of self.new.over.now.holder) result }
    {
        collect_left::<T, C>(&mut self.over.holder, alloc, &mut self.ended)
    }
}
