//! The rows of one set, read one at a time of a result that the stream owns.
ghost use Rattle.std.specs.Prelude.{◌≡◌, IfOk, None};
ghost use Rattle.std.specs.Option.{option_copied};
ghost use Rattle.my_conn.specs.Facts.{affected_by, id_of, info_by, insert_by, warnings_by};
ghost use Rattle.my_results.specs.Streams.{CollectsLeft, ItemLeftIs, OwnStreamIs};
ghost use Rattle.my_results.specs.Taken.{TakesSet};

use crate::result::QueryResult;
use crate::stream::{collect_left, next_left};
use crate::taken::{TakenSet, take_next};
use my_frame::NoMemory;
use my_reading::{Error, SetColumns};
use my_reply::{Column, OkPacket};
use my_rows::{Calls, Lent, QueryError};
use my_value::FromRow;
use std::alloc::Global;
use std::marker::PhantomData;

/// The rows of one set of a result that is the stream's own. A stream that is let go before its end leaves the rest
/// of the set, which the next command of the holder passes over.
#[derive(Drop)]
pub struct ResultSetStream<C, T, P> {
    pub result: QueryResult<C, P>,
    pub set: TakenSet,
    pub item: PhantomData<T>,
}

impl<C: Calls + Drop, P: Drop> QueryResult<C, P> {
    /// A stream of the set that is read, or of the next one; the rest of a set that an earlier stream took is passed
    /// over first. `None`: nothing is left.
    pub fn stream_and_drop<T: FromRow>(
        self,
        alloc: Global,
    ) -> Result<Option<ResultSetStream<C, T, P>>, Error>
        requires { (C.conn_of self.holder).pending ≡ None }
        ensures { OwnStreamIs (λ c. C.conn_of c) (TakesSet C.L.looks (C.conn_of self.holder)) result }
    {
        let mut result = self;
        match take_next(&mut result.holder, alloc) {
            Ok(set) if set.ended => {
                drop(set);
                Ok(None)
            }
            Ok(set) => Ok(Some(ResultSetStream {
                result,
                set,
                item: PhantomData,
            })),
            Err(error) => Err(error),
        }
    }
}

impl<'a, C, T, P> ResultSetStream<Lent<'a, C>, T, P> {
    /// The rows of a set that was taken at this holder, which is lent until this is let go.
    pub fn of(holder: &'a mut C, set: TakenSet) -> ResultSetStream<Lent<'a, C>, T, P>
        ensures same { result.result.holder.holder.ghost_name ≡ holder.entry.ghost_name }
        ensures value { result.result.holder.holder.now ≡ holder.old }
        ensures set { result.set ≡ set }
    {
        ResultSetStream {
            result: QueryResult {
                holder: Lent { holder },
                protocol: PhantomData,
            },
            set,
            item: PhantomData,
        }
    }
}

impl<C: Calls, T: FromRow, P> ResultSetStream<C, T, P> {
    /// What the next row becomes, as in `next_left`.
    pub fn next(&mut self, alloc: Global) -> Result<Option<T>, QueryError>
        requires { (C.conn_of self.old.result.holder).pending ≡ None }
        ensures idle { (C.conn_of self.new.result.holder).pending ≡ None }
        ensures loans { C.loans_of self.new.result.holder ≡ C.loans_of self.old.result.holder }
        ensures item { ItemLeftIs C.L.looks T.row_converts T.row_becomes self.old.set.ended self.new.set.ended
            (C.conn_of self.old.result.holder) (C.conn_of self.new.result.holder) result }
        ensures columns { self.new.set.columns ≡ self.old.set.columns }
        ensures ok { self.new.set.ok ≡ self.old.set.ok }
    {
        next_left::<T, C>(&mut self.result.holder, alloc, &mut self.set.ended)
    }
}

impl<C: Calls, T: FromRow + Drop, P> ResultSetStream<C, T, P> {
    /// What the rows that are left of the set become, as in `collect_left`.
    pub fn collect(&mut self, alloc: Global) -> Result<Vec<T>, QueryError>
        requires { (C.conn_of self.old.result.holder).pending ≡ None }
        ensures idle { (C.conn_of self.new.result.holder).pending ≡ None }
        ensures loans { C.loans_of self.new.result.holder ≡ C.loans_of self.old.result.holder }
        ensures left { CollectsLeft C.L.looks T.row_converts T.row_becomes self.old.set.ended self.new.set.ended
            (C.conn_of self.old.result.holder) (C.conn_of self.new.result.holder) result }
        ensures columns { self.new.set.columns ≡ self.old.set.columns }
        ensures ok { self.new.set.ok ≡ self.old.set.ok }
    {
        collect_left::<T, C>(&mut self.result.holder, alloc, &mut self.set.ended)
    }
}

// An id of 0 is none.
fn id_of(id: u64) -> Option<u64>
    ensures { result ≡ id_of id }
{
    if id == 0 { None } else { Some(id) }
}

impl<C, T, P> ResultSetStream<C, T, P> {
    /// Whether it ended: nothing more is read.
    pub fn is_terminated(&self) -> bool
        ensures { result ≡ self.now.set.ended }
    {
        self.set.ended
    }

    /// The columns of its set.
    pub fn columns_ref(&self) -> &[Column]
        ensures { result.now ≡ self.now.set.columns }
    {
        self.set.columns.as_slice()
    }

    /// Another holder of the columns of its set.
    pub fn columns(&self) -> Result<SetColumns, NoMemory>
        ensures { IfOk result (λ columns. columns ≡ self.now.set.columns) }
    {
        self.set.columns.share()
    }

    /// The connection's last OK as the set was taken; none after an ERR.
    pub fn ok_packet(&self) -> Option<&OkPacket>
        ensures { option_copied result ≡ self.now.set.ok }
    {
        self.set.ok.as_ref()
    }

    /// The number of rows that the statement changed, by that OK; 0 without one.
    pub fn affected_rows(&self) -> u64
        ensures { result ≡ affected_by self.now.set.ok }
    {
        match &self.set.ok {
            None => 0,
            Some(ok) => ok.affected,
        }
    }

    /// The id that the server generated for the last new row, by that OK; none where it generated none, or without an
    /// OK.
    pub fn last_insert_id(&self) -> Option<u64>
        ensures { result ≡ insert_by self.now.set.ok }
    {
        match &self.set.ok {
            None => None,
            Some(ok) => id_of(ok.insert),
        }
    }

    /// The number of warnings, by that OK; 0 without one.
    pub fn get_warnings(&self) -> u16
        ensures { result ≡ warnings_by self.now.set.ok }
    {
        match &self.set.ok {
            None => 0,
            Some(ok) => ok.warnings,
        }
    }

    /// That OK's remark for people; empty without one.
    pub fn info(&self) -> &[u8]
        ensures { result.now ≡ info_by self.now.set.ok }
    {
        match &self.set.ok {
            None => &[],
            Some(ok) => ok.info.as_slice(),
        }
    }
}
