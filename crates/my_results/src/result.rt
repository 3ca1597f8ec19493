//! The result of a query or of an executed statement.
ghost use Rattle.std.specs.Prelude.{◌≡◌, None};
ghost use Rattle.my_conn.specs.Facts.{affected_by, info_by, insert_by, warnings_by};
ghost use Rattle.my_results.specs.Sets.{RowIs};

use my_conn::NextAnswer;
use my_reading::Error;
use my_rows::{Calls, Lent};
use my_value::Row;
use std::alloc::Global;
use std::marker::PhantomData;

/// Cells are texts, as in the answer to a query.
#[derive(Drop)]
pub struct TextProtocol;

/// Cells have types, as in the answer to an executed statement.
#[derive(Drop)]
pub struct BinaryProtocol;

/// What is left of an answer, at what holds its connection. What isn't read of it is passed over by the next command.
#[derive(Drop)]
pub struct QueryResult<C, P> {
    pub holder: C,
    pub protocol: PhantomData<P>,
}

impl<C, P> QueryResult<C, P> {
    /// What is left of the answer at this holder.
    pub fn new(holder: C) -> QueryResult<C, P>
        ensures { result.holder ≡ holder }
    {
        QueryResult {
            holder,
            protocol: PhantomData,
        }
    }
}

impl<C: Calls, P> QueryResult<C, P> {
    /// Reads the next row. `None`: the set ended, or nothing is left. After the end of a set the next one is read.
    pub fn next(&mut self, alloc: Global) -> Result<Option<Row>, Error>
        requires { (C.conn_of self.old.holder).pending ≡ None }
        ensures idle { (C.conn_of self.new.holder).pending ≡ None }
        ensures loans { C.loans_of self.new.holder ≡ C.loans_of self.old.holder }
        ensures row { RowIs C.L.looks (C.conn_of self.old.holder) (C.conn_of self.new.holder) result }
    {
        match self.holder.next_row(alloc) {
            Ok(NextAnswer::Row(row)) => return Ok(Some(row)),
            Ok(NextAnswer::SetEnd) => return Ok(None),
            Ok(NextAnswer::NoSet) => return Ok(None),
            Err(error) => return Err(error),
        }
    }

    /// The id that the server generated for the last new row, by the last OK; none where it generated none,
    /// or without an OK.
    pub fn last_insert_id(&self) -> Option<u64>
        ensures { result ≡ insert_by (C.conn_of self.now.holder).seen.stand.facts.ok }
    {
        self.holder.conn().last_insert_id()
    }

    /// The number of rows that the statement changed, by the last OK; 0 without one.
    pub fn affected_rows(&self) -> u64
        ensures { result ≡ affected_by (C.conn_of self.now.holder).seen.stand.facts.ok }
    {
        self.holder.conn().affected_rows()
    }

    /// The number of warnings, by the last OK; 0 without one.
    pub fn warnings(&self) -> u16
        ensures { result ≡ warnings_by (C.conn_of self.now.holder).seen.stand.facts.ok }
    {
        self.holder.conn().get_warnings()
    }

    /// The last OK's remark for people; empty without one.
    pub fn info(&self) -> &[u8]
        ensures { result.now ≡ info_by (C.conn_of self.now.holder).seen.stand.facts.ok }
    {
        self.holder.conn().info()
    }
}

impl<'a, C, P> QueryResult<Lent<'a, C>, P> {
    /// What is left of the answer at this holder, which is lent until this is let go.
    pub fn of(holder: &'a mut C) -> QueryResult<Lent<'a, C>, P>
        ensures same { result.holder.holder.ghost_name ≡ holder.entry.ghost_name }
        ensures value { result.holder.holder.now ≡ holder.old }
    {
        QueryResult {
            holder: Lent { holder },
            protocol: PhantomData,
        }
    }
}
