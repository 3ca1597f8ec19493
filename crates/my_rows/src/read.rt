//! Reads of rows, which are converted.
ghost use Rattle.std.specs.Prelude.{◌≡◌, None};
ghost use Rattle.my_rows.specs.Gathers.{SetIs};
ghost use Rattle.my_rows.specs.Reads.{ItemIs};

use crate::calls::Calls;
use crate::error::QueryError;
use crate::gather::Gather;
use my_conn::NextAnswer;
use my_reading::Error;
use my_value::{FromRow, FromRowError};
use std::alloc::Global;

/// Reads the next row, and converts it. `None`: the set ended, or nothing is left.
pub fn next_item<T: FromRow, C: Calls>(conn: &mut C, alloc: Global) -> Result<Option<T>, QueryError>
    requires { (C.conn_of conn.old).pending ≡ None }
    ensures idle { (C.conn_of conn.new).pending ≡ None }
    ensures loans { C.loans_of conn.new ≡ C.loans_of conn.old }
    ensures item { ItemIs C.L.looks T.row_converts T.row_becomes (C.conn_of conn.old) (C.conn_of conn.new) result }
{
    match conn.next_row(alloc) {
        Ok(NextAnswer::Row(row)) => match T::from_row_opt(alloc, row) {
            Ok(item) => return Ok(Some(item)),
            Err(FromRowError::Row(back)) => return Err(QueryError::FromRow(back)),
            Err(FromRowError::NoMemory) => return Err(QueryError::Client(Error::NoMemory)),
        },
        Ok(NextAnswer::SetEnd) => return Ok(None),
        Ok(NextAnswer::NoSet) => return Ok(None),
        Err(error) => return Err(QueryError::Client(error)),
    }
}

/// Reads the rows of the set up to its end, and gathers what they become. A set of 2^64 rows is refused as out of
/// memory.
pub fn read_set<T: FromRow, G: Gather<T> + Drop, C: Calls>(
    conn: &mut C,
    alloc: Global,
    start: G,
) -> Result<G, QueryError>
    requires idle { (C.conn_of conn.old).pending ≡ None }
    requires ready { G.ready start }
    ensures idle { (C.conn_of conn.new).pending ≡ None }
    ensures loans { C.loans_of conn.new ≡ C.loans_of conn.old }
    ensures set { SetIs C.L.looks T.row_converts T.row_becomes G.takes start
        (C.conn_of conn.old) (C.conn_of conn.new) result }
{
    let mut gathered = start;
    'rows: for _ in 0..u64::MAX {
        match next_item::<T, C>(conn, alloc) {
            Ok(Some(item)) => match gathered.take(item) {
                Ok(more) => gathered = more,
                Err(_) => return Err(QueryError::Client(Error::NoMemory)),
            },
            Ok(None) => return Ok(gathered),
            Err(error) => return Err(error),
        }
    }
    Err(QueryError::Client(Error::NoMemory))
}
