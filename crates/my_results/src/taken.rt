//! A set that a stream took, and what is known of it.
ghost use Rattle.std.specs.Prelude.{◌≡◌, IfOk, None};
ghost use Rattle.my_results.specs.Taken.{HeadIs, TakesSet};
ghost use Rattle.my_results.specs.Unread.{next_columns};

use my_conn::Conn;
use my_frame::NoMemory;
use my_reading::{Error, SetColumns};
use my_reply::OkPacket;
use my_rows::Calls;
use std::alloc::Global;

/// A set that a stream took: its columns, and the connection's last OK, as it was taken.
#[derive(Drop)]
pub struct TakenSet {
    pub columns: SetColumns,
    pub ok: Option<OkPacket>,
    /// The end was read, or a read failed, or there was no set: nothing more is read.
    pub ended: bool,
}

// The columns of the set that is next at this connection.
fn columns_of<L>(alloc: Global, conn: &Conn<L>) -> Result<SetColumns, NoMemory>
    ensures { IfOk result (λ r. r ≡ next_columns conn.now) }
{
    match conn.unread_columns() {
        None => SetColumns::new(alloc),
        Some(columns) => columns.share(),
    }
}

// A copy of the last OK.
fn ok_of<L>(alloc: Global, conn: &Conn<L>) -> Result<Option<OkPacket>, NoMemory>
    ensures { IfOk result (λ r. r ≡ conn.now.seen.stand.facts.ok) }
{
    match conn.last_ok_packet() {
        None => Ok(None),
        Some(ok) => Ok(Some(ok.copy(alloc)?)),
    }
}

// The set that was taken at this connection.
fn set_of<L>(alloc: Global, conn: &Conn<L>, ended: bool) -> Result<TakenSet, NoMemory>
    ensures head { IfOk result (λ set. HeadIs set conn.now) }
    ensures ended { IfOk result (λ set. set.ended ≡ ended) }
{
    let columns = columns_of(alloc, conn)?;
    match ok_of(alloc, conn) {
        Ok(ok) => Ok(TakenSet { columns, ok, ended }),
        Err(NoMemory) => {
            drop(columns);
            Err(NoMemory)
        }
    }
}

/// Takes the set that is read, or the next one, for a stream. It ended where nothing is left.
pub fn take_next<C: Calls>(conn: &mut C, alloc: Global) -> Result<TakenSet, Error>
    requires { (C.conn_of conn.old).pending ≡ None }
    ensures idle { (C.conn_of conn.new).pending ≡ None }
    ensures loans { C.loans_of conn.new ≡ C.loans_of conn.old }
    ensures takes { TakesSet C.L.looks (C.conn_of conn.old) (C.conn_of conn.new) result }
{
    match conn.take_set(alloc) {
        Ok(taken) => match set_of(alloc, conn.conn(), !taken) {
            Ok(set) => return Ok(set),
            Err(NoMemory) => return Err(Error::NoMemory),
        },
        Err(error) => return Err(error),
    }
}
