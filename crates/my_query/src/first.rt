//! The first set of an answer, taken for a stream.
ghost use Rattle.std.specs.Prelude.{◌≡◌, None};
ghost use Rattle.my_query.specs.Starts.{StartIs};
ghost use Rattle.my_query.specs.Taken.{TakesAfter, TakesFirst};

use crate::starts::Starts;
use my_reading::Error;
use my_results::{TakenSet, take_next};
use my_rows::Calls;
use std::alloc::Global;

// Takes the first set of an answer that this call began.
fn take_begun<C: Calls>(
    conn: &mut C,
    alloc: Global,
    begun: Result<(), Error>,
) -> Result<TakenSet, Error>
    requires { (C.conn_of conn.old).pending ≡ None }
    ensures idle { (C.conn_of conn.new).pending ≡ None }
    ensures loans { C.loans_of conn.new ≡ C.loans_of conn.old }
    ensures takes { TakesAfter C.L.looks begun (C.conn_of conn.old) (C.conn_of conn.new) result }
{
    match begun {
        Ok(()) => return take_next(conn, alloc),
        Err(error) => return Err(error),
    }
}

/// Begins an answer so, and takes its first set for a stream (`ResultSetStream::of`). This says of the holder what it is
/// afterwards, also where it fails.
pub fn take_first<S: Starts, C: Calls>(
    conn: &mut C,
    alloc: Global,
    started: S,
) -> Result<TakenSet, Error>
    requires { (C.conn_of conn.old).pending ≡ None }
    ensures idle { (C.conn_of conn.new).pending ≡ None }
    ensures loans { C.loans_of conn.new ≡ C.loans_of conn.old }
    ensures takes { TakesFirst C.L.looks (StartIs C.L.looks (S.start_of started))
        (C.conn_of conn.old) (C.conn_of conn.new) result }
{
    let begun = started.start(alloc, conn);
    take_begun(conn, alloc, begun)
}
