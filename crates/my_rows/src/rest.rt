//! Answers that a call began: what is read of them, and how the rest is dropped.
ghost use Rattle.std.specs.Prelude.{◌≡◌, None};
ghost use Rattle.my_rows.specs.Answers.{NothingIs, ReadIs, RestIs};
ghost use Rattle.my_rows.specs.Calls.{CollectsBegun, FoldsBegun, MapsBegun};
ghost use Rattle.my_rows.specs.Gathers.{SetIs};
ghost use Rattle.my_rows.specs.Reads.{ItemIs};

use crate::calls::Calls;
use crate::error::QueryError;
use crate::gather::{Collected, Folded, Gather, Mapped};
use crate::read::{next_item, read_set};
use my_reading::Error;
use my_value::FromRow;
use std::alloc::Global;

/// Drops the rest of an answer of which this was read.
pub fn drop_after<A: Drop, C: Calls>(
    conn: &mut C,
    alloc: Global,
    read: Result<A, QueryError>,
) -> Result<A, QueryError>
    requires { (C.conn_of conn.old).pending ≡ None }
    ensures idle { (C.conn_of conn.new).pending ≡ None }
    ensures loans { C.loans_of conn.new ≡ C.loans_of conn.old }
    ensures rest { RestIs C.L.looks read (C.conn_of conn.old) (C.conn_of conn.new) result }
{
    match read {
        Ok(value) => match conn.drop_rest(alloc) {
            Ok(()) => return Ok(value),
            Err(error) => return Err(QueryError::Client(error)),
        },
        Err(error) => return Err(error),
    }
}

// Gathers the first set of an answer that this call began, and drops the rest.
fn gather_answer<T: FromRow, G: Gather<T> + Drop, C: Calls>(
    conn: &mut C,
    alloc: Global,
    begun: Result<(), Error>,
    start: G,
) -> Result<G, QueryError>
    requires idle { (C.conn_of conn.old).pending ≡ None }
    requires ready { G.ready start }
    ensures idle { (C.conn_of conn.new).pending ≡ None }
    ensures loans { C.loans_of conn.new ≡ C.loans_of conn.old }
    ensures reads { ReadIs C.L.looks (SetIs C.L.looks T.row_converts T.row_becomes G.takes start) begun
        (C.conn_of conn.old) (C.conn_of conn.new) result }
{
    match begun {
        Ok(()) => {
            let read = read_set::<T, G, C>(conn, alloc, start);
            return drop_after(conn, alloc, read);
        }
        Err(error) => return Err(QueryError::Client(error)),
    }
}

/// What the rows of the first set of an answer that this call began became, in order; the rest is dropped.
pub fn collect_answer<T: FromRow + Drop, C: Calls>(
    conn: &mut C,
    alloc: Global,
    begun: Result<(), Error>,
) -> Result<Vec<T>, QueryError>
    requires { (C.conn_of conn.old).pending ≡ None }
    ensures idle { (C.conn_of conn.new).pending ≡ None }
    ensures loans { C.loans_of conn.new ≡ C.loans_of conn.old }
    ensures collects { CollectsBegun C.L.looks T.row_converts T.row_becomes begun
        (C.conn_of conn.old) (C.conn_of conn.new) result }
{
    let start = Collected {
        items: Vec::new(alloc),
    };
    match gather_answer::<T, Collected<T>, C>(conn, alloc, begun, start) {
        Ok(collected) => return Ok(collected.items),
        Err(error) => return Err(error),
    }
}

/// What the function makes of each row of the first set of an answer that this call began, in order; the rest is
/// dropped.
pub fn map_answer<T: FromRow, U: Drop, F: FnMut(T) -> U, C: Calls>(
    conn: &mut C,
    alloc: Global,
    begun: Result<(), Error>,
    f: F,
) -> Result<Vec<U>, QueryError>
    requires idle { (C.conn_of conn.old).pending ≡ None }
    requires callable { F.IsAlwaysCallable f }
    ensures idle { (C.conn_of conn.new).pending ≡ None }
    ensures loans { C.loans_of conn.new ≡ C.loans_of conn.old }
    ensures maps { MapsBegun C.L.looks T.row_converts T.row_becomes (λ p x v q. F.step p x v q) f begun
        (C.conn_of conn.old) (C.conn_of conn.new) result }
{
    let start = Mapped {
        items: Vec::new(alloc),
        f,
    };
    match gather_answer::<T, Mapped<U, F>, C>(conn, alloc, begun, start) {
        Ok(mapped) => return Ok(mapped.items),
        Err(error) => return Err(error),
    }
}

/// The function folded over the rows of the first set of an answer that this call began, in order; the rest is dropped.
pub fn fold_answer<T: FromRow, U: Drop, F: FnMut(U, T) -> U, C: Calls>(
    conn: &mut C,
    alloc: Global,
    begun: Result<(), Error>,
    init: U,
    f: F,
) -> Result<U, QueryError>
    requires idle { (C.conn_of conn.old).pending ≡ None }
    requires callable { F.IsAlwaysCallable f }
    ensures idle { (C.conn_of conn.new).pending ≡ None }
    ensures loans { C.loans_of conn.new ≡ C.loans_of conn.old }
    ensures folds { FoldsBegun C.L.looks T.row_converts T.row_becomes (λ p x y v q. F.step p x y v q) init f begun
        (C.conn_of conn.old) (C.conn_of conn.new) result }
{
    let start = Folded { value: init, f };
    match gather_answer::<T, Folded<U, F>, C>(conn, alloc, begun, start) {
        Ok(folded) => return Ok(folded.value),
        Err(error) => return Err(error),
    }
}

/// The first row of an answer that this call began; the rest is dropped.
pub fn first_of_answer<T: FromRow + Drop, C: Calls>(
    conn: &mut C,
    alloc: Global,
    begun: Result<(), Error>,
) -> Result<Option<T>, QueryError>
    requires { (C.conn_of conn.old).pending ≡ None }
    ensures idle { (C.conn_of conn.new).pending ≡ None }
    ensures loans { C.loans_of conn.new ≡ C.loans_of conn.old }
    ensures reads { ReadIs C.L.looks (ItemIs C.L.looks T.row_converts T.row_becomes) begun
        (C.conn_of conn.old) (C.conn_of conn.new) result }
{
    match begun {
        Ok(()) => {
            let read = next_item::<T, C>(conn, alloc);
            return drop_after(conn, alloc, read);
        }
        Err(error) => return Err(QueryError::Client(error)),
    }
}

/// Drops all of an answer that this call began.
pub fn drop_answer<C: Calls>(
    conn: &mut C,
    alloc: Global,
    begun: Result<(), Error>,
) -> Result<(), QueryError>
    requires { (C.conn_of conn.old).pending ≡ None }
    ensures idle { (C.conn_of conn.new).pending ≡ None }
    ensures loans { C.loans_of conn.new ≡ C.loans_of conn.old }
    ensures reads { ReadIs C.L.looks NothingIs begun (C.conn_of conn.old) (C.conn_of conn.new) result }
{
    match begun {
        Ok(()) => return drop_after(conn, alloc, Ok(())),
        Err(error) => return Err(QueryError::Client(error)),
    }
}
