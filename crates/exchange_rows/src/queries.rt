//! A query of a connection of the rows.

ghost use Rattle.std.specs.Prelude.{◌≡◌, None};

use my_client::After;
use my_frame::Blob;
use my_link::MemLink;
use my_pool::BoxedConn;
use my_reading::{Call, CallKind};
use std::alloc::Global;

// What a call returned, or that it is open.
fn word_of(after: After) -> &'static str {
    match after {
        After::Pending => "open",
        After::Answered(answer) => {
            drop(answer);
            "answered"
        }
        After::Failed(error) => {
            drop(error);
            "failed"
        }
    }
}

fn asks(alloc: Global, conn: &mut BoxedConn<MemLink>) -> &'static str
    requires { conn.old.pending ≡ None }
{
    let call = Call::Query(Blob::new(alloc));
    let (after, _met) = conn.poll_call(alloc, CallKind::Query, Some(call), 0);
    word_of(after)
}

/// What a query returns, of which nothing is read.
pub fn queried(alloc: Global, conn: &mut BoxedConn<MemLink>) -> &'static str {
    match conn.open_call() {
        None => asks(alloc, conn),
        Some(_) => "open",
    }
}
