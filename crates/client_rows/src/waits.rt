//! Calls that wait.

ghost use Rattle.std.specs.Prelude.{◌≡◌, None};

use crate::facts::fact;
use crate::library::count_rows;
use my_conn::Conn;
use my_link::BlockingLink;
use my_statements::Statement;
use near_talks::{change_of, failed, sent, word_of};
use std::alloc::Global;

// The number of rows of a query, which is one.
fn count<L: BlockingLink>(alloc: Global, conn: &mut Conn<L>, text: &str) -> &'static str
    requires { conn.old.pending ≡ None }
{
    match count_rows(alloc, conn, text.as_bytes()) {
        Ok(1) => "1",
        Ok(_) => "other",
        Err(error) => failed(error),
    }
}

fn wait_idle<L: BlockingLink>(
    alloc: Global,
    conn: &mut Conn<L>,
    held: &mut Option<Statement>,
    call: &str,
) -> &'static str
    requires { conn.old.pending ≡ None }
{
    let (name, rest) = call.split_once(' ').unwrap_or((call, ""));
    match name {
        "stream" => word_of(conn.take_set(alloc), held),
        "reset" => word_of(conn.reset(alloc), held),
        "user" => word_of(conn.change_user(alloc, change_of(alloc, rest)), held),
        "quit" => word_of(conn.quit(alloc), held),
        "count" => count(alloc, conn, rest),
        "query" | "prepare" | "next" | "drop" | "ping" | "execute" | "batch" | "close" => {
            sent(alloc, conn, held, call)
        }
        _ => fact(conn, held, name),
    }
}

/// What a call returns.
pub fn waited<L: BlockingLink>(
    alloc: Global,
    conn: &mut Conn<L>,
    held: &mut Option<Statement>,
    call: &str,
) -> &'static str {
    match conn.open_call() {
        None => wait_idle(alloc, conn, held, call),
        Some(_) => "open",
    }
}

fn end_idle<L: BlockingLink + Drop>(alloc: Global, conn: Conn<L>) -> &'static str
    requires { conn.pending ≡ None }
{
    let (ended, link) = conn.disconnect(alloc);
    drop(link);
    word_of(ended, &mut None)
}

/// What a connection's end returns.
pub fn ended<L: BlockingLink + Drop>(alloc: Global, conn: Conn<L>) -> &'static str {
    match conn.open_call() {
        None => end_idle(alloc, conn),
        Some(_) => {
            drop(conn);
            "open"
        }
    }
}
