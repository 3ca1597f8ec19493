//! Calls that are polled by hand.

ghost use Rattle.std.specs.Prelude.{◌≡◌, None};
ghost use Rattle.my_client.specs.Calls.{MayPoll};

use crate::facts::fact;
use my_calls::{
    CallState, ChangeUserCall, CloseCall, DropCall, ExecCall, NextCall, PingCall, Poll, PoolCall,
    PrepCall, QueryCall, QuitCall, ResetCall, Returns, StreamCall, TxCall,
};
use my_conn::Conn;
use my_link::{Link, NoAid};
use my_reading::Call;
use my_statements::Statement;
use near_talks::{Word, begin_of, blob_of, change_of, copy_of, lists_of, params_of, word_of};
use std::alloc::Global;

// A call was cancelled.
fn cancelled<L>(conn: &Conn<L>) -> &'static str {
    if conn.is_disconnected() {
        "cancelled and closed"
    } else {
        "cancelled"
    }
}

// Polls a call while it is pending, at most `polls` times, at the moment 7, and cancels it then.
fn play<K: Drop, R: Returns + Word + Drop, L: Link>(
    alloc: Global,
    conn: &mut Conn<L>,
    held: &mut Option<Statement>,
    polls: u64,
    call: CallState<K, R>,
) -> &'static str
    requires { MayPoll call.kind call.call conn.old.pending }
{
    let mut call = call;
    'polls: for _ in 0..polls {
        match call.poll(alloc, conn, &mut NoAid, 7) {
            Poll::Ready(answer) => {
                drop(call);
                return word_of(answer, held);
            }
            Poll::Pending => {}
        }
    }
    call.cancel(conn);
    cancelled(conn)
}

// Polls the taking of a set as above.
fn take<L: Link>(
    alloc: Global,
    conn: &mut Conn<L>,
    held: &mut Option<Statement>,
    polls: u64,
) -> &'static str
    requires { conn.old.pending ≡ None }
{
    let mut call = StreamCall::new();
    'polls: for _ in 0..polls {
        match call.poll(alloc, conn, &mut NoAid, 7) {
            Poll::Ready(answer) => return word_of(answer, held),
            Poll::Pending => {}
        }
    }
    call.cancel(conn);
    cancelled(conn)
}

// A call of the statement that is held.
fn poll_held<L: Link>(
    alloc: Global,
    conn: &mut Conn<L>,
    held: &mut Option<Statement>,
    polls: u64,
    name: &str,
    rest: &str,
) -> &'static str
    requires { conn.old.pending ≡ None }
{
    let Some(statement) = copy_of(alloc, held) else {
        return "unheld";
    };
    match name {
        "execute" => {
            let call = ExecCall::new(statement, params_of(alloc, rest));
            play(alloc, conn, held, polls, call)
        }
        "batch" => match lists_of(alloc, rest) {
            Ok(lists) => play(alloc, conn, held, polls, ExecCall::batch(statement, lists)),
            Err(_) => {
                drop(statement);
                "memory"
            }
        },
        _ => play(alloc, conn, held, polls, CloseCall::new(statement)),
    }
}

fn poll_idle<L: Link>(
    alloc: Global,
    conn: &mut Conn<L>,
    held: &mut Option<Statement>,
    polls: u64,
    call: &str,
) -> &'static str
    requires { conn.old.pending ≡ None }
{
    let (name, rest) = call.split_once(' ').unwrap_or((call, ""));
    match name {
        "query" => play(
            alloc,
            conn,
            held,
            polls,
            QueryCall::new(blob_of(alloc, rest)),
        ),
        "prepare" => play(
            alloc,
            conn,
            held,
            polls,
            PrepCall::new(blob_of(alloc, rest)),
        ),
        "next" => play(alloc, conn, held, polls, NextCall::new()),
        "stream" => take(alloc, conn, held, polls),
        "drop" => play(alloc, conn, held, polls, DropCall::new()),
        "ping" => play(alloc, conn, held, polls, PingCall::new()),
        "reset" => play(alloc, conn, held, polls, ResetCall::new()),
        "user" => play(
            alloc,
            conn,
            held,
            polls,
            ChangeUserCall::new(change_of(alloc, rest)),
        ),
        "clean" => play(alloc, conn, held, polls, PoolCall::new(Call::CleanForPool)),
        "renew" => play(alloc, conn, held, polls, PoolCall::new(Call::ResetForPool)),
        "begin" => play(alloc, conn, held, polls, TxCall::start(begin_of(rest))),
        "commit" => play(alloc, conn, held, polls, TxCall::commit()),
        "rollback" => play(alloc, conn, held, polls, TxCall::rollback()),
        "quit" => play(alloc, conn, held, polls, QuitCall::new()),
        "execute" | "batch" | "close" => poll_held(alloc, conn, held, polls, name, rest),
        _ => fact(conn, held, name),
    }
}

/// What a call returns within so many polls. One that is still pending then is cancelled.
pub fn polled<L: Link>(
    alloc: Global,
    conn: &mut Conn<L>,
    held: &mut Option<Statement>,
    polls: u64,
    call: &str,
) -> &'static str {
    match conn.open_call() {
        None => poll_idle(alloc, conn, held, polls, call),
        Some(_) => "open",
    }
}
