//! Calls that only send or read, at what holds a connection.

ghost use Rattle.std.specs.Prelude.{◌≡◌, None};

use crate::answers::word_of;
use crate::given::{begin_of, copy_of, lists_of, params_of};
use crate::words::blob_of;
use my_rows::Calls;
use my_statements::Statement;
use std::alloc::Global;

// A call of the statement that is held.
fn sent_held<C: Calls>(
    alloc: Global,
    holder: &mut C,
    held: &mut Option<Statement>,
    name: &str,
    rest: &str,
) -> &'static str
    requires { (C.conn_of holder.old).pending ≡ None }
{
    let Some(statement) = copy_of(alloc, held) else {
        return "unheld";
    };
    match name {
        "execute" => {
            word_of(
                holder.send_execution(alloc, statement, params_of(alloc, rest)),
                held,
            )
        }
        "batch" => match lists_of(alloc, rest) {
            Ok(lists) => word_of(holder.send_batch(alloc, statement, lists), held),
            Err(_) => {
                drop(statement);
                "memory"
            }
        },
        _ => word_of(holder.send_close(alloc, statement), held),
    }
}

/// What a call returns that only sends or reads.
pub fn sent<C: Calls>(
    alloc: Global,
    holder: &mut C,
    held: &mut Option<Statement>,
    call: &str,
) -> &'static str
    requires { (C.conn_of holder.old).pending ≡ None }
{
    let (name, rest) = call.split_once(' ').unwrap_or((call, ""));
    match name {
        "query" => word_of(holder.send_query(alloc, blob_of(alloc, rest)), held),
        "prepare" => word_of(holder.send_prepare(alloc, blob_of(alloc, rest)), held),
        "next" => word_of(holder.next_row(alloc), held),
        "drop" => word_of(holder.drop_rest(alloc), held),
        "ping" => word_of(holder.send_ping(alloc), held),
        "begin" => word_of(holder.send_begin(alloc, begin_of(rest)), held),
        "commit" => word_of(holder.send_commit(alloc), held),
        "rollback" => word_of(holder.send_rollback(alloc), held),
        _ => sent_held(alloc, holder, held, name, rest),
    }
}
