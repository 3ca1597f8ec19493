//! Calls whose rows are returned at once, at what holds a connection.

ghost use Rattle.std.specs.Prelude.{◌≡◌, None};

use my_conn::Conn;
use my_link::BlockingLink;
use my_query::Queryable;
use my_rows::{Lent, StatementLike};
use my_statements::Statement;
use my_value::Row;
use near_talks::{copy_of, lists_of, params_of, sent, shown, word_of};
use std::alloc::{AllocError, Global};

// What a call returned, without its value.
fn said(alloc: Global, word: &'static str) -> Result<String, AllocError> {
    String::from_str(alloc, word)
}

// A query of numbers with names.
fn queried<C: Queryable>(
    alloc: Global,
    holder: &mut C,
    name: &str,
    text: &str,
) -> Result<String, AllocError>
    requires { (C.conn_of holder.old).pending ≡ None }
{
    match name {
        "collect" => shown(alloc, holder.query::<(u64, String), _>(alloc, &text)),
        "first" => shown(alloc, holder.query_first::<(u64, String), _>(alloc, &text)),
        "first_row" => {
            let first = holder.query_first::<Row, _>(alloc, &text);
            shown(alloc, first.map(|row| row.map(|row| row.len())))
        }
        "first_numbers" => shown(alloc, holder.query_first::<(u64, u64), _>(alloc, &text)),
        "fold" => {
            let folded = holder.query_fold::<(u64, String), _, u64, _>(
                alloc,
                &text,
                1,
                |sum, row| sum.wrapping_mul(10).wrapping_add(row.0),
            );
            shown(alloc, folded)
        }
        "fold_rows" => {
            shown(
                alloc,
                holder.query_fold::<Row, _, u64, _>(alloc, &text, 4, |_sum, _row| 0),
            )
        }
        "map" => {
            let numbers = holder.query_map::<(u64, String), _, u64, _>(alloc, &text, |row| row.0);
            shown(alloc, numbers)
        }
        _ => shown(alloc, holder.query_drop(alloc, &text)),
    }
}

// An execution, which gives numbers, of the statement that is named.
fn executed<C: Queryable, S: StatementLike>(
    alloc: Global,
    holder: &mut C,
    stmt: &S,
    name: &str,
    rest: &str,
) -> Result<String, AllocError>
    requires { (C.conn_of holder.old).pending ≡ None }
{
    let params = params_of(alloc, rest);
    match name {
        "exec" => shown(alloc, holder.exec::<u64, _>(alloc, stmt, params)),
        "exec_first" => shown(alloc, holder.exec_first::<u64, _>(alloc, stmt, params)),
        "exec_fold" => {
            let folded = holder.exec_fold::<u64, _, u64, _>(alloc, stmt, params, 1, |sum, n| {
                sum.wrapping_mul(10).wrapping_add(n)
            });
            shown(alloc, folded)
        }
        "exec_map" => {
            shown(
                alloc,
                holder.exec_map::<u64, _, bool, _>(alloc, stmt, params, |n| n > 4),
            )
        }
        _ => shown(alloc, holder.exec_drop(alloc, stmt, params)),
    }
}

// An execution, or a batch of executions, of the statement that is named.
fn run<C: Queryable, S: StatementLike>(
    alloc: Global,
    holder: &mut C,
    stmt: &S,
    name: &str,
    rest: &str,
) -> Result<String, AllocError>
    requires { (C.conn_of holder.old).pending ≡ None }
{
    if name == "exec_batch" {
        let lists = lists_of(alloc, rest)?;
        return said(
            alloc,
            word_of(holder.exec_batch(alloc, stmt, lists), &mut None),
        );
    }
    executed(alloc, holder, stmt, name, rest)
}

// A call of the statement that is held, or of one that a text names.
fn held_call<C: Queryable>(
    alloc: Global,
    holder: &mut C,
    held: &mut Option<Statement>,
    name: &str,
    rest: &str,
) -> Result<String, AllocError>
    requires { (C.conn_of holder.old).pending ≡ None }
{
    if let Some((params, text)) = rest.split_once(" of ") {
        return run(alloc, holder, &text, name, params);
    }
    let Some(statement) = copy_of(alloc, held) else {
        return said(alloc, "unheld");
    };
    if name == "close" {
        return said(alloc, word_of(holder.close(alloc, statement), held));
    }
    let text = run(alloc, holder, &statement, name, rest);
    drop(statement);
    text
}

/// What a call returns, in the text of `{:?}`. After `send ` is one that only sends or reads.
pub fn answer_at<C: Queryable>(
    alloc: Global,
    holder: &mut C,
    held: &mut Option<Statement>,
    call: &str,
) -> Result<String, AllocError>
    requires { (C.conn_of holder.old).pending ≡ None }
{
    let (name, rest) = call.split_once(' ').unwrap_or((call, ""));
    match name {
        "prep" => {
            let prepared = holder.prep(alloc, &rest);
            said(alloc, word_of(prepared, held))
        }
        "send" => said(alloc, sent(alloc, holder, held, rest)),
        _ => {
            if name == "close" || name.starts_with("exec") {
                held_call(alloc, holder, held, name, rest)
            } else {
                queried(alloc, holder, name, rest)
            }
        }
    }
}

/// The holder is lent for a query and a ping.
pub fn lend<C: Queryable>(
    alloc: Global,
    holder: &mut C,
    held: &mut Option<Statement>,
    text: &str,
) -> Result<String, AllocError>
    requires { (C.conn_of holder.old).pending ≡ None }
{
    let mut lent = Lent::new(holder);
    let people = lent.query::<(u64, String), _>(alloc, &text);
    let pinged = word_of(lent.ping(alloc), held);
    let text = shown(alloc, people);
    if pinged == "ok" {
        text
    } else {
        said(alloc, pinged)
    }
}

/// What a call returns at a connection.
pub fn asked<L: BlockingLink>(
    alloc: Global,
    conn: &mut Conn<L>,
    held: &mut Option<Statement>,
    call: &str,
) -> Result<String, AllocError> {
    match conn.open_call() {
        None => match call.strip_prefix("lend ") {
            Some(text) => lend(alloc, conn, held, text),
            None => answer_at(alloc, conn, held, call),
        },
        Some(_) => said(alloc, "open"),
    }
}
