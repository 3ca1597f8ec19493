//! How an answer is begun: by a text, or by a statement that is known or prepared for it.
ghost use Rattle.std.specs.Prelude.{◌≡◌, None};
ghost use Rattle.my_rows.specs.Begins.{BatchIs, ExecuteIs, QueryIs, StatementIs};
ghost use Rattle.my_rows.specs.declared.statement_like.ToStatementResult.TheVariants as likes;

use crate::as_query::AsQuery;
use crate::calls::Calls;
use crate::statement_like::{StatementLike, ToStatementResult};
use my_frame::{Blob, NoMemory};
use my_params::Params;
use my_reading::Error;
use my_statements::Statement;
use std::alloc::Global;

/// Sends a query of this text.
pub fn send_text<Q: AsQuery, C: Calls>(conn: &mut C, alloc: Global, query: &Q) -> Result<(), Error>
    requires { (C.conn_of conn.old).pending ≡ None }
    ensures idle { (C.conn_of conn.new).pending ≡ None }
    ensures loans { C.loans_of conn.new ≡ C.loans_of conn.old }
    ensures query { QueryIs C.L.looks (Q.text_of query.now) (C.conn_of conn.old) (C.conn_of conn.new) result }
{
    match Blob::from_slice(alloc, query.as_query()) {
        Ok(text) => return conn.send_query(alloc, text),
        Err(NoMemory) => return Err(Error::NoMemory),
    }
}

/// The statement of this text, which is prepared.
pub fn prepare_text<Q: AsQuery, C: Calls>(
    conn: &mut C,
    alloc: Global,
    query: &Q,
) -> Result<Statement, Error>
    requires { (C.conn_of conn.old).pending ≡ None }
    ensures idle { (C.conn_of conn.new).pending ≡ None }
    ensures loans { C.loans_of conn.new ≡ C.loans_of conn.old }
    ensures statement { StatementIs C.L.looks (likes.Mediate (Q.text_of query.now))
        (C.conn_of conn.old) (C.conn_of conn.new) result }
{
    match Blob::from_slice(alloc, query.as_query()) {
        Ok(text) => return conn.send_prepare(alloc, text),
        Err(NoMemory) => return Err(Error::NoMemory),
    }
}

// The statement that is named.
fn statement_of<S: StatementLike, C: Calls>(
    conn: &mut C,
    alloc: Global,
    stmt: &S,
) -> Result<Statement, Error>
    requires { (C.conn_of conn.old).pending ≡ None }
    ensures idle { (C.conn_of conn.new).pending ≡ None }
    ensures loans { C.loans_of conn.new ≡ C.loans_of conn.old }
    ensures statement { StatementIs C.L.looks (S.like_of stmt.now) (C.conn_of conn.old) (C.conn_of conn.new) result }
{
    match stmt.to_statement(alloc) {
        Ok(ToStatementResult::Immediate(statement)) => return Ok(statement),
        Ok(ToStatementResult::Mediate(text)) => return conn.send_prepare(alloc, text),
        Err(NoMemory) => return Err(Error::NoMemory),
    }
}

/// Executes the statement that is named with these parameters.
pub fn execute<S: StatementLike, C: Calls>(
    conn: &mut C,
    alloc: Global,
    stmt: &S,
    params: Params,
) -> Result<(), Error>
    requires { (C.conn_of conn.old).pending ≡ None }
    ensures idle { (C.conn_of conn.new).pending ≡ None }
    ensures loans { C.loans_of conn.new ≡ C.loans_of conn.old }
    ensures executes { ExecuteIs C.L.looks (S.like_of stmt.now) params
        (C.conn_of conn.old) (C.conn_of conn.new) result }
{
    match statement_of::<S, C>(conn, alloc, stmt) {
        Ok(statement) => return conn.send_execution(alloc, statement, params),
        Err(error) => {
            drop(params);
            return Err(error);
        }
    }
}

/// Executes the statement that is named once with each of these parameters.
pub fn execute_each<S: StatementLike, C: Calls>(
    conn: &mut C,
    alloc: Global,
    stmt: &S,
    lists: Vec<Params>,
) -> Result<(), Error>
    requires { (C.conn_of conn.old).pending ≡ None }
    ensures idle { (C.conn_of conn.new).pending ≡ None }
    ensures loans { C.loans_of conn.new ≡ C.loans_of conn.old }
    ensures executes { BatchIs C.L.looks (S.like_of stmt.now) lists.items
        (C.conn_of conn.old) (C.conn_of conn.new) result }
{
    match statement_of::<S, C>(conn, alloc, stmt) {
        Ok(statement) => return conn.send_batch(alloc, statement, lists),
        Err(error) => {
            drop(lists);
            return Err(error);
        }
    }
}
