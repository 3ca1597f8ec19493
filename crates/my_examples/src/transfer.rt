//! A transaction that is rolled back on an error.

use my_query::{BlockingLink, Client, QueryError, Queryable, TxOpts};
use std::alloc::Global;

const ACCOUNTS: &str = "CREATE TEMPORARY TABLE account (id INT, cents INT UNSIGNED); \
    INSERT INTO account VALUES (1, 300), (2, 0)";

const GIVE: &str = "UPDATE account SET cents = cents + 500 WHERE id = 2";
// More than the first account has: the server refuses it.
const TAKE: &str = "UPDATE account SET cents = cents - 500 WHERE id = 1";

// A transaction that is let go is rolled back before the next command: so each `?` gives it up.
fn move_money<L: BlockingLink>(alloc: Global, client: &mut Client<L>) -> Result<(), QueryError> {
    let mut tx = client.start_transaction(alloc, TxOpts::new())?;
    tx.query_drop(alloc, &GIVE)?;
    tx.query_drop(alloc, &TAKE)?;
    Ok(tx.commit(alloc)?)
}

fn outcome(alloc: Global, moved: Result<(), QueryError>) -> Result<String, QueryError> {
    match moved {
        Ok(()) => Ok(String::from_str(alloc, "moved")?),
        Err(error) => Ok(format!(in alloc; "{error}")?),
    }
}

/// Why a transfer failed, and what the accounts have then.
pub fn transfer<L: BlockingLink>(
    alloc: Global,
    client: &mut Client<L>,
) -> Result<String, QueryError> {
    client.query_drop(alloc, &ACCOUNTS)?;
    let why = outcome(alloc, move_money(alloc, client))?;
    let cents: Vec<u64> = client.query(alloc, &"SELECT cents FROM account ORDER BY id")?;
    Ok(format!(in alloc; "{why}; then {cents:?}")?)
}
