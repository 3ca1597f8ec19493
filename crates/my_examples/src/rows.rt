//! Rows that become tuples.

use my_query::{BlockingLink, Client, QueryError, Queryable};
use std::alloc::Global;

/// The people, by their ids.
pub fn people<L: BlockingLink>(
    alloc: Global,
    client: &mut Client<L>,
) -> Result<String, QueryError> {
    client.query_drop(
        alloc,
        &"CREATE TEMPORARY TABLE person (id INT, name VARCHAR(20), town VARCHAR(20))",
    )?;
    client.query_drop(
        alloc,
        &"INSERT INTO person VALUES (7, 'ann', NULL), (9, 'bo', 'Oslo')",
    )?;
    let people: Vec<(u64, String, Option<String>)> = client.query(
        alloc,
        &"SELECT id, name, town FROM person ORDER BY id",
    )?;
    let mut text = String::new(alloc);
    for (id, name, town) in people {
        let town = town.as_ref().map_or("nowhere", |town| town.as_str());
        text.push_str(format!(in alloc; "{id} {name} of {town}; ")?.as_str())?;
    }
    Ok(text)
}
