//! A large set, of which one row at a time is in memory.

use my_query::{BlockingLink, Client, Error, QueryError, Queryable};
use std::alloc::Global;

/// How many numbers there are, and their sum.
pub fn add_up<L: BlockingLink + Drop>(
    alloc: Global,
    client: &mut Client<L>,
) -> Result<String, QueryError> {
    let mut sum = 0u64;
    let mut result = client.query_iter(alloc, &"SELECT seq FROM seq_1_to_100000")?;
    let Some(mut numbers) = result.stream::<u64>(alloc)? else {
        return Ok(String::new(alloc));
    };
    for count in 0..u64::MAX {
        match numbers.next(alloc)? {
            Some(number) => sum = sum.saturating_add(number),
            None => return Ok(format!(in alloc; "{count} numbers, {sum}")?),
        }
    }
    Err(QueryError::Client(Error::NoMemory))
}
