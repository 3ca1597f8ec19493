//! A password that is wrong, answered in one line.

use my_query::{BlockingLink, Error, QueryError, World, connect};
use std::alloc::Global;

/// Whether the server lets the user of this URL in.
pub fn enter<W: World>(alloc: Global, url: &str, world: &mut W) -> Result<String, QueryError>
where
    W::L: BlockingLink + Drop,
{
    match connect(alloc, url, world) {
        Ok(client) => {
            client.quit(alloc)?;
            Ok(String::from_str(alloc, "welcome")?)
        }
        Err(Error::Server(error)) => Ok(format!(in alloc; "refused: {error}")?),
        Err(error) => Ok(format!(in alloc; "no connection: {error}")?),
    }
}
