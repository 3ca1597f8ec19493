//! The example of README: a query over a connection whose calls wait.

ghost use Rattle.std.specs.Prelude.{◌≡◌, None};

use my_conn::{Conn, NextAnswer};
use my_frame::Blob;
use my_link::BlockingLink;
use my_reading::Error;
use std::alloc::Global;

/// The number of rows of a query's first set.
pub fn count_rows<L: BlockingLink>(
    alloc: Global,
    conn: &mut Conn<L>,
    query: &[u8],
) -> Result<u64, Error>
    requires { conn.old.pending ≡ None }
{
    conn.send_query(alloc, Blob::from_slice(alloc, query)?)?;
    'rows: for count in 0..u64::MAX {
        match conn.next_row(alloc)? {
            NextAnswer::Row(_) => {}
            NextAnswer::SetEnd | NextAnswer::NoSet => return Ok(count),
        }
    }
    Err(Error::NoMemory)
}
