//! What of a result is still to be read.
ghost use Rattle.std.specs.Prelude.{◌≡◌, IfOk};
ghost use Rattle.my_conn.specs.Unread.{unread_columns};
ghost use Rattle.my_results.specs.Unread.{is_empty, next_columns};

use crate::result::QueryResult;
use my_conn::Conn;
use my_frame::NoMemory;
use my_reading::SetColumns;
use my_reply::Column;
use my_rows::Calls;

// The columns of the set that is next at this connection.
fn columns_at<L>(conn: &Conn<L>) -> &[Column]
    ensures { result.now ≡ next_columns conn.now }
{
    match conn.unread_columns() {
        None => &[],
        Some(columns) => columns.as_slice(),
    }
}

// Another holder of these columns.
fn shared_at<L>(conn: &Conn<L>) -> Result<Option<SetColumns>, NoMemory>
    ensures { IfOk result (λ r. r ≡ unread_columns conn.now) }
{
    match conn.unread_columns() {
        None => Ok(None),
        Some(columns) => Ok(Some(columns.share()?)),
    }
}

// Whether nothing with columns is unread at this connection, and nothing follows.
fn is_empty_at<L>(conn: &Conn<L>) -> bool
    ensures { result ≡ is_empty conn.now }
{
    match conn.unread_columns() {
        None => !conn.has_further(),
        Some(_) => false,
    }
}

impl<C: Calls, P: Drop> QueryResult<C, P> {
    /// The holder: what is left of the answer is passed over by its next command.
    pub fn into_conn(self) -> C
        ensures { result ≡ self.holder }
    {
        self.holder
    }

    /// The columns of the set whose rows, or whose end, are next; empty where no set with columns is unread.
    pub fn columns_ref(&self) -> &[Column]
        ensures { result.now ≡ next_columns (C.conn_of self.now.holder) }
    {
        columns_at(self.holder.conn())
    }

    /// Another holder of these columns. None: no set with columns is unread.
    pub fn columns(&self) -> Result<Option<SetColumns>, NoMemory>
        ensures { IfOk result (λ r. r ≡ unread_columns (C.conn_of self.now.holder)) }
    {
        shared_at(self.holder.conn())
    }

    /// Whether no set with columns is unread, and no further set follows.
    pub fn is_empty(&self) -> bool
        ensures { result ≡ is_empty (C.conn_of self.now.holder) }
    {
        is_empty_at(self.holder.conn())
    }
}
