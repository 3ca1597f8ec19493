//! What of a response is still to be read.
ghost use Rattle.std.specs.Prelude.{◌≡◌};
ghost use Rattle.std.specs.Option.{option_copied};
ghost use Rattle.my_conn.specs.Unread.{has_further, unread_columns};

use super::Conn;
use my_reading::SetColumns;

impl<L> Conn<L> {
    /// The columns of the set whose rows, or whose end, are read next. None: no set with columns is unread, or the
    /// connection is closed.
    pub fn unread_columns(&self) -> Option<&SetColumns>
        ensures { option_copied result ≡ unread_columns self.now }
    {
        if self.lost {
            return None;
        }
        self.session.unread_columns()
    }

    /// Whether a further set follows all that was read. None does where the connection is closed.
    pub fn has_further(&self) -> bool
        ensures { result ≡ has_further self.now }
    {
        !self.lost && self.session.has_further()
    }
}
