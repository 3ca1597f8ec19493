//! What of a response is still to be read.

ghost use Rattle.std.specs.Prelude.{◌≡◌};
ghost use Rattle.std.specs.Option.{option_copied};
ghost use Rattle.my_session.specs.Unread.{has_further, unread_columns};

use super::Session;
use my_grammar::Spot;
use my_reading::SetColumns;

impl Session {
    /// The columns of the set whose rows, or whose end, are read next. None: no set with columns is unread, or the session is
    /// closed.
    pub fn unread_columns(&self) -> Option<&SetColumns>
        ensures { option_copied result ≡ unread_columns self.now.seen }
    {
        if !self.closed && self.stand.context.spot == Spot::Rows {
            return Some(&self.stand.facts.columns);
        }
        None
    }

    /// Whether a further set follows all that was read. None does on a closed session.
    pub fn has_further(&self) -> bool
        ensures { result ≡ has_further self.now.seen }
    {
        !self.closed && self.stand.context.spot == Spot::Further
    }
}
