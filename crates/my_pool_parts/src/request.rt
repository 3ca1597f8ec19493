//! The live requests.

ghost use Rattle.std.specs.Prelude.{◌≡◌};
ghost use Rattle.my_pool_parts.specs.Requests.{asking, is_free, holds, is_waiting, is_dialing, is_queued, changed};

/// The last age and the last number.
pub const LAST: u64 = u64::MAX;

/// What a live request does.
#[derive(Clone, Copy, PartialEq, Eq)]
pub enum Standing {
    /// It holds nothing and is to be polled.
    Asks,
    /// It holds nothing and waits to be woken.
    Waits,
    /// It was woken and is to be polled.
    Woken,
    /// It makes the connection of this number.
    Dials(u64),
    /// It checks whether the connection of this number is still alive.
    Checks(u64),
}

/// A live request.
#[derive(Clone, Copy, PartialEq, Eq)]
pub struct Request {
    /// Its age: the smaller, the older.
    pub age: u64,
    /// Whether it ever waited.
    pub waited: bool,
    pub standing: Standing,
}

impl Request {
    /// A new request.
    pub fn asking(age: u64) -> Request
        ensures { result ≡ asking age }
    {
        Request {
            age,
            waited: false,
            standing: Standing::Asks,
        }
    }

    /// Whether it waits.
    pub fn is_waiting(&self) -> bool
        ensures { result ≡ is_waiting self.now }
    {
        matches!(self.standing, Standing::Waits)
    }

    /// Whether it waits, or was woken and not polled since.
    pub fn is_queued(&self) -> bool
        ensures { result ≡ is_queued self.now }
    {
        matches!(self.standing, Standing::Waits | Standing::Woken)
    }

    /// Whether it has no connection.
    pub fn is_free(&self) -> bool
        ensures { result ≡ is_free self.now }
    {
        matches!(
            self.standing,
            Standing::Asks | Standing::Waits | Standing::Woken
        )
    }

    /// Whether it makes or looks at the connection of a number.
    pub fn holds(&self, number: u64) -> bool
        ensures { result ≡ holds number self.now }
    {
        match self.standing {
            Standing::Dials(held) | Standing::Checks(held) => held == number,
            _ => false,
        }
    }

    /// The request with another standing; from now on it counts as having waited where it is to.
    pub(crate) fn changed(&self, waited: bool, standing: Standing) -> Request
        ensures { result ≡ changed waited standing self.now }
    {
        Request {
            age: self.age,
            waited: waited || self.waited,
            standing,
        }
    }

    /// Whether it makes a connection.
    pub fn is_dialing(&self) -> bool
        ensures { result ≡ is_dialing self.now }
    {
        matches!(self.standing, Standing::Dials(_))
    }
}
