//! A counted connection and its place.

ghost use Rattle.std.specs.Prelude.{◌≡◌};
ghost use Rattle.my_pool_parts.specs.Connections.{is_kind, is_past, is_over, is_usable, is_usable_place, is_outdated, is_working_place, mark_of_place};
ghost use Rattle.my_pool_parts.specs.Lists.{found_is};

/// What an idle connection's life is measured by, in milliseconds.
#[derive(Clone, Copy, PartialEq, Eq)]
pub struct Times {
    /// The moment at which it became idle.
    pub since: u64,
    /// The moment up to which it may be used.
    pub deadline: Option<u128>,
    /// The moment of its last read.
    pub last_io: u64,
    /// How long it may be used after its last read; 0 is without an end.
    pub ttl: u128,
}

/// Where a counted connection is.
#[derive(Clone, Copy, PartialEq, Eq)]
pub enum Place {
    /// It is clean, in the pool, and can be leased.
    Idle(Times),
    /// It is leased.
    Leased,
    /// A request makes it.
    Connecting,
    /// A request checks whether it is still alive.
    Checking,
    /// It came back and waits to be cleaned; marked where it was idle for too long.
    Returned { marked: bool },
    /// What is left of its last use is being read.
    Cleaning { marked: bool },
    /// Its session is being reset.
    Resetting,
    /// It is being closed.
    Closing,
}

/// The kinds of places.
#[derive(Clone, Copy, PartialEq, Eq)]
pub enum PlaceKind {
    Idle,
    Leased,
    Connecting,
    Checking,
    Returned,
    Cleaning,
    Resetting,
    Closing,
}

/// A counted connection.
#[derive(Clone, Copy, PartialEq, Eq)]
pub struct Connection {
    /// Its number, which no other one of the pool ever has.
    pub number: u64,
    pub place: Place,
}

impl Times {
    /// Whether a moment is above the deadline.
    fn is_past(&self, now: u64) -> bool
        ensures { result ≡ is_past now self.now.deadline }
    {
        match self.deadline {
            None => false,
            Some(deadline) => deadline < u128::from(now),
        }
    }

    /// Whether the connection may no longer be used: the moment is above its deadline, or too long after its last read.
    pub fn is_over(&self, now: u64) -> bool
        ensures { result ≡ is_over now self.now }
    {
        self.is_past(now)
            || (0 < self.ttl && self.ttl < u128::from(now.saturating_sub(self.last_io)))
    }
}

impl Place {
    /// Whether it is idle and may be used.
    pub(crate) fn is_usable(&self, now: u64) -> bool
        ensures { result ≡ is_usable_place now self.now }
    {
        match self {
            Place::Idle(times) => !times.is_over(now),
            _ => false,
        }
    }

    /// Whether it is idle and doesn't stay, where `moved` of `many` that need not stay have gone before it.
    pub(crate) fn is_outdated(&self, now: u64, inactive: u128, many: usize, moved: usize) -> bool
        ensures { result ≡ is_outdated now inactive many moved self.now }
    {
        match self {
            Place::Idle(times) => {
                times.is_past(now)
                    || (moved < many && inactive < u128::from(now.saturating_sub(times.since)))
            }
            _ => false,
        }
    }

    /// Whether it is of a kind.
    pub fn is(&self, kind: PlaceKind) -> bool
        ensures { result ≡ is_kind kind self.now }
    {
        match kind {
            PlaceKind::Idle => matches!(self, Place::Idle(_)),
            PlaceKind::Leased => matches!(self, Place::Leased),
            PlaceKind::Connecting => matches!(self, Place::Connecting),
            PlaceKind::Checking => matches!(self, Place::Checking),
            PlaceKind::Returned => matches!(self, Place::Returned { .. }),
            PlaceKind::Cleaning => matches!(self, Place::Cleaning { .. }),
            PlaceKind::Resetting => matches!(self, Place::Resetting),
            PlaceKind::Closing => matches!(self, Place::Closing),
        }
    }

    /// Whether its cleaning, its reset or its close goes on there.
    fn is_working(&self) -> bool
        ensures { result ≡ is_working_place self.now }
    {
        matches!(
            self,
            Place::Cleaning { .. } | Place::Resetting | Place::Closing
        )
    }

    /// Whether it was marked when its time as an idle one was over.
    pub fn mark(&self) -> bool
        ensures { result ≡ mark_of_place self.now }
    {
        match self {
            Place::Returned { marked } | Place::Cleaning { marked } => *marked,
            _ => false,
        }
    }
}

/// Whether a place, where there is one, is of a kind.
pub(crate) fn is_at(place: &Option<Place>, kind: PlaceKind) -> bool
    ensures { result ≡ found_is (is_kind kind) place.now }
{
    match place {
        Some(place) => place.is(kind),
        None => false,
    }
}

/// Whether a place, where there is one, is one at which a cleaning, a reset or a close goes on.
pub(crate) fn is_at_work(place: &Option<Place>) -> bool
    ensures { result ≡ found_is is_working_place place.now }
{
    match place {
        Some(place) => place.is_working(),
        None => false,
    }
}
