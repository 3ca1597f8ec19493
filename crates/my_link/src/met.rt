//! What a connection met outside.

/// How often the outside gave each counted answer, and how many bytes came.
#[derive(Clone, Copy, PartialEq, Eq)]
pub struct Met {
    /// Faults of the link, or of the dialer.
    pub faults: u64,
    /// Reads, writes or dials that weren't ready.
    pub holds: u64,
    /// Ends of the link.
    pub ends: u64,
    /// Checks that found a dead link.
    pub deaths: u64,
    /// Reads of a file that failed.
    pub broken: u64,
    /// Files that aren't listed.
    pub unlisted: u64,
    /// Requests for a file without a handler.
    pub absent: u64,
    /// Refusals after the login.
    pub refused: u64,
    /// Bytes taken from the link.
    pub taken: u64,
    /// Bytes read from a file.
    pub fed: u64,
}

impl Met {
    ghost use Rattle.std.specs.Prelude.{◌≡◌};
    ghost use Rattle.my_link.specs.Met.{nothing_met};

    /// Nothing was met yet.
    pub fn nothing() -> Met
        ensures { result ≡ nothing_met }
    {
        Met {
            faults: 0,
            holds: 0,
            ends: 0,
            deaths: 0,
            broken: 0,
            unlisted: 0,
            absent: 0,
            refused: 0,
            taken: 0,
            fed: 0,
        }
    }
}
