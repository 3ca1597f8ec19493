//! How a transaction begins.

ghost use Rattle.std.specs.Prelude.{◌≡◌};
ghost use Rattle.my_opts_parts.specs.Transaction.{level_text, level_number};

use std::fmt;

/// How far a transaction is kept from others, from the weakest level, 0, to the strongest, 3.
#[derive(Clone, Copy, PartialEq, Eq, Hash)]
pub enum IsolationLevel {
    ReadUncommitted = 0,
    ReadCommitted = 1,
    RepeatableRead = 2,
    Serializable = 3,
}

impl IsolationLevel {
    /// The words for the level, as in `READ COMMITTED`.
    pub fn as_str(self) -> &'static str
        ensures { result.now ≡ level_text self }
    {
        match self {
            IsolationLevel::ReadUncommitted => "READ UNCOMMITTED",
            IsolationLevel::ReadCommitted => "READ COMMITTED",
            IsolationLevel::RepeatableRead => "REPEATABLE READ",
            IsolationLevel::Serializable => "SERIALIZABLE",
        }
    }

    /// The number of the level.
    pub fn number(self) -> u8
        ensures { result ≡ level_number self }
    {
        self as u8
    }
}

impl fmt::Display for IsolationLevel {
    ghost use Rattle.std.specs.Prelude.{Some};
    ghost use Rattle.my_opts_parts.specs.Transaction.{level_text};

    ghost output = { λ level. Some (level_text level) };

    fn fmt<W: fmt::Write>(&self, f: &mut fmt::Formatter<W>) -> fmt::Result {
        f.write_str(self.as_str())
    }
}
