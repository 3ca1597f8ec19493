//! A length of time.

ghost use Rattle.std.specs.Prelude.{◌≡◌, ◌*◌, ◌/◌, ◌<◌, ◌^◌};

use std::marker::Model;

/// A length of time in milliseconds. A clause sees the number.
#[derive(Clone, Copy, PartialEq, Eq, Hash)]
pub struct Millis {
    pub(crate) millis: u128,
}

impl Model for Millis {
    ghost use Rattle.std.specs.Prelude.{ℕ, ◌*◌, ◌<◌, ◌^◌};

    ghost Value = { ℕ };

    ghost view = { λ t. t.millis };

    ghost invariant = { λ t. t.millis < 1000 * 2 ^ 64 };

    ghost inverse = { λ n. record { millis = n } };
}

impl Millis {
    /// This many seconds.
    pub const fn from_secs(seconds: u64) -> Millis
        ensures { result ≡ 1000 * seconds }
    {
        Millis {
            millis: 1000 * (seconds as u128),
        }
    }

    /// This many milliseconds.
    pub const fn from_millis(millis: u64) -> Millis
        ensures { result ≡ millis }
    {
        Millis {
            millis: millis as u128,
        }
    }

    /// The number of milliseconds.
    pub fn as_millis(&self) -> u128
        ensures value { result ≡ self.now }
        ensures small { result < 1000 * 2 ^ 64 }
    {
        self.millis
    }

    /// The number of whole seconds; a fraction is dropped.
    pub fn as_secs(&self) -> u128
        ensures value { result ≡ self.now / 1000 }
        ensures small { result < 2 ^ 64 }
    {
        self.millis / 1000
    }
}
