//! What a call that reads a URL returns in place of options.

ghost use Rattle.std.specs.Prelude.{◌≡◌, IfOk};

use my_frame::NoMemory;
use my_opts_parts::UrlError;
use std::alloc::{AllocError, Global};
use std::fmt;

/// What a call that reads a URL returns in place of options.
#[derive(Debug, Drop, PartialEq, Eq)]
pub enum UrlFault {
    /// The URL gives none.
    Url(UrlError),
    NoMemory,
}

impl UrlFault {
    /// A second value of the same error.
    pub fn copy(&self, alloc: Global) -> Result<UrlFault, NoMemory>
        ensures { IfOk result (λ e. e ≡ self.now) }
    {
        match self {
            UrlFault::Url(error) => Ok(UrlFault::Url(error.copy(alloc)?)),
            UrlFault::NoMemory => Ok(UrlFault::NoMemory),
        }
    }
}

impl fmt::Display for UrlFault {
    fn fmt<W: fmt::Write>(&self, f: &mut fmt::Formatter<W>) -> fmt::Result {
        match self {
            UrlFault::Url(error) => error.fmt(f),
            UrlFault::NoMemory => f.write_str("out of memory"),
        }
    }
}

impl std::error::Error for UrlFault {}

impl From<AllocError> for UrlFault {
    ghost use Rattle.std.specs.Prelude.{◌≡◌};
    ghost use Rattle.my_opts.specs.declared.error.UrlFault.TheVariants.{NoMemory};

    ghost from_gives = { λ _ e. e ≡ NoMemory };

    fn from(_e: AllocError) -> UrlFault {
        UrlFault::NoMemory
    }
}

impl From<NoMemory> for UrlFault {
    ghost use Rattle.std.specs.Prelude.{◌≡◌};
    ghost use Rattle.my_opts.specs.declared.error.UrlFault.TheVariants.{NoMemory};

    ghost from_gives = { λ _ e. e ≡ NoMemory };

    fn from(_e: NoMemory) -> UrlFault {
        UrlFault::NoMemory
    }
}
