//! The errors of a bare link.

ghost use Rattle.std.specs.Prelude.{◌≡◌};
ghost use Rattle.my_reading.specs.Errors.{io_error};

use my_reading::{Error, IoError, IoFault, IoKind};

/// The error of a bare link, of which no payload was counted.
pub(crate) fn link_error(kind: IoKind) -> Error
    ensures { result ≡ io_error kind 0 }
{
    Error::Io(IoError::Io(IoFault { kind, place: 0 }))
}
