//! The error of a payload that fits no case.

ghost use Rattle.std.specs.Prelude.{◌≡◌, IfOk};
ghost use Rattle.my_reading.specs.Errors.{invalid_data, refusal_error, unfit_error};

use crate::error::{DriverError, Error, IoError, IoFault, IoKind};
use my_auth::{AuthMove, AuthRefusal, plugin_in};
use my_frame::{Blob, NoMemory};
use my_grammar::Spot;
use std::alloc::Global;

/// A payload that fits no case, after `place` others.
pub fn invalid_data(place: u64) -> Error
    ensures { result ≡ invalid_data place }
{
    Error::Io(IoError::Io(IoFault {
        kind: IoKind::InvalidData,
        place,
    }))
}

// Why a client goes on no more with the chain in which it shows who it is.
fn refusal_error(
    alloc: Global,
    refusal: AuthRefusal,
    payload: &[u8],
    place: u64,
) -> Result<Error, NoMemory>
    ensures { IfOk result (λ error. error ≡ refusal_error refusal payload.now place) }
{
    match refusal {
        AuthRefusal::UnknownAuthPlugin => Ok(Error::Driver(DriverError::UnknownAuthPlugin {
            name: Blob::from_slice(alloc, plugin_in(payload))?,
        })),
        AuthRefusal::CleartextPluginDisabled => {
            Ok(Error::Driver(DriverError::CleartextPluginDisabled))
        }
        AuthRefusal::MysqlOldPasswordDisabled => {
            Ok(Error::Driver(DriverError::MysqlOldPasswordDisabled))
        }
        AuthRefusal::FullAuthRefused => Ok(Error::Driver(DriverError::FullAuthRefused)),
        AuthRefusal::UnexpectedPacket => Ok(Error::Driver(DriverError::UnexpectedPacket {
            payload: Blob::from_slice(alloc, payload)?,
        })),
        AuthRefusal::Malformed => Ok(invalid_data(place)),
    }
}

/// The error of a payload that fits no case where this is awaited, after `place` others.
pub fn unfit_error(alloc: Global, spot: Spot, payload: &[u8], place: u64) -> Result<Error, NoMemory>
    ensures { IfOk result (λ error. error ≡ unfit_error spot payload.now place) }
{
    match spot {
        Spot::Authentication(stand) => match stand.read(payload) {
            AuthMove::Refuse(refusal) => refusal_error(alloc, refusal, payload, place),
            _ => Ok(invalid_data(place)),
        },
        _ => Ok(invalid_data(place)),
    }
}
