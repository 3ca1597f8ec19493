//! What closes a connection.

ghost use Rattle.std.specs.Prelude.{◌≡◌};
ghost use Rattle.my_reading.specs.Calls.{is_connect, is_quit, is_unrefused};
ghost use Rattle.my_reading.specs.Endings.{awaits_head};
ghost use Rattle.my_reading.specs.Told.{closes, closes_by, closes_driver};
ghost use Rattle.my_machine.specs.Stops.{told_of};
ghost use Rattle.my_machine.specs.Closes.{closes_at};

use crate::step::Ending;
use my_grammar::Spot;
use my_reading::{Answer, CallKind, DriverError, Error};

/// Whether a call of this kind has nothing to do on a closed connection, which refuses each other one.
pub fn is_unrefused(kind: CallKind) -> bool
    ensures { result ≡ is_unrefused kind }
{
    match kind {
        CallKind::Quit | CallKind::ForgetTransaction => true,
        _ => false,
    }
}

/// Whether the call connects.
pub fn is_connect(kind: CallKind) -> bool
    ensures { result ≡ is_connect kind }
{
    match kind {
        CallKind::Connect => true,
        _ => false,
    }
}

/// Whether the call is a quit.
pub fn is_quit(kind: CallKind) -> bool
    ensures { result ≡ is_quit kind }
{
    match kind {
        CallKind::Quit => true,
        _ => false,
    }
}

// Whether the refusal closes a connection.
fn closes_driver(refusal: &DriverError) -> bool
    ensures { result ≡ closes_driver refusal.now }
{
    match refusal {
        DriverError::ConnectionClosed
        | DriverError::MixedParams
        | DriverError::NestedTransaction
        | DriverError::ReadOnlyTransNotSupported => false,
        _ => true,
    }
}

/// Whether a call of this kind that fails by this error closes the connection.
pub fn closes_by(error: &Error, kind: CallKind) -> bool
    ensures { result ≡ closes_by error.now kind }
{
    match error {
        Error::Driver(refusal) => closes_driver(refusal),
        Error::Server(_) => is_connect(kind),
        _ => true,
    }
}

/// Whether what a call of this kind returned closes the connection.
pub fn closes(ending: &Ending, kind: CallKind) -> bool
    ensures { result ≡ closes (told_of ending.now) kind }
{
    match ending {
        Ending::Answered(Answer::Ready) => is_quit(kind),
        Ending::Answered(_) => false,
        Ending::Failed(error) => closes_by(error, kind),
    }
}

fn awaits_head(spot: Spot) -> bool
    ensures { result ≡ awaits_head spot }
{
    match spot {
        Spot::Idle | Spot::Rows => false,
        _ => true,
    }
}

/// Whether cancelling a call of this kind closes the connection.
pub fn closes_at(kind: CallKind, spot: Spot) -> bool
    ensures { result ≡ closes_at kind spot }
{
    match kind {
        CallKind::NextRow | CallKind::DropResult | CallKind::TakeSet | CallKind::SkipTaken => {
            awaits_head(spot)
        }
        _ => true,
    }
}
