//! What a poll met of its link, by what it came to.

ghost use Rattle.std.specs.Bool.{Decides};
ghost use Rattle.my_run_judge.specs.Meets.{
  DriverMet,
  ErrorMet,
  HasMet,
  IoMet,
  IsHeld,
  IsInBytes,
  IsReady,
  KindMet,
  LastMet,
  RowMet,
  ShownMet,
};

use my_frame::limits::MOST_TAKEN;
use my_link::Met;
use my_reading::{DriverError, Error, IoError, IoKind};
use my_script::Outcome;

// Whether bytes were met, and these counts of faults, holds and ends, and nothing else.
fn has_met(met: &Met, faults: u64, holds: u64, ends: u64) -> bool
    ensures { Decides result (HasMet met.now faults holds ends) }
{
    let mut like = Met::nothing();
    like.faults = faults;
    like.holds = holds;
    like.ends = ends;
    like.taken = met.taken;
    *met == like
}

fn is_ready(met: &Met) -> bool
    ensures { Decides result (IsReady met.now) }
{
    has_met(met, 0, 0, 0)
}

fn is_held(met: &Met) -> bool
    ensures { Decides result (IsHeld met.now) }
{
    has_met(met, 0, 1, 0) || (is_ready(met) && met.taken >= MOST_TAKEN)
}

fn is_in_bytes(met: &Met) -> bool
    ensures { Decides result (IsInBytes met.now) }
{
    is_ready(met) || has_met(met, 0, 0, 1)
}

fn kind_met(kind: IoKind, met: &Met) -> bool
    ensures { Decides result (KindMet kind met.now) }
{
    match kind {
        IoKind::Link => has_met(met, 1, 0, 0),
        IoKind::Dial => false,
        IoKind::UnexpectedEof => has_met(met, 0, 0, 1),
        IoKind::InvalidData => is_in_bytes(met),
    }
}

fn io_met(error: &IoError, met: &Met) -> bool
    ensures { Decides result (IoMet error.now met.now) }
{
    match error {
        IoError::Io(fault) => kind_met(fault.kind, met),
        IoError::Codec(_) => is_in_bytes(met),
    }
}

fn driver_met(error: &DriverError, met: &Met) -> bool
    ensures { Decides result (DriverMet error.now met.now) }
{
    match error {
        DriverError::MixedParams
        | DriverError::NestedTransaction
        | DriverError::ReadOnlyTransNotSupported
        | DriverError::Params(_)
        | DriverError::StmtParamsMismatch { .. }
        | DriverError::StmtParamsNumberExceedsLimit { .. }
        | DriverError::UnexpectedPacket { .. }
        | DriverError::UnknownAuthPlugin { .. }
        | DriverError::CleartextPluginDisabled
        | DriverError::MysqlOldPasswordDisabled
        | DriverError::FullAuthRefused => is_in_bytes(met),
        _ => false,
    }
}

fn error_met(error: &Error, met: &Met) -> bool
    ensures { Decides result (ErrorMet error.now met.now) }
{
    match error {
        Error::Io(error) => io_met(error, met),
        Error::Server(_) => is_in_bytes(met),
        Error::Driver(error) => driver_met(error, met),
        Error::Url(_) | Error::Other(_) | Error::NoMemory => false,
    }
}

fn shown_met(outcome: &Outcome, met: &Met) -> bool
    ensures { Decides result (ShownMet outcome.now met.now) }
{
    match outcome {
        Outcome::Pending => is_held(met),
        Outcome::Failed(error) => error_met(error, met),
        _ => is_ready(met),
    }
}

/// Whether the last poll of a line that shows this may have met this.
pub fn last_met(outcome: &Outcome, met: &Met) -> bool
    ensures { Decides result (LastMet outcome.now met.now) }
{
    met.taken <= MOST_TAKEN && shown_met(outcome, met)
}

/// Whether a poll that returned a row may have met this.
pub fn row_met(met: &Met) -> bool
    ensures { Decides result (RowMet met.now) }
{
    met.taken <= MOST_TAKEN && is_ready(met)
}
