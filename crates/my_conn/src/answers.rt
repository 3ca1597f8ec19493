//! What a connection returns and meets, by what its parts returned.
ghost use Rattle.std.specs.Prelude.{◌≡◌};
ghost use Rattle.my_client.specs.Calls.{pending_after};
ghost use Rattle.my_conn.specs.Calls.{lost_answer};
ghost use Rattle.my_conn.specs.Checks.{met_at};

use my_client::After;
use my_link::{CheckStep, Met};
use my_reading::{Answer, CallKind, DriverError, Error};

/// What a call of a lost connection returns.
pub(crate) fn lost_answer(kind: CallKind) -> After
    ensures { result ≡ lost_answer kind }
{
    match kind {
        CallKind::ForgetTransaction | CallKind::Quit => After::Answered(Answer::Ready),
        _ => After::Failed(Error::Driver(DriverError::ConnectionClosed)),
    }
}

/// The call that is open then.
pub(crate) fn pending_after(kind: CallKind, after: &After) -> Option<CallKind>
    ensures { result ≡ pending_after kind after.now }
{
    match after {
        After::Pending => Some(kind),
        After::Answered(_) | After::Failed(_) => None,
    }
}

/// What a link meets that says so at a check.
pub(crate) fn met_at(step: CheckStep) -> Met
    ensures { result ≡ met_at step }
{
    match step {
        CheckStep::Alive => Met::nothing(),
        CheckStep::Dead => Met {
            deaths: 1,
            ..Met::nothing()
        },
        CheckStep::NotYet => Met {
            holds: 1,
            ..Met::nothing()
        },
        CheckStep::Failed => Met {
            faults: 1,
            ..Met::nothing()
        },
    }
}
