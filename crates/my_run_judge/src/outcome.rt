//! What the outcome of a line says that was done, by how many uses it has.

ghost use Rattle.std.specs.Prelude.{◌≡◌};
ghost use Rattle.my_run_judge.specs.Acts.{
  after_cancel,
  after_passing,
  asked,
  cancelled,
  closed_at_once,
  connecting,
  dialed,
  dialed_once,
  dropped,
  follows,
  gathered,
  gathering,
  itemed,
  let_go,
  moved,
  no_item,
  passed,
  passes,
  passing,
  polled,
  polled_once,
  reads,
  refused,
  taking,
  told,
};

use crate::act::{Act, Ground, Status};
use my_script::{Aim, Outcome};

pub(crate) fn refused(status: Status, outcome: &Outcome, uses: usize) -> Act
    ensures { result ≡ refused status outcome.now uses }
{
    match outcome {
        Outcome::NoSuchHandle if uses == 0 => Act::Skips(status),
        _ => Act::Wrong,
    }
}

pub(crate) fn moved(status: Status, outcome: &Outcome, uses: usize) -> Act
    ensures { result ≡ moved status outcome.now uses }
{
    match outcome {
        Outcome::Done if uses == 0 => Act::Skips(status),
        _ => Act::Wrong,
    }
}

fn connects(number: u64, outcome: &Outcome) -> Act
    ensures { result ≡ connecting number outcome.now Act.Connects }
{
    match outcome {
        Outcome::Pending => Act::Connects(Status::Open),
        Outcome::Connected(named, _, _) => {
            if *named == number {
                Act::Connects(Status::Idle)
            } else {
                Act::Wrong
            }
        }
        Outcome::Failed(_) => Act::Connects(Status::Absent),
        _ => Act::Wrong,
    }
}

pub(crate) fn polls_handshake(number: u64, outcome: &Outcome) -> Act
    ensures { result ≡ connecting number outcome.now Act.Polls }
{
    match connects(number, outcome) {
        Act::Connects(status) => Act::Polls(status),
        _ => Act::Wrong,
    }
}

fn dialed_once(outcome: &Outcome) -> Act
    ensures { result ≡ dialed_once outcome.now }
{
    match outcome {
        Outcome::Pending => Act::Holds,
        Outcome::Failed(_) => Act::Fails,
        _ => Act::Wrong,
    }
}

pub(crate) fn dialed(number: u64, outcome: &Outcome, uses: usize) -> Act
    ensures { result ≡ dialed number outcome.now uses }
{
    if uses == 1 {
        dialed_once(outcome)
    } else if uses == 2 {
        connects(number, outcome)
    } else {
        Act::Wrong
    }
}

pub(crate) fn polled(outcome: &Outcome) -> Act
    ensures { result ≡ polled outcome.now }
{
    match outcome {
        Outcome::Pending => Act::Polls(Status::Open),
        Outcome::Done
        | Outcome::SetEnd
        | Outcome::NoSet
        | Outcome::Row(_)
        | Outcome::Prepared(_)
        | Outcome::Flag(_)
        | Outcome::Failed(_) => Act::Polls(Status::Idle),
        _ => Act::Wrong,
    }
}

pub(crate) fn polled_once(outcome: &Outcome, uses: usize) -> Act
    ensures { result ≡ polled_once outcome.now uses }
{
    if uses == 1 {
        polled(outcome)
    } else {
        Act::Wrong
    }
}

fn gathering(first: u128, outcome: &Outcome) -> Act
    ensures { result ≡ gathering first outcome.now }
{
    match outcome {
        Outcome::Pending => Act::Polls(Status::Gathers(first)),
        Outcome::Done | Outcome::Rows(_) | Outcome::Failed(_) => Act::Polls(Status::Idle),
        _ => Act::Wrong,
    }
}

pub(crate) fn gathered(first: u128, outcome: &Outcome, uses: usize) -> Act
    ensures { result ≡ gathered first outcome.now uses }
{
    if uses == 0 {
        Act::Wrong
    } else {
        gathering(first, outcome)
    }
}

fn closed_at_once(outcome: &Outcome, uses: usize) -> Act
    ensures { result ≡ closed_at_once outcome.now uses }
{
    match outcome {
        Outcome::Failed(_) if uses == 0 => Act::Ends(Status::Idle),
        _ => Act::Wrong,
    }
}

pub(crate) fn asked(base: Ground, outcome: &Outcome, uses: usize) -> Act
    ensures { result ≡ asked base outcome.now uses }
{
    match base {
        Ground::Closed => closed_at_once(outcome, uses),
        Ground::Taken | Ground::Free => polled_once(outcome, uses),
    }
}

fn taking(outcome: &Outcome) -> Act
    ensures { result ≡ taking outcome.now }
{
    match outcome {
        Outcome::Pending => Act::Polls(Status::Open),
        Outcome::Done | Outcome::NoSet | Outcome::Failed(_) => Act::Polls(Status::Idle),
        _ => Act::Wrong,
    }
}

// A line whose calls are polled after the one that passes over the rest of a set.
fn after_passing(aim: Aim, polled: Act) -> Act
    ensures { result ≡ after_passing aim polled }
{
    match polled {
        Act::Polls(status) => Act::Passes(aim, status),
        _ => Act::Wrong,
    }
}

/// Once the rest of a set that a stream took is passed over, the next one is taken, or read.
pub(crate) fn passed(aim: Aim, next: usize, outcome: &Outcome, uses: usize) -> Act
    ensures { result ≡ passed aim next outcome.now uses }
{
    match aim {
        Aim::Take if uses == 2 => after_passing(aim, taking(outcome)),
        Aim::Row if uses == 2 => after_passing(aim, polled(outcome)),
        Aim::Rows if uses > 1 => after_passing(aim, gathering(next as u128 + 1, outcome)),
        _ => Act::Wrong,
    }
}

fn passing(outcome: &Outcome) -> Act
    ensures { result ≡ passing outcome.now }
{
    match outcome {
        Outcome::Pending => Act::Polls(Status::Open),
        Outcome::Failed(_) => Act::Polls(Status::Idle),
        _ => Act::Wrong,
    }
}

fn passes(aim: Aim, next: usize, outcome: &Outcome, uses: usize) -> Act
    ensures { result ≡ passes aim next outcome.now uses }
{
    if uses == 1 {
        passing(outcome)
    } else {
        passed(aim, next, outcome, uses)
    }
}

fn follows(aim: Aim, next: usize, outcome: &Outcome, uses: usize) -> Act
    ensures { result ≡ follows aim next outcome.now uses }
{
    match aim {
        Aim::Take if uses == 1 => taking(outcome),
        Aim::Take => Act::Wrong,
        Aim::Row => polled_once(outcome, uses),
        Aim::Rows => gathered(next as u128, outcome, uses),
    }
}

/// A step that takes a set, or reads it.
pub(crate) fn reads(base: Ground, aim: Aim, next: usize, outcome: &Outcome, uses: usize) -> Act
    ensures { result ≡ reads base aim next outcome.now uses }
{
    match base {
        Ground::Closed => closed_at_once(outcome, uses),
        Ground::Taken => passes(aim, next, outcome, uses),
        Ground::Free => follows(aim, next, outcome, uses),
    }
}

fn no_item(outcome: &Outcome, uses: usize) -> Act
    ensures { result ≡ no_item outcome.now uses }
{
    match outcome {
        Outcome::NoSet if uses == 0 => Act::Skips(Status::Idle),
        _ => Act::Wrong,
    }
}

pub(crate) fn itemed(base: Ground, outcome: &Outcome, uses: usize) -> Act
    ensures { result ≡ itemed base outcome.now uses }
{
    match base {
        Ground::Taken => polled_once(outcome, uses),
        Ground::Closed | Ground::Free => no_item(outcome, uses),
    }
}

pub(crate) fn let_go(outcome: &Outcome, uses: usize) -> Act
    ensures { result ≡ let_go outcome.now uses }
{
    match outcome {
        Outcome::Done if uses == 0 => Act::Skips(Status::Idle),
        _ => Act::Wrong,
    }
}

pub(crate) fn told(outcome: &Outcome, uses: usize) -> Act
    ensures { result ≡ told outcome.now uses }
{
    match outcome {
        Outcome::Fields(_) if uses == 0 => Act::Tells,
        _ => Act::Wrong,
    }
}

fn after_cancel(next: usize) -> Status
    ensures { result ≡ after_cancel next }
{
    if next == 0 {
        Status::Absent
    } else {
        Status::Idle
    }
}

pub(crate) fn cancelled(next: usize, outcome: &Outcome, uses: usize) -> Act
    ensures { result ≡ cancelled next outcome.now uses }
{
    match outcome {
        Outcome::Done if uses == 0 => Act::Cancels(after_cancel(next)),
        _ => Act::Wrong,
    }
}

pub(crate) fn dropped(outcome: &Outcome, uses: usize) -> Act
    ensures { result ≡ dropped outcome.now uses }
{
    match outcome {
        Outcome::Done if uses == 0 => Act::Skips(Status::Absent),
        _ => Act::Wrong,
    }
}
