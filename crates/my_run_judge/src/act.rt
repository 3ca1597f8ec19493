//! What a line may do at a connection, by its step, its outcome and how many uses it has.

ghost use Rattle.std.specs.Prelude.{◌≡◌};
ghost use Rattle.my_script.specs.Streams.{target};
ghost use Rattle.my_run_judge.specs.Acts.{
  act_ahead,
  act_here,
  act_of,
  act_there,
  act_with,
  at_dialing,
  at_gathering,
  at_idle,
  at_open,
  goes_on,
  ground_of,
  is_missing,
  is_unprepared,
  moves_world,
};

use crate::outcome::{
    asked, cancelled, dialed, dropped, gathered, itemed, let_go, moved, passed, polled,
    polled_once, polls_handshake, reads, refused, told,
};
use my_script::{Aim, Outcome, Step, target};

/// What the lines so far made of a connection.
#[derive(Clone, Copy, PartialEq, Eq)]
pub enum Status {
    /// It isn't dialed yet, and this many others are dialed first.
    Ahead(u64),
    /// Steps may not name it any more.
    Absent,
    /// Its dial wasn't ready.
    Dialing,
    /// No call is open.
    Idle,
    /// A call is open.
    Open,
    /// Rows are gathered, from the call with this index on, which may be the one after any other.
    Gathers(u128),
}

/// What the calls that ended made of a connection.
#[derive(Clone, Copy, PartialEq, Eq)]
pub enum Ground {
    Closed,
    /// A stream took the set that is read, or whose end is left.
    Taken,
    Free,
}

impl Ground {
    /// Of a connection that is closed or isn't, and whose set a stream took or didn't.
    pub(crate) fn of(closed: bool, taken: bool) -> Ground
        ensures { result ≡ ground_of closed taken }
    {
        if closed {
            Ground::Closed
        } else if taken {
            Ground::Taken
        } else {
            Ground::Free
        }
    }
}

/// What a line does.
#[derive(Clone, Copy, PartialEq, Eq)]
pub enum Act {
    /// No run has such a line.
    Wrong,
    /// Nothing that its tape shows.
    Skips(Status),
    /// It shows the last OK.
    Tells,
    /// The dial isn't ready.
    Holds,
    /// The dial fails.
    Fails,
    /// The dial gives a link, and the handshake is polled.
    Connects(Status),
    /// Calls are polled.
    Polls(Status),
    /// The call that passes over a set's rest is polled, and then those that take the next set, or read it.
    Passes(Aim, Status),
    /// A call ends at once.
    Ends(Status),
    /// The open call is cancelled.
    Cancels(Status),
}

fn at_idle(base: Ground, next: usize, step: &Step, outcome: &Outcome, uses: usize) -> Act
    ensures { result ≡ at_idle base next step.now outcome.now uses }
{
    match step {
        Step::Conn | Step::Advance(_) | Step::Random(_) => Act::Wrong,
        Step::Query(_, _)
        | Step::Prepare(_, _)
        | Step::Execute(_, _, _)
        | Step::CloseStatement(_, _)
        | Step::Drop(_)
        | Step::Ping(_)
        | Step::Reset(_)
        | Step::User(_, _)
        | Step::Begin(_, _)
        | Step::Commit(_)
        | Step::Rollback(_) => asked(base, outcome, uses),
        Step::Next(_) => reads(base, Aim::Row, next, outcome, uses),
        Step::Collect(_) => reads(base, Aim::Rows, next, outcome, uses),
        Step::Stream(_) => reads(base, Aim::Take, next, outcome, uses),
        Step::Item(_) => itemed(base, outcome, uses),
        Step::Unstream(_) => let_go(outcome, uses),
        Step::ForgetTransaction(_) | Step::Quit(_) => polled_once(outcome, uses),
        Step::Fields(_) => told(outcome, uses),
        Step::Poll(_) | Step::Cancel(_) => refused(Status::Idle, outcome, uses),
    }
}

fn goes_on(aim: Aim, number: u64, next: usize, outcome: &Outcome, uses: usize) -> Act
    ensures { result ≡ goes_on aim number next outcome.now uses }
{
    if next > 0 {
        if uses == 1 {
            return polled(outcome);
        }
        return passed(aim, next, outcome, uses);
    }
    if uses == 1 {
        polls_handshake(number, outcome)
    } else {
        Act::Wrong
    }
}

fn at_open(aim: Aim, number: u64, next: usize, step: &Step, outcome: &Outcome, uses: usize) -> Act
    ensures { result ≡ at_open aim number next step.now outcome.now uses }
{
    match step {
        Step::Poll(_) => goes_on(aim, number, next, outcome, uses),
        Step::Cancel(_) => cancelled(next, outcome, uses),
        _ => refused(Status::Open, outcome, uses),
    }
}

fn at_gathering(first: u128, next: usize, step: &Step, outcome: &Outcome, uses: usize) -> Act
    ensures { result ≡ at_gathering first next step.now outcome.now uses }
{
    match step {
        Step::Poll(_) => gathered(first, outcome, uses),
        Step::Cancel(_) => cancelled(next, outcome, uses),
        _ => refused(Status::Gathers(first), outcome, uses),
    }
}

fn at_dialing(number: u64, step: &Step, outcome: &Outcome, uses: usize) -> Act
    ensures { result ≡ at_dialing number step.now outcome.now uses }
{
    match step {
        Step::Poll(_) => dialed(number, outcome, uses),
        Step::Cancel(_) => dropped(outcome, uses),
        _ => refused(Status::Dialing, outcome, uses),
    }
}

fn act_here(
    aim: Aim,
    status: Status,
    number: u64,
    next: usize,
    base: Ground,
    step: &Step,
    outcome: &Outcome,
    uses: usize,
) -> Act
    ensures { result ≡ act_here aim status number next base step.now outcome.now uses }
{
    match status {
        Status::Ahead(_) => Act::Wrong,
        Status::Absent => refused(Status::Absent, outcome, uses),
        Status::Dialing => at_dialing(number, step, outcome, uses),
        Status::Idle => at_idle(base, next, step, outcome, uses),
        Status::Open => at_open(aim, number, next, step, outcome, uses),
        Status::Gathers(first) => at_gathering(first, next, step, outcome, uses),
    }
}

fn act_there(
    aim: Aim,
    status: Status,
    number: u64,
    next: usize,
    base: Ground,
    step: &Step,
    outcome: &Outcome,
    uses: usize,
) -> Act
    ensures { result ≡ act_there aim status number next base step.now outcome.now uses (target step.now) }
{
    match target(step) {
        Some(named) => {
            if named == number {
                act_here(aim, status, number, next, base, step, outcome, uses)
            } else {
                Act::Skips(status)
            }
        }
        None => Act::Skips(status),
    }
}

fn act_ahead(ahead: u64, number: u64, outcome: &Outcome, uses: usize, named: Option<u64>) -> Act
    ensures { result ≡ act_ahead ahead number outcome.now uses named }
{
    match named {
        Some(named) => {
            if named < number.saturating_sub(ahead) {
                Act::Skips(Status::Ahead(ahead))
            } else {
                refused(Status::Ahead(ahead), outcome, uses)
            }
        }
        None => {
            if ahead == 0 {
                dialed(number, outcome, uses)
            } else {
                Act::Skips(Status::Ahead(ahead - 1))
            }
        }
    }
}

fn act_of(
    aim: Aim,
    status: Status,
    number: u64,
    next: usize,
    base: Ground,
    step: &Step,
    outcome: &Outcome,
    uses: usize,
) -> Act
    ensures { result ≡ act_of aim status number next base step.now outcome.now uses }
{
    match status {
        Status::Ahead(ahead) => act_ahead(ahead, number, outcome, uses, target(step)),
        _ => act_there(aim, status, number, next, base, step, outcome, uses),
    }
}

// Whether the step moves the world, and no connection.
fn moves_world(step: &Step) -> bool
    ensures { result ≡ moves_world step.now }
{
    matches!(step, Step::Advance(_) | Step::Random(_))
}

// Whether the step is one of a stream, or of a transaction, that isn't there.
fn is_missing(number: u64, found: bool, step: &Step) -> bool
    ensures { result ≡ is_missing number found step.now }
{
    if found {
        return false;
    }
    match step {
        Step::Item(named)
        | Step::Unstream(named)
        | Step::Commit(named)
        | Step::Rollback(named)
        | Step::ForgetTransaction(named) => *named == number,
        _ => false,
    }
}

// Whether the step is one of a statement that isn't there.
fn is_unprepared(number: u64, prepared: bool, step: &Step) -> bool
    ensures { result ≡ is_unprepared number prepared step.now }
{
    if prepared {
        return false;
    }
    match step {
        Step::Execute(named, _, _) | Step::CloseStatement(named, _) => *named == number,
        _ => false,
    }
}

/// What a line does at the connection with this number, where the stream or the transaction that the step needs is found
/// or isn't, and so is the statement that it names. The call that is open has this aim. `next` calls ended, which made
/// this of the connection.
pub(crate) fn act_with(
    found: bool,
    prepared: bool,
    aim: Aim,
    status: Status,
    number: u64,
    next: usize,
    base: Ground,
    step: &Step,
    outcome: &Outcome,
    uses: usize,
) -> Act
    ensures { result ≡ act_with found prepared aim status number next base step.now outcome.now uses }
{
    if moves_world(step) {
        return moved(status, outcome, uses);
    }
    if is_missing(number, found, step) {
        return refused(status, outcome, uses);
    }
    if is_unprepared(number, prepared, step) {
        return refused(status, outcome, uses);
    }
    act_of(aim, status, number, next, base, step, outcome, uses)
}
