//! A step at a connection whose handshake is open.
ghost use Rattle.std.specs.Prelude.{◌≡◌, ◌∷◌, [], true, IfOk};
ghost use Rattle.my_script.specs.declared.action.Work.TheVariants.{Cancel as CancelWork};
ghost use Rattle.my_steps.specs.Connecting.{EachJoins, EachShakes, Settles, UnmadeIs, greeted_by};
ghost use Rattle.my_steps.specs.Did.{EachDid};
ghost use Rattle.my_steps.specs.Midst.{is_linked};
ghost use Rattle.my_steps.specs.Sums.{quiet};
ghost use Rattle.my_steps.specs.declared.slot.Slot.TheVariants.{Connecting as ConnectingAt};

use crate::outcome::{StepResult, unused, used_once, used_twice};
use crate::slot::Slot;
use my_client::Tape;
use my_conn::{Conn, Connected, Connecting, Unmade};
use my_frame::NoMemory;
use my_handshake::server_version;
use my_link::{Link, Met, NoAid};
use my_script::{Outcome, Use};
use std::alloc::Global;

// What a step shows of a connection that was made.
fn greeted<L>(conn: &Conn<L>, number: u64) -> Outcome
    ensures { result ≡ greeted_by number conn.now.seen }
{
    Outcome::Connected(number, conn.id(), server_version(conn.version()))
}

// What is at the number of a connection that wasn't made. Where it keeps no tape, memory ran out.
fn unmade<L>(alloc: Global, left: Unmade<L>) -> (Slot<L>, Result<Outcome, NoMemory>)
    ensures unmade { IfOk result.1 (λ o. UnmadeIs left result.0 o) }
    ensures linked { is_linked result.0 ≡ true }
{
    let Unmade { error, link, tape } = left;
    match tape {
        Some(tape) => (Slot::Ended(tape, link), Ok(Outcome::Failed(error))),
        None => {
            drop(error);
            (Slot::Ended(Tape::new(alloc), link), Err(NoMemory))
        }
    }
}

// What is at the number then, and what the step shows.
fn settle<L>(
    alloc: Global,
    connected: Connected<L>,
    number: u64,
) -> (Slot<L>, Result<Outcome, NoMemory>)
    ensures settles { IfOk result.1 (λ o. Settles number connected result.0 o) }
    ensures linked { is_linked result.0 ≡ true }
{
    match connected {
        Connected::Pending(conn) => (Slot::Connecting(conn), Ok(Outcome::Pending)),
        Connected::Made(conn) => {
            let outcome = greeted(&conn, number);
            (Slot::There(conn), Ok(outcome))
        }
        Connected::Failed(left) => unmade(alloc, left),
    }
}

// Polls the handshake at this moment.
fn shake<L: Link>(
    alloc: Global,
    conn: Connecting<L>,
    number: u64,
    now: u64,
) -> (Slot<L>, Result<(Outcome, Met), NoMemory>)
    ensures shakes { IfOk result.1 (λ r. EachShakes L.looks number conn result.0 r.0 r.1) }
    ensures linked { is_linked result.0 ≡ true }
{
    let mut aid = NoAid;
    let (connected, met) = conn.poll(alloc, &mut aid, now);
    let (slot, outcome) = settle(alloc, connected, number);
    match outcome {
        Ok(outcome) => (slot, Ok((outcome, met))),
        Err(error) => (slot, Err(error)),
    }
}

/// Polls the first call of a connection, after the dial that gave its link.
pub(crate) fn first_poll<L: Link>(
    alloc: Global,
    conn: Connecting<L>,
    number: u64,
    now: u64,
) -> (Slot<L>, Result<StepResult, NoMemory>)
    ensures did { IfOk result.1 (λ d. EachJoins L.looks number (quiet number ∷ []) conn result.0 d) }
    ensures linked { is_linked result.0 ≡ true }
{
    let (slot, shaken) = shake(alloc, conn, number, now);
    match shaken {
        Ok((outcome, met)) => {
            let first = Use {
                number,
                met: Met::nothing(),
            };
            (slot, used_twice(alloc, outcome, first, Use { number, met }))
        }
        Err(error) => (slot, Err(error)),
    }
}

/// Polls the handshake.
pub(crate) fn poll_connect<L: Link>(
    alloc: Global,
    conn: Connecting<L>,
    number: u64,
    now: u64,
) -> (Slot<L>, Result<StepResult, NoMemory>)
    ensures did { IfOk result.1 (λ d. EachJoins L.looks number [] conn result.0 d) }
    ensures linked { is_linked result.0 ≡ true }
{
    let (slot, shaken) = shake(alloc, conn, number, now);
    match shaken {
        Ok((outcome, met)) => (slot, used_once(alloc, outcome, Use { number, met })),
        Err(error) => (slot, Err(error)),
    }
}

/// Cancels the handshake: the connection isn't there any more.
pub(crate) fn cancel_connect<L: Link>(
    alloc: Global,
    conn: Connecting<L>,
    number: u64,
) -> (Slot<L>, StepResult)
    ensures did { EachDid L.looks number CancelWork (ConnectingAt conn) result.0 result.1 }
    ensures linked { is_linked result.0 ≡ true }
{
    let (tape, link) = conn.cancel();
    let did = unused(alloc, Outcome::Done);
    match tape {
        Some(tape) => (Slot::Ended(tape, link), did),
        None => (Slot::Ended(Tape::new(alloc), link), did),
    }
}
