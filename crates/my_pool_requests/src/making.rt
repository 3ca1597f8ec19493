//! How the connection of a request is made: its dial, and its connect call. No event of the pool is here.

ghost use Rattle.std.specs.Prelude.{◌≡◌, IfOk};
ghost use Rattle.my_pool_requests.specs.Being.{IsBeingMade};
ghost use Rattle.my_pool_requests.specs.Makes.{Begins, ConnectsOver, DialsOn, MadeFits, MakesOn, TriesDial};
ghost use Rattle.my_pool_requests.specs.Makes.{RunsOutOr, outside, undialed};
ghost use Rattle.my_pool_requests.specs.declared.making.Made.TheVariants as makings;

use crate::boxed::BoxedMaking;
use crate::request::Moment;
use my_client::Tape;
use my_conn::{Conn, Connected, Connecting, Unmade};
use my_frame::NoMemory;
use my_link::{Aid, DialStep, Dialer, Link};
use my_opts::Opts;
use my_pool::BoxedConn;
use my_reading::{Error, IoError, IoFault, IoKind};
use std::alloc::Global;

/// What the making of a request's connection comes to.
pub(crate) enum Made<L> {
    /// The dial isn't ready.
    Undialed,
    /// The connection isn't made yet.
    Pending(BoxedMaking<L>),
    /// It is made.
    Good(BoxedConn<L>),
    /// The dial or the connect call failed. Where a tape was kept, what was done on the link is left.
    Failed(Error, Option<Tape>),
}

// The error of a dial that failed.
fn undialed() -> Error
    ensures { result ≡ undialed }
{
    Error::Io(IoError::Io(IoFault {
        kind: IoKind::Dial,
        place: 0,
    }))
}

// A connection isn't made yet. Out of memory for its box, it is let go.
fn pending<L: Drop>(alloc: Global, making: Connecting<L>) -> Made<L>
    ensures { RunsOutOr (makings.Pending making) result }
{
    match BoxedMaking::new(alloc, making) {
        Ok(making) => Made::Pending(making),
        Err(NoMemory) => Made::Failed(Error::NoMemory, None),
    }
}

// A connection is made. Out of memory for its box, it is let go.
fn good<L: Drop>(alloc: Global, conn: Conn<L>) -> Made<L>
    ensures { RunsOutOr (makings.Good conn) result }
{
    match BoxedConn::new(alloc, conn) {
        Ok(conn) => Made::Good(conn),
        Err(NoMemory) => Made::Failed(Error::NoMemory, None),
    }
}

/// A poll of a connection that is being made. One that was made is fit: it did nothing but what makes one.
pub(crate) fn make_on<L: Link + Drop, A: Aid>(
    alloc: Global,
    making: Connecting<L>,
    aid: &mut A,
    now: u64,
) -> Made<L>
    requires { IsBeingMade making }
    ensures makes { MakesOn L.looks (A.texts aid.old) now making result }
    ensures fits { MadeFits result }
    ensures texts { A.texts aid.new ≡ A.texts aid.old }
{
    let (connected, _met) = making.poll(alloc, aid, now);
    match connected {
        Connected::Pending(making) => pending(alloc, making),
        Connected::Made(conn) => good(alloc, conn),
        Connected::Failed(left) => {
            let Unmade { error, link, tape } = left;
            drop(link);
            Made::Failed(error, tape)
        }
    }
}

// The making of a connection over a link begins, by a copy of the options.
fn begin<L: Link + Drop>(
    alloc: Global,
    opts: &Opts,
    link: L,
    moment: Moment,
) -> Result<Connecting<L>, NoMemory>
    ensures { IfOk result (λ c. Begins L.socket opts.now moment link c) }
{
    match opts.copy(alloc) {
        Ok(opts) => match Connecting::new(
            alloc,
            opts,
            link,
            moment.now,
            moment.random,
            moment.keep_tape,
        ) {
            Ok(making) => Ok(making),
            Err(link) => {
                drop(link);
                Err(NoMemory)
            }
        },
        Err(error) => {
            drop(link);
            Err(error)
        }
    }
}

// A connection is made over a link: its making begins, and is polled.
fn connect<L: Link + Drop, A: Aid>(
    alloc: Global,
    opts: &Opts,
    link: L,
    aid: &mut A,
    moment: Moment,
) -> Made<L>
    ensures connects { ConnectsOver L.looks L.socket (A.texts aid.old) opts.now moment link result }
    ensures fits { MadeFits result }
    ensures texts { A.texts aid.new ≡ A.texts aid.old }
{
    match begin(alloc, opts, link, moment) {
        Ok(making) => make_on(alloc, making, aid, moment.now),
        Err(NoMemory) => Made::Failed(Error::NoMemory, None),
    }
}

// Dials the link of a number, at the target of the options.
fn dial<O: Dialer>(
    alloc: Global,
    opts: &Opts,
    out: &mut O,
    number: u64,
) -> Result<DialStep<O::L>, NoMemory>
    ensures { TriesDial O.L.looks number (O.seen out.old) (O.seen out.new) result }
{
    let target = opts.target(alloc)?;
    let step = out.dial(number, &target);
    drop(target);
    Ok(step)
}

/// Dials the link of a number, and makes a connection over it.
pub(crate) fn dial_on<O: Dialer + Aid>(
    alloc: Global,
    opts: &Opts,
    number: u64,
    out: &mut O,
    moment: Moment,
) -> Made<O::L>
where
    O::L: Drop,
    ensures dials { DialsOn (outside O.L.looks O.L.socket O.seen O.texts) opts.now moment number out.old out.new
        result }
    ensures fits { MadeFits result }
{
    match dial(alloc, opts, out, number) {
        Ok(DialStep::Link(link)) => connect(alloc, opts, link, out, moment),
        Ok(DialStep::NotYet) => Made::Undialed,
        Ok(DialStep::Failed) => Made::Failed(undialed(), None),
        Err(NoMemory) => Made::Failed(Error::NoMemory, None),
    }
}
