//! The texts that follow a login: which call comes next.
ghost use Rattle.std.specs.Prelude.{◌≡◌, IfOk};
ghost use Rattle.my_client.specs.Texts.{AsksBy, FollowsBy};

use my_frame::NoMemory;
use my_link::{AfterConnect, AfterStep};
use my_reading::{Call, Error, OtherError};
use std::alloc::Global;

/// Where the making of a connection is: which call is open, or begins.
#[derive(Clone, Copy)]
pub enum Making {
    /// The handshake.
    Shakes,
    /// The text of this number.
    Asks(u64),
    /// What is left of the result of the text of this number.
    Drops(u64),
}

/// What follows once a call of the making was answered.
pub(crate) enum Next {
    /// This call begins.
    Call(Making, Call),
    /// The connection is made.
    Done,
    /// The aid refuses the connection.
    Refused(Error),
}

// What follows the earlier texts, which are `n`.
fn ask<A: AfterConnect>(alloc: Global, aid: &mut A, n: u64) -> Result<Next, NoMemory>
    ensures asks { IfOk result (λ next. AsksBy (A.texts aid.old) n next) }
    ensures same { A.texts aid.new ≡ A.texts aid.old }
{
    match aid.next(alloc, n) {
        Ok(AfterStep::Query(text)) => Ok(Next::Call(Making::Asks(n), Call::Query(text))),
        Ok(AfterStep::Done) => Ok(Next::Done),
        Ok(AfterStep::Refuse(text)) => Ok(Next::Refused(Error::Other(OtherError { text }))),
        Err(NoMemory) => Err(NoMemory),
    }
}

/// What follows the call that was answered.
pub(crate) fn follow<A: AfterConnect>(
    alloc: Global,
    aid: &mut A,
    at: Making,
) -> Result<Next, NoMemory>
    ensures follows { IfOk result (λ next. FollowsBy (A.texts aid.old) at next) }
    ensures same { A.texts aid.new ≡ A.texts aid.old }
{
    match at {
        Making::Shakes => ask(alloc, aid, 0),
        Making::Asks(n) => Ok(Next::Call(Making::Drops(n), Call::DropResult)),
        Making::Drops(n) => match n.checked_add(1) {
            Some(more) => ask(alloc, aid, more),
            None => Err(NoMemory),
        },
    }
}
