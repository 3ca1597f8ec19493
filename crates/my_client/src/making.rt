//! The making of a connection: the handshake, and then the texts that the aid tells.
ghost use Rattle.std.specs.Prelude.{◌≡◌, ◌+◌, ◌<◌, ◌^◌, IfOk, OnOk, is_some};
ghost use Rattle.my_client.specs.Makes.{IsMaking, MakesTo, all_met};

use crate::begin::poll_once;
use crate::poll::After;
use crate::tape::Tape;
use crate::texts::{Making, Next, follow};
use my_frame::NoMemory;
use my_link::{AfterConnect, Link, Met};
use my_reading::Error;
use my_session::Session;
use std::alloc::Global;

// A poll that would begin more calls is out of memory: so the bytes that it received can be counted.
const MOST_CALLS: u64 = 137438953472;

/// What a poll of the making of a connection returns.
pub enum MakeStep {
    /// It isn't made yet: this call of it is open.
    Pending(Making),
    Made,
    /// A call failed, or the aid refuses the connection.
    Failed(Error),
}

// What calls met of which the last one met this, and the earlier ones received so many bytes.
fn with_earlier(met: Met, earlier: u64) -> Met
    requires { earlier + met.taken < 2 ^ 64 }
    ensures { result ≡ all_met met (earlier + met.taken) }
{
    Met {
        taken: earlier + met.taken,
        ..met
    }
}

/// Continues the making of a connection, at the moment `now`: the handshake, and then each text that the aid tells,
/// with its result read whole before the next. It returns where the making is, and what was met.
pub fn make<L: Link, A: AfterConnect>(
    alloc: Global,
    session: &mut Session,
    link: &mut L,
    tape: &mut Option<Tape>,
    first: Making,
    aid: &mut A,
    now: u64,
) -> Result<(MakeStep, Met), NoMemory>
    requires { IsMaking first session.old.seen tape.old }
    ensures makes { IfOk result (λ r. MakesTo (A.texts aid.old) now first (L.looks link.old) (L.looks link.new)
        session.old session.new tape.old tape.new r.1 r.0) }
    ensures keeps { OnOk result (is_some tape.new ≡ is_some tape.old) }
    ensures same { A.texts aid.new ≡ A.texts aid.old }
{
    let mut at = first;
    let mut next = None;
    let mut taken = 0u64;
    'calls: for n in 0..MOST_CALLS {
        match poll_once(alloc, session, link, tape, next, now) {
            Err(NoMemory) => return Err(NoMemory),
            Ok((after, last)) => {
                let met = with_earlier(last, taken);
                taken = met.taken;
                match after {
                    After::Pending => return Ok((MakeStep::Pending(at), met)),
                    After::Failed(error) => return Ok((MakeStep::Failed(error), met)),
                    After::Answered(answer) => {
                        drop(answer);
                        match follow(alloc, aid, at) {
                            Err(NoMemory) => return Err(NoMemory),
                            Ok(Next::Done) => return Ok((MakeStep::Made, met)),
                            Ok(Next::Refused(error)) => {
                                return Ok((MakeStep::Failed(error), Met { refused: 1, ..met }));
                            }
                            Ok(Next::Call(to, call)) => {
                                at = to;
                                next = Some(call);
                            }
                        }
                    }
                }
            }
        }
    }
    drop(next);
    Err(NoMemory)
}
