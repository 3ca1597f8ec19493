//! A handshake over a link that never holds, until it returns.
ghost use Rattle.std.specs.Prelude.{◌≡◌, OnOk, is_some};
ghost use Rattle.my_grammar.specs.declared.login.Login.{Login};
ghost use Rattle.my_client.specs.Kept.{first_asked, first_kept};
ghost use Rattle.my_client.specs.Makes.{ConnectsFor};
ghost use Rattle.my_client.specs.Waits.{ShakesTo};

use crate::begin::poll_open;
use crate::poll::After;
use crate::tape::Tape;
use my_frame::NoMemory;
use my_link::BlockingLink;
use my_reading::{DriverError, Error};
use my_session::Session;
use std::alloc::Global;

/// A call that received this many bytes without an answer is given up.
pub const TOO_LONG: u64 = 1099511627776;

/// The link was always ready.
pub fn never_holds<L: BlockingLink>(link: &L)
    ensures { (L.looks link.now).counts.holds ≡ 0 }
{
    let _ = link;
}

/// Polls the handshake, at the moment `now`, until it returns.
pub fn shake_hands<L: BlockingLink>(
    alloc: Global,
    session: &mut Session,
    link: &mut L,
    tape: &mut Option<Tape>,
    now: u64,
) -> Result<(), Error>
    requires { (login : Login) × ConnectsFor login session.old.seen tape.old first_kept first_asked }
    ensures shakes { (login : Login) → ConnectsFor login session.old.seen tape.old first_kept first_asked
        → ShakesTo login now (L.looks link.old) (L.looks link.new) session.old session.new tape.new result }
    ensures keeps { OnOk result (is_some tape.new ≡ is_some tape.old) }
{
    let mut spent = 0u64;
    'polls: loop {
        if spent >= TOO_LONG {
            return Err(Error::Driver(DriverError::TooLong));
        }
        never_holds(link);
        match poll_open(alloc, session, link, tape, now) {
            Err(NoMemory) => return Err(Error::NoMemory),
            Ok((after, met)) => {
                never_holds(link);
                spent += met.taken;
                match after {
                    After::Pending => {}
                    After::Answered(answer) => {
                        drop(answer);
                        return Ok(());
                    }
                    After::Failed(error) => return Err(error),
                }
            }
        }
    }
}
