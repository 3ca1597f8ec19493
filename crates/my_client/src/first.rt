//! The first session of a connection, with its tape.
ghost use Rattle.std.specs.Prelude.{◌≡◌, is_some, IfOk};
ghost use Rattle.my_opts_parts.specs.Pool.{deadline_of};
ghost use Rattle.my_session.specs.Login.{login_of};
ghost use Rattle.my_session.specs.View.{first_lifetime};
ghost use Rattle.my_client.specs.Kept.{Kept, first_asked, first_kept, nothing_kept};
ghost use Rattle.my_client.specs.Makes.{ConnectsFor};
ghost use Rattle.my_client.specs.Notes.{Agrees};

use crate::notes::note_call;
use crate::tape::Tape;
use my_frame::NoMemory;
use my_opts::Opts;
use my_reading::Call;
use my_session::Session;
use std::alloc::Global;

// A tape of nothing, where one is to be kept.
fn first_tape(alloc: Global, keep_tape: bool) -> Option<Tape>
    ensures agrees { Agrees result nothing_kept }
    ensures keeps { is_some result ≡ keep_tape }
{
    if keep_tape {
        return Some(Tape::new(alloc));
    }
    None
}

/// A session whose handshake is begun, with a tape of it where `keep_tape` is set.
///
/// Where the options say that a connection ends, its deadline is that of one that is made at `now`, in milliseconds;
/// `random` picks among its moments.
pub fn begin_session(
    alloc: Global,
    opts: Opts,
    is_socket: bool,
    now: u64,
    random: u64,
    keep_tape: bool,
) -> Result<(Session, Option<Tape>), NoMemory>
    ensures begins { IfOk result (λ r. ConnectsFor (login_of opts) r.0.seen r.1 first_kept first_asked) }
    ensures lifetime { IfOk result (λ r. r.0.lifetime ≡
        first_lifetime opts is_socket (deadline_of opts.pool_opts now random)) }
    ensures tape { IfOk result (λ r. is_some r.1 ≡ keep_tape) }
{
    let deadline = opts.pool_opts().new_deadline(now, random);
    let mut session = Session::new(alloc, opts, is_socket, deadline)?;
    let mut tape = first_tape(alloc, keep_tape);
    match note_call(alloc, &mut tape, &Call::Connect) {
        Ok(()) => match session.begin(Call::Connect) {
            Ok(()) => Ok((session, tape)),
            Err(_) => unreachable!(),
        },
        Err(NoMemory) => {
            drop(session);
            drop(tape);
            Err(NoMemory)
        }
    }
}
