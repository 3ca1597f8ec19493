//! The steps of an open call, and what they make of the options.

ghost use Rattle.std.specs.Prelude.{◌≡◌, IfOk, OnOk, option_map};
ghost use Rattle.my_machine.specs.Runs.{EachRuns, IsSomewhere};
ghost use Rattle.my_session.specs.Login.{account_in, without_account};
ghost use Rattle.my_session.specs.Adopts.{adopted_if};

use crate::opened::Opened;
use my_frame::NoMemory;
use my_grammar::Login;
use my_machine::{Stand, Stop};
use my_opts::{ChangeUserOpts, Opts};
use std::alloc::Global;

// The options are changed so, where a change was next and isn't next any more.
fn adopt(change: Option<Box<ChangeUserOpts>>, later: bool, opts: &mut Opts)
    ensures account { account_in opts.new ≡ adopted_if (option_map (λ b. b.value) change) later (account_in opts.old) }
    ensures others { without_account opts.new ≡ without_account opts.old }
{
    match change {
        Some(change) => {
            if later {
                drop(change);
            } else {
                Box::into_inner(change).update_opts(opts);
            }
        }
        None => {}
    }
}

/// The steps of the open call. The options have the account that is in force then.
pub fn run(
    alloc: Global,
    login: &Login,
    opened: &mut Opened,
    stand: &mut Stand,
    opts: &mut Opts,
) -> Result<Stop, NoMemory>
    requires somewhere { IsSomewhere login.now stand.old }
    requires account { stand.old.account ≡ account_in opts.old }
    ensures call { opened.new.call ≡ opened.old.call }
    ensures runs { let old = opened.old in IfOk result (λ stop.
        EachRuns login.now old.call old.progress stand.old stop opened.new.progress stand.new) }
    ensures account { OnOk result (stand.new.account ≡ account_in opts.new) }
    ensures others { without_account opts.new ≡ without_account opts.old }
{
    let change = opened.next_change(alloc, login)?;
    match opened.progress.run(alloc, login, &opened.call, stand) {
        Ok(stop) => {
            adopt(change, opened.is_changing(login), opts);
            Ok(stop)
        }
        Err(NoMemory) => {
            drop(change);
            Err(NoMemory)
        }
    }
}
