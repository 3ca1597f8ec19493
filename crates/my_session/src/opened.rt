//! The open call.

ghost use Rattle.std.specs.Prelude.{◌≡◌, IfOk, not, is_none, option_map};
ghost use Rattle.std.specs.Option.{option_copied};
ghost use Rattle.my_session.specs.Adopts.{next_change};
ghost use Rattle.my_session.specs.Sessions.{first_opened};

use my_frame::NoMemory;
use my_grammar::Login;
use my_machine::{Part, Progress};
use my_opts::ChangeUserOpts;
use my_reading::Call;
use std::alloc::Global;

/// An open call, and how much of it is done.
#[derive(Drop)]
pub struct Opened {
    pub call: Call,
    pub progress: Progress,
}

impl Opened {
    /// A call that begins.
    pub fn first(call: Call) -> Opened
        ensures { result ≡ first_opened call }
    {
        Opened {
            call,
            progress: Progress::first(),
        }
    }

    // The change that the next part makes of the account.
    fn change(&self, login: &Login) -> Option<&ChangeUserOpts>
        ensures { option_copied result ≡ next_change login.now self.now }
    {
        let Call::ChangeUser(change) = &self.call else {
            return None;
        };
        match self.progress.part(login, &self.call) {
            Some(Part::Adopt) => Some(change),
            _ => None,
        }
    }

    /// Whether the next part changes the account.
    pub fn is_changing(&self, login: &Login) -> bool
        ensures { result ≡ not (is_none (next_change login.now self.now)) }
    {
        match self.change(login) {
            Some(_) => true,
            None => false,
        }
    }

    /// The change that the next part makes of the account, where it makes one.
    pub fn next_change(
        &self,
        alloc: Global,
        login: &Login,
    ) -> Result<Option<Box<ChangeUserOpts>>, NoMemory>
        ensures { IfOk result (λ change. option_map (λ b. b.value) change ≡ next_change login.now self.now) }
    {
        match self.change(login) {
            Some(change) => Ok(Some(Box::new(alloc, change.copy(alloc)?)?)),
            None => Ok(None),
        }
    }
}
