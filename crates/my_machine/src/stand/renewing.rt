//! The parts of calls by which the server's session is renewed.

ghost use Rattle.std.specs.Prelude.{◌≡◌, true, false, IfOk};
ghost use Rattle.my_handshake.specs.Version.{version_of};
ghost use Rattle.my_reading.specs.Accounts.{changed};
ghost use Rattle.my_machine.specs.Stands.{IsTurn, adopts, renewing_payload, renews, renews_so, turn, with_account};
ghost use Rattle.my_machine.specs.Parts.{change_at};

use super::Stand;
use super::asking::payload_of;
use crate::step::Step;
use my_frame::{Copied, NoMemory};
use my_grammar::{Login, Spot};
use my_handshake::server_version;
use my_opts::ChangeUserOpts;
use my_reading::{Call, change_stand, changed, renewal_packet, renews_by_reset};
use std::alloc::Global;
use std::mem;

impl Stand {
    // The options are changed so.
    fn adopt_change(&mut self, alloc: Global, change: &ChangeUserOpts) -> Result<Step, NoMemory>
        ensures { let new = with_account (changed change.now self.old.account) self.old in
            IfOk result (λ step. IsTurn (turn Step.Passes new) step self.new) }
    {
        let account = changed(alloc, change, &self.account)?;
        drop(mem::replace(&mut self.account, account));
        Ok(Step::Passes)
    }

    /// The options are changed as the call says.
    pub(super) fn adopt(&mut self, alloc: Global, call: &Call) -> Result<Step, NoMemory>
        ensures { IfOk result (λ step. IsTurn (adopts (change_at call.now) self.old) step self.new) }
    {
        match call {
            Call::ChangeUser(change) => self.adopt_change(alloc, change),
            _ => Ok(Step::Passes),
        }
    }

    // The payload by which the server's session is renewed.
    fn renewing_payload(
        &self,
        alloc: Global,
        login: &Login,
        by_reset: bool,
    ) -> Result<Vec<u8>, NoMemory>
        ensures { IfOk result (λ payload. payload.items ≡ renewing_payload login.now self.now by_reset) }
    {
        let kept = self.context.terms.kept;
        let packet = renewal_packet(alloc, login, kept, &self.facts, &self.account, by_reset)?;
        payload_of(alloc, packet)
    }

    // The server's session is renewed by a reset.
    fn renew_by_reset(
        &mut self,
        alloc: Global,
        login: &Login,
        call: &Call,
    ) -> Result<Step, NoMemory>
        ensures { IfOk result (λ step. IsTurn (renews_so login.now call.now self.old true) step self.new) }
    {
        let command = self.renewing_payload(alloc, login, true)?;
        self.ask(Spot::Single, &command, self.arranged_after(call))
    }

    // The server's session gets another user.
    fn renew_by_change(
        &mut self,
        alloc: Global,
        login: &Login,
        call: &Call,
    ) -> Result<Step, NoMemory>
        ensures { IfOk result (λ step. IsTurn (renews_so login.now call.now self.old false) step self.new) }
    {
        let command = self.renewing_payload(alloc, login, false)?;
        let spot = Spot::Authentication(change_stand(login, &self.facts));
        let secret = self.account.password.copy(alloc)?;
        self.ask_with(spot, secret, &command, self.arranged_after(call))
    }

    /// The server's session is renewed.
    pub(super) fn renew(
        &mut self,
        alloc: Global,
        login: &Login,
        call: &Call,
    ) -> Result<Step, NoMemory>
        ensures { IfOk result (λ step. IsTurn (renews login.now call.now self.old) step self.new) }
    {
        let version = server_version(self.facts.version.as_slice());
        if renews_by_reset(call.kind(), version) {
            self.renew_by_reset(alloc, login, call)
        } else {
            self.renew_by_change(alloc, login, call)
        }
    }
}
