//! The parts of calls that begin, commit, roll back and give up transactions.

ghost use Rattle.std.specs.Prelude.{◌≡◌, IfOk};
ghost use Rattle.my_handshake.specs.Version.{version_of};
ghost use Rattle.my_reading.specs.Transactions.{begin_refusal, is_given_up};
ghost use Rattle.my_machine.specs.Parts.{opts_at, start_at};
ghost use Rattle.my_machine.specs.Stands.{IsTurn, queries_at, refused_at, refuses, refuses_by, returned, turn, undoes};
ghost use Rattle.my_machine.specs.Stands.{with_status, with_trial};

use super::Stand;
use super::reading::{answered, failure};
use crate::step::Step;
use my_frame::NoMemory;
use my_handshake::server_version;
use my_opts_parts::TxOpts;
use my_reading::{
    Answer, Call, Error, ServerError, Trial, TxStatus, begin_refusal, begin_text, rollback_text,
};
use std::alloc::Global;
use std::mem;

impl Stand {
    /// The query is sent that begins the call's transaction after as many others.
    pub(super) fn start(
        &mut self,
        alloc: Global,
        call: &Call,
        place: usize,
    ) -> Result<Step, NoMemory>
        ensures { let text = start_at call.now place in
            IfOk result (λ step. IsTurn (queries_at call.now text self.old) step self.new) }
    {
        let Call::Begin(opts) = call else {
            return Ok(Step::Passes);
        };
        match begin_text(*opts, place) {
            Some(text) => self.query(alloc, call, text),
            None => Ok(Step::Passes),
        }
    }

    /// A transaction that was given up is rolled back.
    pub(super) fn undo(&mut self, alloc: Global, call: &Call) -> Result<Step, NoMemory>
        ensures { let s = self.old in
            IfOk result (λ step. IsTurn (undoes call.now (is_given_up s.status) s) step self.new) }
    {
        if self.status.is_given_up() {
            return self.query(alloc, call, rollback_text());
        }
        Ok(Step::Passes)
    }

    /// The transaction stands so.
    pub(super) fn stand_so(&mut self, status: TxStatus) -> Result<Step, NoMemory>
        ensures { IfOk result (λ step. IsTurn (turn Step.Passes (with_status status self.old)) step self.new) }
    {
        self.status = status;
        Ok(Step::Passes)
    }

    /// The transaction stands so from now on, and isn't being committed any more.
    pub(super) fn settle(&mut self, status: TxStatus) -> Result<Step, NoMemory>
        ensures { let settled = with_trial Trial.Off (with_status status self.old) in
            IfOk result (λ step. IsTurn (turn Step.Passes settled) step self.new) }
    {
        drop(mem::replace(&mut self.trial, Trial::Off));
        self.status = status;
        Ok(Step::Passes)
    }

    /// The transaction is to be committed.
    pub(super) fn try_it(&mut self) -> Result<Step, NoMemory>
        ensures { IfOk result (λ step. IsTurn (turn Step.Passes (with_trial Trial.On self.old)) step self.new) }
    {
        drop(mem::replace(&mut self.trial, Trial::On));
        Ok(Step::Passes)
    }

    /// The server's error ends the call; while a transaction is being committed that is rolled back first.
    pub(super) fn refuse_at(&mut self, error: ServerError) -> Step
        ensures { IsTurn (refused_at self.old.trial error self.old) result self.new }
    {
        match mem::replace(&mut self.trial, Trial::Off) {
            Trial::Off => failure(Error::Server(error)),
            Trial::On => {
                drop(mem::replace(&mut self.trial, Trial::Refused(error)));
                self.status = TxStatus::RequiresRollback;
                Step::Reverts
            }
            Trial::Refused(first) => {
                drop(error);
                failure(Error::Server(first))
            }
        }
    }

    /// The transaction was rolled back since it couldn't be committed.
    pub(super) fn give_back(&mut self) -> Step
        ensures { IsTurn (returned self.old.trial self.old) result self.new }
    {
        match mem::replace(&mut self.trial, Trial::Off) {
            Trial::Refused(first) => {
                self.status = self.status.rolled_back();
                failure(Error::Server(first))
            }
            other => {
                drop(mem::replace(&mut self.trial, other));
                answered(Answer::Ready)
            }
        }
    }

    // A transaction that may not begin is refused.
    fn refuse_transaction(&self, opts: TxOpts) -> Step
        ensures { let s = self.now in
            IsTurn (refuses (begin_refusal opts (version_of s.facts.version) s.status) s) result s }
    {
        let version = server_version(self.facts.version.as_slice());
        match begin_refusal(opts, version, self.status) {
            Some(refusal) => failure(Error::Driver(refusal)),
            None => Step::Passes,
        }
    }

    /// The call's transaction is refused, where it may not begin.
    pub(super) fn refuse_call(&self, call: &Call) -> Result<Step, NoMemory>
        ensures { IfOk result (λ step. IsTurn (refuses_by (opts_at call.now) self.now) step self.now) }
    {
        match call {
            Call::Begin(opts) => Ok(self.refuse_transaction(*opts)),
            _ => Ok(Step::Passes),
        }
    }
}
