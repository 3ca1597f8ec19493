//! One step of a call.

ghost use Rattle.std.specs.Prelude.{◌≡◌, IfOk, Some, true};
ghost use Rattle.my_grammar.specs.Cut.{is_idle};
ghost use Rattle.my_handshake.specs.Version.{version_of};
ghost use Rattle.my_reading.specs.Versions.{can_reset};
ghost use Rattle.my_machine.specs.Stands.{IsTurn, begins, offers, steps, turn};

use super::Stand;
use super::reading::{answered, is_rows};
use crate::part::Part;
use crate::step::{Ending, Step, Stop};
use my_frame::NoMemory;
use my_grammar::{Login, Spot};
use my_handshake::server_version;
use my_reading::{Answer, Call, can_reset, commit_text};
use std::alloc::Global;

fn is_idle(spot: Spot) -> bool
    ensures { result ≡ is_idle spot }
{
    match spot {
        Spot::Idle => true,
        _ => false,
    }
}

impl Stand {
    // The rest of the newest exchange is read.
    fn read_all(&mut self, alloc: Global, login: &Login, call: &Call) -> Result<Step, NoMemory>
        ensures { IfOk result (λ step. IsTurn (begins login.now call.now (Some Part.All) self.old) step self.new) }
    {
        if self.end_left {
            self.end_left = false;
            return Ok(Step::Stays);
        }
        if is_idle(self.context.spot) {
            return Ok(Step::Passes);
        }
        self.read(alloc, login, Part::All)
    }

    // The newest exchange is read to the head of its first set.
    fn read_head(&mut self, alloc: Global, login: &Login, call: &Call) -> Result<Step, NoMemory>
        ensures { IfOk result (λ step. IsTurn (begins login.now call.now (Some Part.Head) self.old) step self.new) }
    {
        if is_rows(self.context.spot) {
            return Ok(Step::Passes);
        }
        self.read(alloc, login, Part::Head)
    }

    // The newest exchange is read to its next row or end.
    fn read_item(&mut self, alloc: Global, login: &Login, call: &Call) -> Result<Step, NoMemory>
        ensures { IfOk result (λ step. IsTurn (begins login.now call.now (Some Part.Item) self.old) step self.new) }
    {
        if self.end_left {
            self.end_left = false;
            return Ok(answered(Answer::SetEnd));
        }
        if is_idle(self.context.spot) {
            return Ok(answered(Answer::NoSet));
        }
        self.read(alloc, login, Part::Item)
    }

    // A stream takes the set that is read, or the next one.
    fn read_set(&mut self, alloc: Global, login: &Login, call: &Call) -> Result<Step, NoMemory>
        ensures { IfOk result (λ step. IsTurn (begins login.now call.now (Some Part.Set) self.old) step self.new) }
    {
        if self.end_left || is_rows(self.context.spot) {
            self.taken = true;
            return Ok(answered(Answer::Ready));
        }
        if is_idle(self.context.spot) {
            return Ok(answered(Answer::NoSet));
        }
        self.read(alloc, login, Part::Set)
    }

    // The rest of the set that is read is passed over, and its end.
    fn read_rest(&mut self, alloc: Global, login: &Login, call: &Call) -> Result<Step, NoMemory>
        ensures { IfOk result (λ step. IsTurn (begins login.now call.now (Some Part.Rest) self.old) step self.new) }
    {
        if self.end_left {
            self.end_left = false;
            return Ok(Step::Stays);
        }
        if is_rows(self.context.spot) {
            return self.read(alloc, login, Part::Rest);
        }
        Ok(Step::Passes)
    }

    // The reply to a statement to prepare is read whole.
    fn read_reply(&mut self, alloc: Global, login: &Login, call: &Call) -> Result<Step, NoMemory>
        ensures { IfOk result (λ step. IsTurn (begins login.now call.now (Some Part.Reply) self.old) step self.new) }
    {
        if is_idle(self.context.spot) {
            return Ok(Step::Passes);
        }
        self.read(alloc, login, Part::Reply)
    }

    // The rest of the newest exchange is read for nobody.
    fn read_drained(&mut self, alloc: Global, login: &Login, call: &Call) -> Result<Step, NoMemory>
        ensures { IfOk result (λ step. IsTurn (begins login.now call.now (Some Part.Drain) self.old) step self.new) }
    {
        if self.end_left {
            self.end_left = false;
            return Ok(Step::Stays);
        }
        if is_idle(self.context.spot) {
            return Ok(Step::Passes);
        }
        self.read(alloc, login, Part::Drain)
    }

    // The transaction is rolled back that couldn't be committed, and the call returns why.
    fn read_back(&mut self, alloc: Global, login: &Login, call: &Call) -> Result<Step, NoMemory>
        ensures { IfOk result (λ step. IsTurn (begins login.now call.now (Some Part.Back) self.old) step self.new) }
    {
        if is_idle(self.context.spot) {
            return Ok(self.give_back());
        }
        self.read(alloc, login, Part::Back)
    }

    // Whether the server can reset its session; one that can't is sent nothing.
    fn offer(&self) -> Result<Step, NoMemory>
        ensures { let s = self.now in
            IfOk result (λ step. IsTurn (offers (can_reset (version_of s.facts.version)) s) step s) }
    {
        if can_reset(server_version(self.facts.version.as_slice())) {
            return Ok(Step::Passes);
        }
        Ok(answered(Answer::Flag(false)))
    }

    // This flag is returned.
    fn flag(&self, flag: bool) -> Result<Step, NoMemory>
        ensures { let s = self.now in let end = Stop.Returns (Ending.Answered (Answer.Flag flag)) in
            IfOk result (λ step. IsTurn (turn (Step.Stops end) s) step s) }
    {
        Ok(answered(Answer::Flag(flag)))
    }

    // Whether nothing is left to do for this part: nothing is left to read, or there is nothing to roll back.
    fn is_passed(&self, part: Part) -> bool
        ensures { let s = self.now in (login : Login) (call : Call) → result ≡ true
            → begins login call (Some part) s ≡ turn Step.Passes s }
    {
        match part {
            Part::All => !self.end_left && is_idle(self.context.spot),
            Part::Undo => !self.status.is_given_up(),
            _ => false,
        }
    }

    /// One step of a call of which this part comes next.
    pub fn step(
        &mut self,
        alloc: Global,
        login: &Login,
        call: &Call,
        part: Option<Part>,
    ) -> Result<Step, NoMemory>
        ensures { IfOk result (λ step. IsTurn (steps login.now call.now part self.old) step self.new) }
    {
        if self.owed.len() > 0 {
            return Ok(Step::Stops(Stop::Owes));
        }
        match part {
            None => Ok(answered(Answer::Ready)),
            Some(part) => self.begin(alloc, login, call, part),
        }
    }

    // The part that comes next, where nothing is owed.
    fn begin(
        &mut self,
        alloc: Global,
        login: &Login,
        call: &Call,
        part: Part,
    ) -> Result<Step, NoMemory>
        ensures { IfOk result (λ step. IsTurn (begins login.now call.now (Some part) self.old) step self.new) }
    {
        if self.is_passed(part) {
            return Ok(Step::Passes);
        }
        self.begin_part(alloc, login, call, part)
    }

    // The same for each part, also one of which nothing is left to do.
    fn begin_part(
        &mut self,
        alloc: Global,
        login: &Login,
        call: &Call,
        part: Part,
    ) -> Result<Step, NoMemory>
        ensures { IfOk result (λ step. IsTurn (begins login.now call.now (Some part) self.old) step self.new) }
    {
        match part {
            Part::All => self.read_all(alloc, login, call),
            Part::Head => self.read_head(alloc, login, call),
            Part::Item => self.read_item(alloc, login, call),
            Part::Set => self.read_set(alloc, login, call),
            Part::Rest => self.read_rest(alloc, login, call),
            Part::Command => self.command(alloc, call),
            Part::Find => self.find(alloc, call),
            Part::Check(place) => self.check(alloc, call, place),
            Part::Run(place) => self.run(alloc, call, place),
            Part::Reply => self.read_reply(alloc, login, call),
            Part::Keep => self.keep(alloc, call),
            Part::Give => self.give(alloc, call),
            Part::Learn => self.learn(call),
            Part::Forget => self.forget(call),
            Part::Offered => self.offer(),
            Part::Clear => self.clear(),
            Part::Text(place) => self.set_up(alloc, login, call, place),
            Part::Start(place) => self.start(alloc, call, place),
            Part::Flag(flag) => self.flag(flag),
            Part::Adopt => self.adopt(alloc, call),
            Part::Renew => self.renew(alloc, login, call),
            Part::Drain => self.read_drained(alloc, login, call),
            Part::Undo => self.undo(alloc, call),
            Part::Undone => self.stand_so(self.status.rolled_back()),
            Part::Refuse => self.refuse_call(call),
            Part::Settle(status) => self.settle(status),
            Part::GiveUp => self.stand_so(self.status.given_up()),
            Part::Try => self.try_it(),
            Part::Commit => self.query(alloc, call, commit_text()),
            Part::Back => self.read_back(alloc, login, call),
        }
    }
}
