//! A line of a transcript at a connection.

ghost use Rattle.std.specs.Prelude.{◌≡◌, ◌∷◌, [], IfOk, drop, false};
ghost use Rattle.std.specs.Bool.{Decides};
ghost use Rattle.std.specs.Option.{option_copied};
ghost use Rattle.my_run_judge.specs.Does.{Does, IsSomewhere};
ghost use Rattle.my_run_judge.specs.Lines.{
  ArePassed,
  ArePolled,
  ConnectsRight,
  DialRight,
  EndsAtOnce,
  EndsUnanswered,
  IsDialFault,
  PassesRight,
  PollsRight,
  after_polls,
  begun_in,
  use_of,
};
ghost use Rattle.my_run_judge.specs.Walks.{Walk, ended};
ghost use Rattle.my_run_judge.specs.Seen.{seen};

use crate::polling::first_of;
use crate::shown::{is_shown_at, is_unanswered};
use crate::walk::{Walker, call_at};
use my_frame::NoMemory;
use my_grammar::Login;
use my_link::Met;
use my_reading::{Error, IoError, IoFault, IoKind};
use my_script::{Aim, Outcome, Step, Tape, Use};
use my_statements::Statement;
use std::alloc::Global;

fn is_use(used: &Use, number: u64, met: Met) -> bool
    ensures { Decides result (used.now ≡ use_of number met) }
{
    *used == Use { number, met }
}

fn is_only_use(uses: &[Use], number: u64, met: Met) -> bool
    ensures { Decides result (uses.now ≡ use_of number met ∷ []) }
{
    match uses {
        [used] => is_use(used, number, met),
        _ => false,
    }
}

fn is_dial_fault(outcome: &Outcome) -> bool
    ensures { Decides result (IsDialFault outcome.now) }
{
    match outcome {
        Outcome::Failed(Error::Io(IoError::Io(fault))) => {
            *fault
                == IoFault {
                    kind: IoKind::Dial,
                    place: 0,
                }
        }
        _ => false,
    }
}

/// The dial isn't ready, or it fails.
pub fn is_dial(number: u64, fault: bool, outcome: &Outcome, uses: &[Use]) -> bool
    ensures { Decides result (DialRight number fault outcome.now uses.now) }
{
    let mut met = Met::nothing();
    if fault {
        met.faults = 1;
        return is_only_use(uses, number, met) && is_dial_fault(outcome);
    }
    met.holds = 1;
    is_only_use(uses, number, met)
}

impl Walker {
    // The polls of a line, the last of which ends as it shows.
    fn polls(
        &mut self,
        alloc: Global,
        login: &Login,
        number: u64,
        tape: &Tape,
        outcome: &Outcome,
        first: u128,
        uses: &[Use],
    ) -> Result<bool, NoMemory>
        requires { IsSomewhere login.now self.old }
        ensures { let there = ArePolled login.now number (seen tape.now) outcome.now first uses.now in
            let after = after_polls login.now (seen tape.now) outcome.now uses.now in
            IfOk result (λ right. Does login.now there after self.old right self.new) }
    {
        let mut left = uses;
        'polls: while let Some((used, after)) = left.split_first() {
            let Some((_next, _more)) = after.split_first() else {
                let right = self.poll_last(alloc, login, number, tape, outcome, first, used)?;
                return Ok(right);
            };
            if !self.poll_row(alloc, login, number, tape, used)? {
                return Ok(false);
            }
            left = after;
        }
        Ok(false)
    }

    /// Calls are polled, the first of them the one that the step begins.
    pub fn polls_right(
        &mut self,
        alloc: Global,
        login: &Login,
        number: u64,
        tape: &Tape,
        named: Option<&Statement>,
        step: &Step,
        outcome: &Outcome,
        uses: &[Use],
    ) -> Result<bool, NoMemory>
        requires { IsSomewhere login.now self.old }
        ensures { let statement = option_copied named.entry in
            let there = λ (w : Walk).
            PollsRight login.now number (seen tape.now) w (begun_in statement w step.now) outcome.now uses.now in
            let after = after_polls login.now (seen tape.now) outcome.now uses.now in
            IfOk result (λ right. Does login.now there after self.old right self.new) }
    {
        if !self.begins(tape, named, step) {
            return Ok(false);
        }
        let first = first_of(self.spot.status, self.spot.next);
        if !self.polls(alloc, login, number, tape, outcome, first, uses)? {
            return Ok(false);
        }
        Ok(self.is_told(outcome))
    }

    // The call that passes over a set's rest is polled, and then those that take the next set, or read it.
    fn passes(
        &mut self,
        alloc: Global,
        login: &Login,
        number: u64,
        tape: &Tape,
        aim: Aim,
        outcome: &Outcome,
        uses: &[Use],
    ) -> Result<bool, NoMemory>
        requires { IsSomewhere login.now self.old }
        ensures { let there = ArePassed login.now number (seen tape.now) aim outcome.now uses.now in
            let after = after_polls login.now (seen tape.now) outcome.now uses.now in
            IfOk result (λ right. Does login.now there after self.old right self.new) }
    {
        let Some((skip, others)) = uses.split_first() else {
            return Ok(false);
        };
        if !self.poll_skip(alloc, login, number, tape, aim, skip)? {
            return Ok(false);
        }
        let first = self.spot.next as u128;
        self.polls(alloc, login, number, tape, outcome, first, others)
    }

    /// A set is taken, or read, once the rest of an earlier one is passed over.
    pub fn passes_right(
        &mut self,
        alloc: Global,
        login: &Login,
        number: u64,
        tape: &Tape,
        aim: Aim,
        named: Option<&Statement>,
        step: &Step,
        outcome: &Outcome,
        uses: &[Use],
    ) -> Result<bool, NoMemory>
        requires { IsSomewhere login.now self.old }
        ensures { let statement = option_copied named.entry in
            let there = λ (w : Walk).
            PassesRight login.now number (seen tape.now) aim w (begun_in statement w step.now) outcome.now uses.now in
            let after = after_polls login.now (seen tape.now) outcome.now uses.now in
            IfOk result (λ right. Does login.now there after self.old right self.new) }
    {
        if !self.begins(tape, named, step) {
            return Ok(false);
        }
        self.passes(alloc, login, number, tape, aim, outcome, uses)
    }

    /// The dial gave a link, and the handshake is polled.
    pub fn connects(
        &mut self,
        alloc: Global,
        login: &Login,
        number: u64,
        tape: &Tape,
        outcome: &Outcome,
        uses: &[Use],
    ) -> Result<bool, NoMemory>
        requires { IsSomewhere login.now self.old }
        ensures { let there = λ (w : Walk). ConnectsRight login.now number (seen tape.now) w outcome.now uses.now in
            let after = after_polls login.now (seen tape.now) outcome.now (drop 1 uses.now) in
            IfOk result (λ right. Does login.now there after self.old right self.new) }
    {
        let Some((dial, polls)) = uses.split_first() else {
            return Ok(false);
        };
        if !is_use(dial, number, Met::nothing()) {
            return Ok(false);
        }
        self.polls_right(
            alloc,
            login,
            number,
            tape,
            None,
            &Step::Conn,
            outcome,
            polls,
        )
    }

    /// A closed connection refuses a call.
    pub fn ends_at_once(
        &mut self,
        alloc: Global,
        login: &Login,
        tape: &Tape,
        named: Option<&Statement>,
        step: &Step,
        outcome: &Outcome,
    ) -> Result<bool, NoMemory>
        requires { IsSomewhere login.now self.old }
        ensures { let statement = option_copied named.entry in
            let there = λ (w : Walk). EndsAtOnce login.now (seen tape.now) statement w step.now outcome.now in
            let after = ended login.now (seen tape.now) false in
            IfOk result (λ right. Does login.now there after self.old right self.new) }
    {
        let call = call_at(tape, self.spot.next);
        if !self.begins(tape, named, step) || !is_shown_at(outcome, call, &[]) {
            return Ok(false);
        }
        self.end_call(alloc, login, tape, false)
    }

    /// The open call was cancelled, or is open still.
    pub fn ends_unanswered(
        &mut self,
        alloc: Global,
        login: &Login,
        tape: &Tape,
        cancelled: bool,
    ) -> Result<bool, NoMemory>
        requires { IsSomewhere login.now self.old }
        ensures { let there = λ (w : Walk). EndsUnanswered login.now (seen tape.now) cancelled w in
            let after = ended login.now (seen tape.now) cancelled in
            IfOk result (λ right. Does login.now there after self.old right self.new) }
    {
        if !is_unanswered(call_at(tape, self.spot.next)) {
            return Ok(false);
        }
        self.end_call(alloc, login, tape, cancelled)
    }
}
