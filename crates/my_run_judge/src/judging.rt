//! Whether the lines of a transcript are right at a connection.

ghost use Rattle.std.specs.Prelude.{◌≡◌, ◌<◌, ◌^◌, IfOk};
ghost use Rattle.std.specs.Option.{option_copied};
ghost use Rattle.my_run_judge.specs.Does.{Does, IsOverAt, IsSomewhere, IsStart};
ghost use Rattle.my_run_judge.specs.Made.{nothing_made};
ghost use Rattle.my_run_judge.specs.Lines.{ActRight, LineRight, after_line, after_reads, status_after};
ghost use Rattle.my_run_judge.specs.Verdicts.{EndsAs, IsFound};
ghost use Rattle.my_run_judge.specs.Walks.{Walk};
ghost use Rattle.my_run_judge.specs.Seen.{seen};

use crate::act::{Act, Ground, Status, act_with};
use crate::line::is_dial;
use crate::made::Made;
use crate::walk::{Spot, Walker};
use my_frame::NoMemory;
use my_grammar::Login;
use my_judge::first_reader;
use my_script::{Step, StepAnswer, Tape};
use my_statements::Statement;
use std::alloc::Global;

/// What is found of a connection in a transcript.
#[derive(Clone, Copy, PartialEq, Eq)]
pub enum Found {
    Right,
    /// The first line that isn't right there, with its index from 0; the number of lines means the end.
    Wrong(usize),
}

#[tactic(auto, unfolding(crate::specs::Does::StandsAt))]
fn first_walker(alloc: Global, login: &Login, number: u64) -> Result<Walker, NoMemory>
    ensures { IfOk result (λ walker. IsStart login.now number walker) }
{
    let reader = first_reader(alloc, login)?;
    Ok(Walker {
        reader,
        spot: Spot {
            status: Status::Ahead(number),
            next: 0,
            from: 0,
            taken: 0,
        },
    })
}

fn status_after(old: Status, act: Act) -> Status
    ensures { result ≡ status_after old act }
{
    match act {
        Act::Wrong | Act::Tells => old,
        Act::Holds => Status::Dialing,
        Act::Fails => Status::Absent,
        Act::Skips(status)
        | Act::Connects(status)
        | Act::Polls(status)
        | Act::Passes(_, status)
        | Act::Ends(status)
        | Act::Cancels(status) => status,
    }
}

impl Walker {
    // What a line reads that does this, and whether it is right.
    fn reads(
        &mut self,
        alloc: Global,
        login: &Login,
        number: u64,
        tape: &Tape,
        named: Option<&Statement>,
        step: &Step,
        answer: &StepAnswer,
        act: Act,
    ) -> Result<bool, NoMemory>
        requires { IsSomewhere login.now self.old }
        ensures { let said = seen tape.now in let uses = answer.now.uses.items in
            let statement = option_copied named.entry in
            let there = λ (w : Walk).
            ActRight login.now number said statement w step.now answer.now.outcome uses act in
            let after = λ (w : Walk). after_reads login.now said w answer.now.outcome uses act in
            IfOk result (λ right. Does login.now there after self.old right self.new) }
    {
        let outcome = &answer.outcome;
        let uses = answer.uses.as_slice();
        match act {
            Act::Wrong => Ok(false),
            Act::Skips(_) => Ok(true),
            Act::Tells => Ok(self.is_told(outcome)),
            Act::Holds => Ok(is_dial(number, false, outcome, uses)),
            Act::Fails => Ok(is_dial(number, true, outcome, uses)),
            Act::Connects(_) => self.connects(alloc, login, number, tape, outcome, uses),
            Act::Polls(_) => self.polls_right(
                alloc, login, number, tape, named, step, outcome, uses,
            ),
            Act::Passes(aim, _) => self.passes_right(
                alloc, login, number, tape, aim, named, step, outcome, uses,
            ),
            Act::Ends(_) => self.ends_at_once(alloc, login, tape, named, step, outcome),
            Act::Cancels(_) => self.ends_unanswered(alloc, login, tape, true),
        }
    }

    // A line of this index.
    fn line(
        &mut self,
        alloc: Global,
        login: &Login,
        number: u64,
        tape: &Tape,
        index: usize,
        made: &Made,
        step: &Step,
        answer: &StepAnswer,
    ) -> Result<bool, NoMemory>
        requires somewhere { IsSomewhere login.now self.old }
        requires index { index < 2 ^ 63 }
        ensures { let said = seen tape.now in
            let there = λ (w : Walk). LineRight login.now number said index made.now w step.now answer.now in
            let after = λ (w : Walk). after_line login.now number said made.now w step.now answer.now in
            IfOk result (λ right. Does login.now there after self.old right self.new) }
    {
        if answer.number != index as u64 + 1 {
            return Ok(false);
        }
        let spot = self.spot;
        let named = made.statement_for(step);
        let uses = answer.uses.len();
        let base = Ground::of(self.reader.closed, self.is_taken());
        let act = act_with(
            made.beside.finds(step),
            named.is_some(),
            made.beside.aim,
            spot.status,
            number,
            spot.next,
            base,
            step,
            &answer.outcome,
            uses,
        );
        let right = self.reads(alloc, login, number, tape, named, step, answer, act)?;
        self.spot.status = status_after(self.spot.status, act);
        Ok(right)
    }

    // Whether nothing of the tape is left, but for a call that is open.
    fn is_over(&mut self, alloc: Global, login: &Login, tape: &Tape) -> Result<bool, NoMemory>
        requires { IsSomewhere login.now self.old }
        ensures { IfOk result (λ over. IsOverAt login.now (seen tape.now) self.old over) }
    {
        if self.spot.taken != tape.taken.len() {
            return Ok(false);
        }
        match self.spot.status {
            Status::Open | Status::Gathers(_) => {
                if tape.calls.len() == 0 || self.spot.next != tape.calls.len() - 1 {
                    return Ok(false);
                }
                self.ends_unanswered(alloc, login, tape, false)
            }
            _ => Ok(self.spot.next == tape.calls.len()),
        }
    }

    // What is found at the end, before these answers.
    fn at_end(
        &mut self,
        alloc: Global,
        login: &Login,
        number: u64,
        tape: &Tape,
        others: &[StepAnswer],
        index: usize,
        made: &Made,
    ) -> Result<Found, NoMemory>
        requires { IsSomewhere login.now self.old }
        ensures { IfOk result (λ found.
            EndsAs login.now number (seen tape.now) index made.now others.now self.old found) }
    {
        if let Some((_answer, _later)) = others.split_first() {
            return Ok(Found::Wrong(index));
        }
        if self.is_over(alloc, login, tape)? {
            return Ok(Found::Right);
        }
        Ok(Found::Wrong(index))
    }

    // All lines, from the first one on.
    fn all_lines(
        &mut self,
        alloc: Global,
        login: &Login,
        number: u64,
        tape: &Tape,
        made: &mut Made,
        steps: &[Step],
        answers: &[StepAnswer],
    ) -> Result<Found, NoMemory>
        requires start { IsStart login.now number self.old }
        requires made { made.old ≡ nothing_made }
        ensures { IfOk result (λ found. IsFound login.now number (seen tape.now) steps.now answers.now found) }
    {
        let mut left = steps;
        let mut others = answers;
        let mut index = 0;
        'lines: while let Some((step, later_steps)) = left.split_first() {
            let Some((answer, later_answers)) = others.split_first() else {
                return Ok(Found::Wrong(index));
            };
            if !self.line(alloc, login, number, tape, index, made, step, answer)? {
                return Ok(Found::Wrong(index));
            }
            left = later_steps;
            others = later_answers;
            made.note(alloc, number, step, &answer.outcome)?;
            index += 1;
        }
        let found = self.at_end(alloc, login, number, tape, others, index, made)?;
        Ok(found)
    }
}

/// Whether the lines of a transcript are right at the connection with this number, whose tape is this: each line is one
/// that may follow the earlier ones, its answer is what the call returns over the tape's bytes by the reading of
/// `my_reading`, and the tape has no other calls and no other bytes. A connection without a link has an empty tape.
pub fn judge_connection(
    alloc: Global,
    login: &Login,
    number: u64,
    tape: &Tape,
    steps: &[Step],
    answers: &[StepAnswer],
) -> Result<Found, NoMemory>
    ensures exact { IfOk result (λ found. IsFound login.now number (seen tape.now) steps.now answers.now found) }
{
    let mut walker = first_walker(alloc, login, number)?;
    let mut made = Made::new(alloc);
    let found = walker.all_lines(alloc, login, number, tape, &mut made, steps, answers);
    drop(made);
    drop(walker);
    found
}
