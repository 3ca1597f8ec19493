//! Whole runs.

ghost use Rattle.std.specs.Prelude.{◌≡◌, IfOk};
ghost use Rattle.my_run_judge.specs.Transcripts.{IsFoundBelow, dialed_in};
ghost use Rattle.my_run_judge.specs.Plan.Runs.{DialsAt, LinksFound, PlansFound, RunFound, TapeFound};

use crate::judging::Found;
use crate::plan::dials::{dial_items, judge_dials};
use crate::plan::left::Left;
use crate::plan::lines::judge_link;
use crate::plan::planned::plan_of;
use crate::transcript::{dialed_in, earlier, judge_transcript};
use my_frame::NoMemory;
use my_grammar::Login;
use my_link::WorldLine;
use my_script::{Step, StepAnswer, Tape};
use std::alloc::Global;

fn judge_number(
    alloc: Global,
    lines: &[WorldLine],
    steps: &[Step],
    answers: &[StepAnswer],
    number: u64,
) -> Result<Found, NoMemory>
    ensures { IfOk result (λ found. DialsAt lines.now steps.now answers.now number found) }
{
    let items = dial_items(alloc, number, lines)?;
    Ok(judge_dials(number, items.as_slice(), steps, answers))
}

// What is found of the dials of all numbers.
fn judge_numbers(
    alloc: Global,
    lines: &[WorldLine],
    steps: &[Step],
    answers: &[StepAnswer],
) -> Result<Found, NoMemory>
    ensures { let at = DialsAt lines.now steps.now answers.now in
        IfOk result (λ found. IsFoundBelow at (dialed_in steps.now) found) }
{
    let most = dialed_in(steps);
    let mut least = Found::Right;
    let mut number = 0;
    'numbers: while number < most {
        let found = judge_number(alloc, lines, steps, answers, number)?;
        least = earlier(least, found);
        number += 1;
    }
    Ok(least)
}

fn judge_tape(
    alloc: Global,
    lines: &[WorldLine],
    answers: &[StepAnswer],
    tape: &Tape,
) -> Result<Found, NoMemory>
    ensures { IfOk result (λ found. TapeFound lines.now answers.now tape.now found) }
{
    let plan = plan_of(alloc, tape.number, lines)?;
    let first = Left::first(&plan, tape.taken.as_slice());
    Ok(judge_link(tape.number, first, answers))
}

fn judge_links(
    alloc: Global,
    lines: &[WorldLine],
    answers: &[StepAnswer],
    tapes: &[Tape],
) -> Result<Found, NoMemory>
    ensures { IfOk result (λ found. LinksFound lines.now answers.now tapes.now found) }
{
    let mut least = Found::Right;
    let mut left = tapes;
    'tapes: while let Some((tape, later)) = left.split_first() {
        let found = judge_tape(alloc, lines, answers, tape)?;
        least = earlier(least, found);
        left = later;
    }
    Ok(least)
}

/// Whether the lines of a transcript keep to a plan, or which is the first that doesn't, with its index from 0: the dials of
/// each number wait, fail and give the link as is planned, and at the link of each tape there are no more faults than are
/// planned, no byte but the plan's, and no end before the plan's. The number of lines stands for the end, where a tape has
/// another byte that no line took. It takes the time of all lines, of the plan and of the transcript, once for each `conn`
/// and once for each tape.
pub fn judge_plans(
    alloc: Global,
    lines: &[WorldLine],
    steps: &[Step],
    answers: &[StepAnswer],
    tapes: &[Tape],
) -> Result<Found, NoMemory>
    ensures exact { IfOk result (λ found. PlansFound lines.now steps.now answers.now tapes.now found) }
{
    let dials = judge_numbers(alloc, lines, steps, answers)?;
    let links = judge_links(alloc, lines, answers, tapes)?;
    Ok(earlier(dials, links))
}

/// Whether a transcript of these steps is right (`judge_transcript`) and keeps to the plan of its world (`judge_plans`), or
/// which is the first line that is wrong, with its index from 0.
pub fn judge_run(
    alloc: Global,
    login: &Login,
    lines: &[WorldLine],
    steps: &[Step],
    answers: &[StepAnswer],
    tapes: &[Tape],
) -> Result<Found, NoMemory>
    ensures exact { IfOk result (λ found.
        RunFound login.now lines.now steps.now answers.now tapes.now found) }
{
    let transcript = judge_transcript(alloc, login, steps, answers, tapes)?;
    let plans = judge_plans(alloc, lines, steps, answers, tapes)?;
    Ok(earlier(transcript, plans))
}
