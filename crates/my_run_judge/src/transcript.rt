//! Whether a whole transcript is right.

ghost use Rattle.std.specs.Prelude.{◌≡◌, ◌+◌, ◌<◌, ◌^◌, IfOk};
ghost use Rattle.std.specs.Bool.{Decides};
ghost use Rattle.std.specs.Option.{option_copied};
ghost use Rattle.my_run_judge.specs.Seen.{nothing_seen, seen, seen_at};
ghost use Rattle.my_run_judge.specs.Transcripts.{
  AreTapes,
  FoundAt,
  IsFoundBelow,
  IsFoundIn,
  dialed_by,
  dialed_in,
  earlier,
  seen_as,
  with_tapes,
};

use crate::judging::{Found, judge_connection};
use my_frame::NoMemory;
use my_grammar::Login;
use my_script::{Step, StepAnswer, Tape};
use std::alloc::Global;

fn dialed_by(step: &Step) -> u64
    ensures { result ≡ dialed_by step.now }
{
    match step {
        Step::Conn => 1,
        _ => 0,
    }
}

/// How many connections the steps dial.
pub(crate) fn dialed_in(steps: &[Step]) -> u64
    ensures count { result ≡ dialed_in steps.now }
    ensures within { result < 2 ^ 63 }
{
    let mut left = steps;
    let mut dialed = 0;
    'steps: while let Some((step, later)) = left.split_first() {
        dialed += dialed_by(step);
        left = later;
    }
    dialed
}

// Whether each tape has a call and a number below this one, and numbers rise.
fn are_tapes(most: u64, tapes: &[Tape]) -> bool
    ensures { Decides result (AreTapes 0 most tapes.now) }
{
    let mut left = tapes;
    let mut first = 0;
    'tapes: while let Some((tape, later)) = left.split_first() {
        if tape.number < first || tape.number >= most || tape.calls.is_empty() {
            return false;
        }
        first = tape.number + 1;
        left = later;
    }
    true
}

// The tape with this number.
fn tape_at(number: u64, tapes: &[Tape]) -> Option<&Tape>
    ensures { seen_as (option_copied result) ≡ seen_at number tapes.now }
{
    let mut left = tapes;
    'tapes: while let Some((tape, later)) = left.split_first() {
        if tape.number == number {
            return Some(tape);
        }
        left = later;
    }
    None
}

fn no_tape(alloc: Global) -> Tape
    ensures { seen result ≡ nothing_seen }
{
    Tape {
        number: 0,
        sent: Vec::new(alloc),
        taken: Vec::new(alloc),
        calls: Vec::new(alloc),
    }
}

// What is found at a number, over its tape, or over nothing where it has none.
fn judge_number(
    alloc: Global,
    login: &Login,
    number: u64,
    steps: &[Step],
    answers: &[StepAnswer],
    tapes: &[Tape],
) -> Result<Found, NoMemory>
    ensures { IfOk result (λ found. FoundAt login.now steps.now answers.now tapes.now number found) }
{
    let none = no_tape(alloc);
    let tape = match tape_at(number, tapes) {
        Some(tape) => tape,
        None => &none,
    };
    let found = judge_connection(alloc, login, number, tape, steps, answers);
    drop(none);
    found
}

/// The earlier of two findings; a wrong line is earlier than that all is right.
pub(crate) fn earlier(one: Found, other: Found) -> Found
    ensures { result ≡ earlier one other }
{
    match one {
        Found::Right => other,
        Found::Wrong(line) => match other {
            Found::Right => one,
            Found::Wrong(second) => { if second < line { other } else { one } }
        },
    }
}

// What is found at the numbers up to this one.
fn judge_numbers(
    alloc: Global,
    login: &Login,
    most: u64,
    steps: &[Step],
    answers: &[StepAnswer],
    tapes: &[Tape],
) -> Result<Found, NoMemory>
    requires { most < 2 ^ 63 }
    ensures { let at = FoundAt login.now steps.now answers.now tapes.now in
        IfOk result (λ found. IsFoundBelow at (most + 1) found) }
{
    let mut least = Found::Right;
    let mut number = 0;
    'numbers: while number <= most {
        let found = judge_number(alloc, login, number, steps, answers, tapes)?;
        least = earlier(least, found);
        number += 1;
    }
    Ok(least)
}

// What is found in the end, by whether the tapes are those of connections.
fn with_tapes(found: Found, numbered: bool, end: usize) -> Found
    ensures { result ≡ with_tapes found numbered end }
{
    match found {
        Found::Right => {
            if numbered {
                Found::Right
            } else {
                Found::Wrong(end)
            }
        }
        Found::Wrong(line) => Found::Wrong(line),
    }
}

/// Whether a transcript of these steps is right, or which line is the first that isn't, with its index from 0: the lines are
/// right at each number that was dialed (`judge_connection`), steps that name another number are refused, and the tapes are
/// those of connections that were made, in order. The number of lines means the end, where a tape continues or is
/// missing. It takes the time of `judge_connection` once for each `conn` and once more.
pub fn judge_transcript(
    alloc: Global,
    login: &Login,
    steps: &[Step],
    answers: &[StepAnswer],
    tapes: &[Tape],
) -> Result<Found, NoMemory>
    ensures exact { IfOk result (λ found. IsFoundIn login.now steps.now answers.now tapes.now found) }
{
    let most = dialed_in(steps);
    let found = judge_numbers(alloc, login, most, steps, answers, tapes)?;
    Ok(with_tapes(found, are_tapes(most, tapes), steps.len()))
}
