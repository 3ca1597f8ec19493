//! Changes of a run, each of which is made, judged and undone.

use crate::judged::{Counts, Run};
use my_link::WorldLine;
use my_reading::{Answer, Error};
use my_script::{Outcome, Script, StepAnswer, Tape, TapeCall};
use std::alloc::Global;
use std::mem;

// A flag that is shown is the other one, or is again; false where none is.
fn turn_shown(outcome: &mut Outcome) -> bool {
    match outcome {
        Outcome::Flag(flag) => {
            *flag = !*flag;
            true
        }
        _ => false,
    }
}

// Makes this change of a line, or undoes it: its number; the number of its last poll or dial, and what that met; a flag that it
// shows. False where it has no such part.
fn turn_answer(answer: &mut StepAnswer, kind: u64) -> bool {
    if kind == 0 {
        answer.number ^= 1;
        return true;
    }
    if kind == 7 {
        return turn_shown(&mut answer.outcome);
    }
    let Some(used) = answer.uses.last_mut() else {
        return false;
    };
    match kind {
        1 => used.number ^= 1,
        2 => used.met.taken ^= 1,
        3 => used.met.holds ^= 1,
        4 => used.met.faults ^= 1,
        5 => used.met.ends ^= 1,
        _ => used.met.deaths ^= 1,
    }
    true
}

fn turn_line(run: &mut Run, line: usize, kind: u64) -> bool {
    match run.transcript.answers.as_mut_slice().get_mut(line) {
        Some(answer) => turn_answer(answer, kind),
        None => false,
    }
}

fn outcome_of(kind: u64) -> Outcome {
    match kind {
        0 => Outcome::Done,
        1 => Outcome::Pending,
        2 => Outcome::SetEnd,
        3 => Outcome::NoSet,
        _ => Outcome::NoSuchHandle,
    }
}

fn kind_of(outcome: &Outcome) -> u64 {
    match outcome {
        Outcome::Done => 0,
        Outcome::Pending => 1,
        Outcome::SetEnd => 2,
        Outcome::NoSet => 3,
        Outcome::NoSuchHandle => 4,
        _ => 5,
    }
}

// The row that is shown, with its first cell emptied.
fn emptied(alloc: Global, outcome: &Outcome) -> Option<Outcome> {
    let Outcome::Row(row) = outcome else {
        return None;
    };
    match row.copy(alloc) {
        Ok(mut other) => {
            let _ = other.take(0);
            Some(Outcome::Row(other))
        }
        Err(_) => None,
    }
}

// Another outcome than this one.
fn other_outcome(alloc: Global, outcome: &Outcome, kind: u64) -> Option<Outcome> {
    if kind == 5 {
        emptied(alloc, outcome)
    } else if kind == kind_of(outcome) {
        None
    } else {
        Some(outcome_of(kind))
    }
}

fn other_at(alloc: Global, run: &Run, line: usize, kind: u64) -> Option<Outcome> {
    match run.transcript.answers.get(line) {
        Some(answer) => other_outcome(alloc, &answer.outcome, kind),
        None => None,
    }
}

// The line's outcome and this one, each in the other's place.
fn swap_outcome(run: &mut Run, line: usize, outcome: &mut Outcome) {
    if let Some(answer) = run.transcript.answers.as_mut_slice().get_mut(line) {
        mem::swap(&mut answer.outcome, outcome);
    }
}

fn change_outcome(alloc: Global, run: &mut Run, counts: &mut Counts, line: usize, kind: u64) {
    if let Some(mut outcome) = other_at(alloc, run, line, kind) {
        swap_outcome(run, line, &mut outcome);
        run.count(alloc, counts);
        swap_outcome(run, line, &mut outcome);
        drop(outcome);
    }
}

// Two lines show each other's outcome.
fn swap_outcomes(run: &mut Run, one: usize, other: usize) {
    let mut outcome = Outcome::Done;
    swap_outcome(run, one, &mut outcome);
    swap_outcome(run, other, &mut outcome);
    swap_outcome(run, one, &mut outcome);
    drop(outcome);
}

fn kind_at(run: &Run, line: usize) -> u64 {
    match run.transcript.answers.get(line) {
        Some(answer) => kind_of(&answer.outcome),
        None => 0,
    }
}

fn change_pairs(alloc: Global, run: &mut Run, counts: &mut Counts, line: usize) {
    for other in 0..line {
        let kind = kind_at(run, line);
        if kind == 5 || kind != kind_at(run, other) {
            swap_outcomes(run, other, line);
            run.count(alloc, counts);
            swap_outcomes(run, other, line);
        }
    }
}

fn change_line(alloc: Global, run: &mut Run, counts: &mut Counts, line: usize) {
    for kind in 0..8 {
        if turn_line(run, line, kind) {
            run.count(alloc, counts);
            let _ = turn_line(run, line, kind);
        }
    }
    for kind in 0..6 {
        change_outcome(alloc, run, counts, line, kind);
    }
    change_pairs(alloc, run, counts, line);
}

fn turn(byte: Option<&mut u8>) -> bool {
    match byte {
        Some(byte) => {
            *byte ^= 1;
            true
        }
        None => false,
    }
}

// A call and the next one, each in the other's place; false where they are the same.
fn swap_calls(calls: &mut [TapeCall], at: usize) -> bool {
    let next = at.saturating_add(1);
    let is_other = match (calls.get(at), calls.get(next)) {
        (Some(one), Some(other)) => one.call != other.call || one.answer != other.answer,
        _ => false,
    };
    if is_other && next < calls.len() {
        calls.swap(at, next);
    }
    is_other
}

// Makes this change of a tape, or undoes it: its number, the first and the last byte that was sent, the byte at which a call began,
// a call and the next one. False where it has no such part.
fn turn_tape(tape: &mut Tape, call: usize, kind: u64) -> bool {
    match kind {
        0 => {
            tape.number ^= 1;
            true
        }
        1 => turn(tape.sent.first_mut()),
        2 => turn(tape.sent.last_mut()),
        3 => match tape.calls.as_mut_slice().get_mut(call) {
            Some(call) => {
                call.sent_from ^= 1;
                true
            }
            None => false,
        },
        _ => swap_calls(tape.calls.as_mut_slice(), call),
    }
}

fn turn_at(run: &mut Run, at: usize, call: usize, kind: u64) -> bool {
    match run.transcript.tapes.as_mut_slice().get_mut(at) {
        Some(tape) => turn_tape(tape, call, kind),
        None => false,
    }
}

fn change_at(alloc: Global, run: &mut Run, counts: &mut Counts, at: usize, call: usize, kind: u64) {
    if turn_at(run, at, call, kind) {
        run.count(alloc, counts);
        let _ = turn_at(run, at, call, kind);
    }
}

fn answer_of(kind: u64) -> Option<Result<Answer, Error>> {
    match kind {
        0 => None,
        1 => Some(Ok(Answer::Ready)),
        2 => Some(Ok(Answer::SetEnd)),
        _ => Some(Ok(Answer::NoSet)),
    }
}

fn answer_kind(answer: &Option<Result<Answer, Error>>) -> u64 {
    match answer {
        None => 0,
        Some(Ok(Answer::Ready)) => 1,
        Some(Ok(Answer::SetEnd)) => 2,
        Some(Ok(Answer::NoSet)) => 3,
        _ => 4,
    }
}

fn call_at(run: &mut Run, at: usize, call: usize) -> Option<&mut TapeCall> {
    match run.transcript.tapes.as_mut_slice().get_mut(at) {
        Some(tape) => tape.calls.as_mut_slice().get_mut(call),
        None => None,
    }
}

// The call's answer and this one, each in the other's place; false where they are the same.
fn swap_answer(
    run: &mut Run,
    at: usize,
    call: usize,
    answer: &mut Option<Result<Answer, Error>>,
) -> bool {
    match call_at(run, at, call) {
        Some(call) => {
            let is_other = answer_kind(&call.answer) != answer_kind(answer);
            mem::swap(&mut call.answer, answer);
            is_other
        }
        None => false,
    }
}

fn change_answer(
    alloc: Global,
    run: &mut Run,
    counts: &mut Counts,
    at: usize,
    call: usize,
    kind: u64,
) {
    let mut answer = answer_of(kind);
    if swap_answer(run, at, call, &mut answer) {
        run.count(alloc, counts);
    }
    let _ = swap_answer(run, at, call, &mut answer);
    drop(answer);
}

fn change_tape(alloc: Global, run: &mut Run, counts: &mut Counts, at: usize) {
    let calls = match run.transcript.tapes.get(at) {
        Some(tape) => tape.calls.len(),
        None => 0,
    };
    for kind in 0..3 {
        change_at(alloc, run, counts, at, 0, kind);
    }
    for call in 0..calls {
        change_at(alloc, run, counts, at, call, 3);
        change_at(alloc, run, counts, at, call, 4);
        for kind in 0..4 {
            change_answer(alloc, run, counts, at, call, kind);
        }
    }
}

fn turn_returned(tape: &mut Tape) {
    for call in tape.calls.as_mut_slice() {
        if let Some(Ok(Answer::Flag(flag))) = &mut call.answer {
            *flag = !*flag;
        }
    }
}

// Each flag that is shown or that a call returned is the other one, or is again; false where none is shown.
fn turn_flags(run: &mut Run) -> bool {
    let mut is_any = false;
    for answer in run.transcript.answers.as_mut_slice() {
        is_any |= turn_shown(&mut answer.outcome);
    }
    for tape in run.transcript.tapes.as_mut_slice() {
        turn_returned(tape);
    }
    is_any
}

fn last_taken(run: &mut Run) -> Option<&mut Vec<u8>> {
    match run.transcript.tapes.as_mut_slice().last_mut() {
        Some(tape) => Some(&mut tape.taken),
        None => None,
    }
}

fn pop_taken(run: &mut Run) -> Option<u8> {
    last_taken(run)?.pop()
}

// The last byte that the last connection received is missing.
fn change_taken(alloc: Global, run: &mut Run, counts: &mut Counts) {
    if let Some(byte) = pop_taken(run) {
        run.count(alloc, counts);
        if let Some(taken) = last_taken(run) {
            let _ = taken.push(byte);
        }
    }
}

/// Changes each line, each tape and each call.
pub fn change_transcript(alloc: Global, run: &mut Run, counts: &mut Counts) {
    for line in 0..run.transcript.answers.len() {
        change_line(alloc, run, counts, line);
    }
    for at in 0..run.transcript.tapes.len() {
        change_tape(alloc, run, counts, at);
    }
    if turn_flags(run) {
        run.count(alloc, counts);
        let _ = turn_flags(run);
    }
    run.count_ends(alloc, counts);
    change_taken(alloc, run, counts);
}

// How many lines are tried in a line's place: two where it gives bytes, a fault, or a dial that waits or fails; one where it is an
// end; none where it is a hold, or is of what writes take.
fn weight(line: &WorldLine) -> u64 {
    match line {
        WorldLine::Packet(_, _, _)
        | WorldLine::Drip(_, _, _)
        | WorldLine::Bytes(_, _)
        | WorldLine::Fail(_)
        | WorldLine::WriteFail(_)
        | WorldLine::DialWait(_)
        | WorldLine::DialFail(_) => 2,
        WorldLine::End(_) => 1,
        _ => 0,
    }
}

fn weight_at(run: &Run, at: usize) -> u64 {
    match run.read.plan.get(at) {
        Some(line) => weight(line),
        None => 0,
    }
}

fn swap_planned(run: &mut Run, at: usize, line: &mut WorldLine) {
    if let Some(old) = run.read.plan.as_mut_slice().get_mut(at) {
        mem::swap(old, line);
    }
}

// A hold of another link in the line's place, or an end of the first one.
fn change_planned(alloc: Global, run: &mut Run, counts: &mut Counts, at: usize, kind: u64) {
    let mut line = if kind == 0 {
        WorldLine::Wait(9)
    } else {
        WorldLine::End(0)
    };
    swap_planned(run, at, &mut line);
    run.count(alloc, counts);
    swap_planned(run, at, &mut line);
    drop(line);
}

// Whether the line is a packet, whose number is then another one, or is again.
fn turn_number(run: &mut Run, at: usize) -> bool {
    match run.read.plan.as_mut_slice().get_mut(at) {
        Some(WorldLine::Packet(_, number, _)) => turn(Some(number)),
        Some(WorldLine::Drip(_, number, _)) => turn(Some(number)),
        _ => false,
    }
}

/// Changes each line of the plan that gives bytes, a fault, an end, or a dial that waits or fails.
pub fn change_plan(alloc: Global, run: &mut Run, counts: &mut Counts) {
    for at in 0..run.read.plan.len() {
        for kind in 0..weight_at(run, at) {
            change_planned(alloc, run, counts, at, kind);
        }
        if turn_number(run, at) {
            run.count(alloc, counts);
            let _ = turn_number(run, at);
        }
    }
}

/// The step of this line, from 1, and the first of these, each in the other's place.
pub fn swap_step(run: &mut Run, line: u64, other: &mut Script) {
    let line = line.wrapping_sub(1) as usize;
    let old = run.read.steps.as_mut_slice().get_mut(line);
    let new = other.steps.as_mut_slice().first_mut();
    if let (Some(old), Some(new)) = (old, new) {
        mem::swap(old, new);
    }
}

/// The first poll of this line and this call of the first tape are missing, both numbered from 1.
pub fn lose(run: &mut Run, line: u64, call: u64) {
    let line = line.wrapping_sub(1) as usize;
    let call = call.wrapping_sub(1) as usize;
    if let Some(answer) = run.transcript.answers.as_mut_slice().get_mut(line) {
        if !answer.uses.is_empty() {
            let _ = answer.uses.remove(0);
        }
    }
    if let Some(tape) = run.transcript.tapes.as_mut_slice().first_mut() {
        if call < tape.calls.len() {
            drop(tape.calls.remove(call));
        }
    }
}
