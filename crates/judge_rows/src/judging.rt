//! What is found of the rows.

use crate::lines::field;
use crate::logins::login;
use crate::rows::ROWS;
use crate::transcripts::{answers_of, is_finding, script_of, tape_of};
use my_frame::NoMemory;
use my_grammar::Login;
use my_run_judge::{Found, judge_connection, judge_run};
use my_script::{Script, StepAnswer, Tape};
use std::alloc::Global;
use std::slice;
use std::test::Fail;

// What is found of a run over its plan, or of connection 0 alone.
fn judged(
    alloc: Global,
    login: &Login,
    script: &Script,
    answers: &[StepAnswer],
    tape: &Tape,
    planned: bool,
) -> Result<Found, NoMemory> {
    let steps = script.steps.as_slice();
    if !planned {
        return judge_connection(alloc, login, 0, tape, steps, answers);
    }
    let tapes: &[Tape] = if tape.calls.is_empty() {
        &[]
    } else {
        slice::from_ref(tape)
    };
    judge_run(alloc, login, script.plan.as_slice(), steps, answers, tapes)
}

fn judged_as_root(
    alloc: Global,
    script: &Script,
    answers: &[StepAnswer],
    tape: &Tape,
    planned: bool,
) -> Result<Found, NoMemory> {
    let login = login(alloc, "plain")?;
    let found = judged(alloc, &login, script, answers, tape, planned);
    drop(login);
    found
}

// What is found of the lines of a row before this number.
fn found(alloc: Global, row: &str, lines: usize, finding: &str) -> Result<Found, NoMemory> {
    let plan = field(finding, 2).strip_prefix("planned");
    let answers = answers_of(alloc, row, lines)?;
    let script = script_of(alloc, row, lines, plan.unwrap_or("").trim())?;
    let found = match tape_of(alloc, row, lines, field(finding, 1) == "open") {
        Ok(tape) => {
            let found = judged_as_root(alloc, &script, answers.as_slice(), &tape, plan.is_some());
            drop(tape);
            found
        }
        Err(NoMemory) => Err(NoMemory),
    };
    drop(script);
    found
}

fn is_found(found: Found, want: &str) -> bool {
    match found {
        Found::Right => want == "= right",
        Found::Wrong(line) => match want.strip_prefix("= wrong ") {
            Some(number) => number.parse::<usize>() == Ok(line),
            None => false,
        },
    }
}

// Whether a line of a row, if it says what is found, is right.
fn is_right(alloc: Global, row: &str, lines: usize, line: &str) -> Result<bool, NoMemory> {
    Ok(!is_finding(line) || is_found(found(alloc, row, lines, line)?, field(line, 0)))
}

#[test]
fn transcripts_are_judged(rt: HostRuntime) -> Result<(), Fail> {
    let mut ran = 0u64;
    for row in ROWS.split("\n\n") {
        for (lines, line) in row.lines().enumerate() {
            assert!(rt; is_right(rt.alloc(), row, lines, line)?, "{line} of {row}");
            if is_finding(line) {
                ran = ran.wrapping_add(1);
            }
        }
    }
    assert!(rt; ran == 49);
    Ok(())
}
