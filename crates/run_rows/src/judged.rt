//! Judges the run of a row, and its changes. `judge` has how many changes of the transcript are refuted and how many allowed, the
//! sum of the lines at which they are refuted, and the same of changes of the plan; `other` the number of a line, and a step that it
//! can't have been; `lost` a line and a call, of which the line's first poll is missing with that call. A change of the transcript is
//! allowed only where it changes nothing: two lines of one outcome in each other's place, or an emptied cell that is NULL.

use crate::changes::{change_plan, change_transcript, lose, swap_step};
use crate::text::{cut, field, number};
use my_frame::NoMemory;
use my_grammar::Login;
use my_run_judge::{Found, judge_run};
use my_script::{Read, Script, StepAnswer, Tape, Transcript, read_script, read_word};
use my_session::login_for;
use std::alloc::{AllocError, Global};

/// A run: the lines of its plan and its steps, and what it printed.
#[derive(Drop)]
pub struct Run {
    pub login: Login,
    pub read: Script,
    pub transcript: Transcript,
}

/// What is found of changes.
#[derive(Clone, Copy)]
pub struct Counts {
    refuted: u64,
    allowed: u64,
    lines: u64,
}

fn nothing() -> Counts {
    Counts {
        refuted: 0,
        allowed: 0,
        lines: 0,
    }
}

impl Run {
    fn found_of(
        &self,
        alloc: Global,
        answers: &[StepAnswer],
        tapes: &[Tape],
    ) -> Result<Found, NoMemory> {
        let Script { plan, steps } = &self.read;
        judge_run(
            alloc,
            &self.login,
            plan.as_slice(),
            steps.as_slice(),
            answers,
            tapes,
        )
    }

    // What is found of it: the number of the first line that is wrong, 0 where none is, and the greatest number out of memory.
    fn wrong_line(&self, alloc: Global) -> u64 {
        let Transcript { answers, tapes } = &self.transcript;
        line_of(self.found_of(alloc, answers.as_slice(), tapes.as_slice()))
    }

    /// Counts what is found of it.
    pub fn count(&self, alloc: Global, counts: &mut Counts) {
        counts.note(self.wrong_line(alloc));
    }

    /// Counts what is found of it without its last line, and without its last tape.
    pub fn count_ends(&self, alloc: Global, counts: &mut Counts) {
        let Transcript { answers, tapes } = &self.transcript;
        if let Some((_, rest)) = answers.as_slice().split_last() {
            counts.note(line_of(self.found_of(alloc, rest, tapes.as_slice())));
        }
        if let Some((_, rest)) = tapes.as_slice().split_last() {
            counts.note(line_of(self.found_of(alloc, answers.as_slice(), rest)));
        }
    }
}

fn line_of(found: Result<Found, NoMemory>) -> u64 {
    match found {
        Ok(Found::Right) => 0,
        Ok(Found::Wrong(line)) => (line as u64).wrapping_add(1),
        Err(_) => u64::MAX,
    }
}

impl Counts {
    fn note(&mut self, line: u64) {
        if line == 0 {
            self.allowed = self.allowed.wrapping_add(1);
        } else {
            self.refuted = self.refuted.wrapping_add(1);
            self.lines = self.lines.wrapping_add(line);
        }
    }

    fn push(&self, alloc: Global, text: &mut String) -> Result<(), AllocError> {
        let Counts {
            refuted,
            allowed,
            lines,
        } = self;
        text.push_str(format!(in alloc; " {refuted} {allowed} {lines}")?.as_str())
    }
}

fn lines_of(alloc: Global, plans: bool, text: &str) -> Result<Script, NoMemory> {
    match read_script(alloc, plans, text.as_bytes())? {
        Read::Good(script) => Ok(script),
        Read::Bad(_) => Ok(Script {
            plan: Vec::new(alloc),
            steps: Vec::new(alloc),
        }),
    }
}

fn login_of(alloc: Global, word: &str) -> Result<Option<Login>, NoMemory> {
    match read_word(alloc, word)? {
        Ok(opts) => {
            let login = login_for(alloc, &opts);
            drop(opts);
            Ok(Some(login?))
        }
        Err(fault) => {
            drop(fault);
            Ok(None)
        }
    }
}

// Whether the line is refuted with another step.
fn is_refuted_with(alloc: Global, run: &mut Run, line: u64, step: &str) -> Result<bool, NoMemory> {
    let mut other = lines_of(alloc, true, step)?;
    swap_step(run, line, &mut other);
    let found = run.wrong_line(alloc);
    swap_step(run, line, &mut other);
    drop(other);
    Ok(found == line)
}

// Whether the lines are refuted that have no part in the counts.
fn are_refuted(alloc: Global, run: &mut Run, row: &str) -> Result<bool, NoMemory> {
    for text in row.lines() {
        if let Some(rest) = text.strip_prefix("other ") {
            let (line, step) = cut(rest);
            if !is_refuted_with(alloc, run, number(line), step)? {
                return Ok(false);
            }
        }
    }
    if let Some(rest) = field(row, "lost ") {
        let (line, call) = cut(rest);
        lose(run, number(line), number(call));
        return Ok(run.wrong_line(alloc) == number(line));
    }
    Ok(true)
}

fn counted(alloc: Global, run: &mut Run) -> Result<String, AllocError> {
    let mut text = String::from_str(alloc, "judge")?;
    let mut counts = nothing();
    change_transcript(alloc, run, &mut counts);
    counts.push(alloc, &mut text)?;
    let mut counts = nothing();
    change_plan(alloc, run, &mut counts);
    counts.push(alloc, &mut text)?;
    Ok(text)
}

// What is found of a run otherwise than its row says.
fn fault_in(alloc: Global, run: &mut Run, row: &str) -> Result<String, NoMemory> {
    let line = run.wrong_line(alloc);
    if line != 0 {
        return Ok(format!(in alloc; "wrong line {line}")?);
    }
    if field(row, "uncounted").is_none() {
        let found = counted(alloc, run)?;
        if field(row, found.as_str()).is_none() {
            return Ok(found);
        }
    }
    if are_refuted(alloc, run, row)? {
        Ok(String::new(alloc))
    } else {
        Ok(String::from_str(alloc, "a line that is not refuted")?)
    }
}

/// What is found of the transcript of a script, otherwise than its row says.
pub fn fault_of(
    alloc: Global,
    words: &str,
    script: &str,
    transcript: Transcript,
    row: &str,
) -> Result<String, NoMemory> {
    let word = words.lines().last().unwrap_or("");
    let login = login_of(alloc, word)?;
    let read = lines_of(alloc, words.starts_with("script"), script)?;
    match login {
        None => Ok(String::from_str(alloc, "no options")?),
        Some(login) => {
            let mut run = Run {
                login,
                read,
                transcript,
            };
            let fault = fault_in(alloc, &mut run, row);
            drop(run);
            fault
        }
    }
}
