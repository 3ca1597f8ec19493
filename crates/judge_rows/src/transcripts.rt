//! Transcripts of rows.

use crate::lines::{add_bytes, field};
use my_frame::NoMemory;
use my_handshake::ServerVersion;
use my_link::Met;
use my_reading::{Answer, Call, DriverError, Error, IoError, IoFault, IoKind};
use my_script::{Outcome, Read, Script, Step, StepAnswer, Tape, TapeCall, Use, read_script};
use std::alloc::{AllocError, Global};

/// Whether a line says what is found.
pub fn is_finding(line: &str) -> bool {
    line.starts_with('=')
}

fn push_line(text: &mut String, line: &str) -> Result<(), AllocError> {
    text.push_str(line)?;
    text.push('\n')
}

// A script of these lines of a plan and of the steps of the lines before this number.
fn script_text(alloc: Global, row: &str, lines: usize, plan: &str) -> Result<String, AllocError> {
    let mut text = String::new(alloc);
    for line in plan.split(", ") {
        push_line(&mut text, line)?;
    }
    for line in row.lines().take(lines) {
        if !is_finding(line) {
            push_line(&mut text, field(line, 0))?;
        }
    }
    Ok(text)
}

fn script_in(alloc: Global, text: &str) -> Result<Script, NoMemory> {
    match read_script(alloc, true, text.as_bytes()) {
        Ok(Read::Good(script)) => Ok(script),
        Ok(Read::Bad(line)) => {
            drop(line);
            Err(NoMemory)
        }
        Err(NoMemory) => Err(NoMemory),
    }
}

/// The steps of the lines before this number, over these lines of a plan.
pub fn script_of(alloc: Global, row: &str, lines: usize, plan: &str) -> Result<Script, NoMemory> {
    let text = script_text(alloc, row, lines, plan)?;
    script_in(alloc, text.as_str())
}

fn outcome_of(word: &str) -> Outcome {
    match word {
        "ok" => Outcome::Done,
        "pending" => Outcome::Pending,
        "none" => Outcome::NoSet,
        "flag 0" => Outcome::Flag(false),
        "error Io Dial" => Outcome::Failed(Error::Io(IoError::Io(IoFault {
            kind: IoKind::Dial,
            place: 0,
        }))),
        "error Driver ConnectionClosed" => {
            Outcome::Failed(Error::Driver(DriverError::ConnectionClosed))
        }
        "conn 0 id=7 version=8.0.36" => {
            let version = ServerVersion {
                mariadb: false,
                major: 8,
                minor: 0,
                patch: 36,
            };
            Outcome::Connected(0, 7, version)
        }
        _ => Outcome::NoSuchHandle,
    }
}

fn use_of(word: &str) -> Use {
    let mut met = Met::nothing();
    match word {
        "hold" => met.holds = 1,
        "fault" => met.faults = 1,
        _ => met.taken = word.parse::<u64>().unwrap_or(u64::MAX),
    }
    Use { number: 0, met }
}

fn uses_of(alloc: Global, words: &str) -> Result<Vec<Use>, AllocError> {
    let mut uses = Vec::new(alloc);
    for word in words.split(' ') {
        if !word.is_empty() {
            uses.push(use_of(word))?;
        }
    }
    Ok(uses)
}

/// The answers of the lines before this number.
pub fn answers_of(alloc: Global, row: &str, lines: usize) -> Result<Vec<StepAnswer>, AllocError> {
    let mut answers = Vec::new(alloc);
    for line in row.lines().take(lines) {
        if !is_finding(line) {
            let uses = uses_of(alloc, field(line, 2))?;
            answers.push(StepAnswer {
                number: (answers.len() as u64).wrapping_add(1),
                outcome: outcome_of(field(line, 1)),
                uses,
            })?;
        }
    }
    Ok(answers)
}

// A change of user by the words of a step.
fn change_of(alloc: Global, text: &str) -> Result<Call, NoMemory> {
    let mut script = script_in(alloc, text)?;
    let step = script.steps.pop();
    drop(script);
    match step {
        Some(Step::User(_, change)) => Ok(Call::ChangeUser(change)),
        other => {
            drop(other);
            Err(NoMemory)
        }
    }
}

fn call_of(alloc: Global, text: &str) -> Result<Call, NoMemory> {
    match text {
        "connect" => Ok(Call::Connect),
        "ping" => Ok(Call::Ping),
        "quit" => Ok(Call::Quit),
        _ => change_of(alloc, text),
    }
}

// What the call of a line with this outcome returned.
fn returned(outcome: &str) -> Option<Result<Answer, Error>> {
    match outcome {
        "pending" => None,
        "error Driver ConnectionClosed" => Some(Err(Error::Driver(DriverError::ConnectionClosed))),
        _ => Some(Ok(Answer::Ready)),
    }
}

fn add_call(
    alloc: Global,
    tape: &mut Tape,
    call: &str,
    answer: Option<Result<Answer, Error>>,
) -> Result<(), NoMemory> {
    let call = call_of(alloc, call)?;
    let sent_from = tape.sent.len() as u64;
    tape.calls.push(TapeCall {
        call,
        sent_from,
        answer,
    })?;
    Ok(())
}

fn add_line(alloc: Global, tape: &mut Tape, line: &str) -> Result<(), NoMemory> {
    let call = field(line, 3);
    if !call.is_empty() {
        add_call(alloc, tape, call, returned(field(line, 1)))?;
        add_bytes(alloc, &mut tape.sent, field(line, 4))?;
        add_bytes(alloc, &mut tape.taken, field(line, 5))?;
    }
    Ok(())
}

// Adds the calls of the lines before this number, and one that isn't answered where the handshake is open.
fn add_lines(
    alloc: Global,
    tape: &mut Tape,
    row: &str,
    lines: usize,
    open: bool,
) -> Result<(), NoMemory> {
    for line in row.lines().take(lines) {
        if !is_finding(line) {
            add_line(alloc, tape, line)?;
        }
    }
    if open {
        add_call(alloc, tape, "connect", None)?;
    }
    Ok(())
}

/// The tape of the lines before this number.
pub fn tape_of(alloc: Global, row: &str, lines: usize, open: bool) -> Result<Tape, NoMemory> {
    let mut tape = Tape {
        number: 0,
        sent: Vec::new(alloc),
        taken: Vec::new(alloc),
        calls: Vec::new(alloc),
    };
    match add_lines(alloc, &mut tape, row, lines, open) {
        Ok(()) => Ok(tape),
        Err(NoMemory) => {
            drop(tape);
            Err(NoMemory)
        }
    }
}
