//! Runs scripts of steps over MySQL connections.
#![tactic(auto)]

ghost use Rattle.std.specs.Prelude.{◌≡◌, ◌≢◌};
ghost use Rattle.my_cli.specs.Page.{page_text, PageEnds};

mod cause;
mod help;
mod message;
mod unread;
mod words;

use cause::{cause_of, last_outside, outside_text};
use help::{Page, asked_page};
use message::message;
use my_frame::{Sink, StdSink, StdSource};
use my_link::MemWorld;
use my_net::TcpWorld;
use my_run::{Report, Status, run_tool, write_all};
use my_script::Transcript;
use std::env::VarError;
use std::io;
use std::io::{Eprint, ErrorKind};
use std::process::ExitCode;
use words::{command_words, is_live, variable, with_variable};

// Writes a page, and returns how that ended.
fn print_page<W: Sink>(out: &mut W, page: Page) -> Status
    ensures { PageEnds (page_text page) (W.seen out.old) (W.seen out.new) result }
{
    if write_all(out, page.text().as_bytes()) {
        Status::Done
    } else {
        Status::SinkFailed
    }
}

// How a run ends whose words can't be read.
fn unread_words(kind: ErrorKind) -> Status
    ensures memory { kind ≡ ErrorKind.OutOfMemory → result ≡ Status.NoMemory }
    ensures other { kind ≢ ErrorKind.OutOfMemory → result ≡ Status.NoCommand }
{
    match kind {
        ErrorKind::OutOfMemory => Status::NoMemory,
        _ => Status::NoCommand,
    }
}

fn unread_text(status: &Status) -> &'static str {
    match status {
        Status::NoMemory => "out of memory",
        _ => "a word is no text; --help teaches the words",
    }
}

// Says on standard error why a run of these words ended with this status.
fn explain<R: Eprint + AllocGlobal>(rt: &R, words: &[String], status: &Status) {
    let _ = match message(rt.alloc(), words, status) {
        Ok(None) => Ok(()),
        Ok(Some(text)) => eprintln!(rt; "my_cli: {text}"),
        Err(_) => eprintln!(rt; "my_cli: out of memory"),
    };
}

// Says on standard error what failed answers say of the servers, and what the system told last.
fn tell<R: Eprint>(rt: &R, transcript: &Transcript, last: Option<ErrorKind>) {
    for answer in &transcript.answers {
        if let Some(cause) = cause_of(answer, &transcript.tapes) {
            let _ = eprintln!(rt; "my_cli: step {}: {cause}", answer.number);
        }
    }
    if let Some(number) = last_outside(&transcript.answers)
        && let Some(kind) = last
    {
        let _ = eprintln!(rt; "my_cli: step {number}: {}", outside_text(kind));
    }
}

// Says what the answers of a run don't, and returns how it ended.
fn finish<R: Eprint>(rt: &R, report: Report, last: Option<ErrorKind>) -> Status {
    let Report { status, transcript } = report;
    tell(rt, &transcript, last);
    drop(transcript);
    status
}

fn run<W: Sink>(rt: &HostRuntime, words: &[String], out: &mut W) -> Status {
    let mut src = StdSource::new(rt.reader());
    if is_live(words) {
        let mut world = TcpWorld::new(rt);
        let report = run_tool(rt.alloc(), words, &mut src, out, &mut world);
        finish(rt, report, world.last_fault())
    } else {
        let mut world = MemWorld::new(rt.alloc());
        let report = run_tool(rt.alloc(), words, &mut src, out, &mut world);
        finish(rt, report, None)
    }
}

// Says that the environment doesn't give a word, and returns the program's status.
fn unset<R: Eprint>(rt: &R, name: &str, error: VarError) -> u8 {
    let what = match error {
        VarError::NotPresent => "isn't set",
        VarError::NotUnicode => "is no text",
        VarError::OutOfMemory => {
            let _ = eprintln!(rt; "my_cli: out of memory");
            return Status::NoMemory.code();
        }
    };
    let _ = eprintln!(rt; "my_cli: the word is refused: {name} {what} in the environment");
    REFUSED
}

// The status of a refused word.
const REFUSED: u8 = 6;

// Runs a command whose second word may be env:NAME, and returns the program's status.
fn run_command<W: Sink>(rt: &HostRuntime, words: &[String], out: &mut W) -> u8 {
    let status = match variable(words) {
        None => run(rt, words, out),
        Some(name) => match with_variable(rt, words, name) {
            Ok(with) => run(rt, &with, out),
            Err(error) => return unset(rt, name, error),
        },
    };
    explain(rt, words, &status);
    status.code()
}

fn main(rt: HostRuntime) -> ExitCode {
    let words = match command_words(&rt) {
        Ok(words) => words,
        Err(error) => {
            let status = unread_words(error.kind());
            let _ = eprintln!(rt; "my_cli: {}", unread_text(&status));
            return ExitCode::from(status.code());
        }
    };
    let mut out = StdSink::new(io::writer(&rt));
    match asked_page(&words) {
        Some(page) => {
            let status = print_page(&mut out, page);
            explain(&rt, &words, &status);
            ExitCode::from(status.code())
        }
        None => ExitCode::from(run_command(&rt, &words, &mut out)),
    }
}
