//! A transcript as text.
ghost use Rattle.std.specs.Prelude.{◌≡◌, ◌<◌, ◌≤◌, ◌+◌, ◌-◌, ◌^◌, ◌++◌, ◌∷◌, [], OnOk, IfOk, codes};
ghost use Rattle.my_script.specs.ErrorText.{error_text};
ghost use Rattle.my_script.specs.Text.{version_text, connected_text, prepared_text, flag_text, prepared_by, outcome_text, answer_text, answers_text, hex_text, stream_text, tape_text, tapes_text, text_of};

use super::error::push_error;
use super::ok::{push_fields, push_named};
use super::parts::{push_decimal, push_hex, push_marked};
use super::value::{push_row, push_rows};
use crate::transcript::{Outcome, StepAnswer, Tape, Transcript};
use my_frame::NoMemory;
use my_handshake::ServerVersion;
use my_reading::Error;
use my_statements::Statement;
use std::alloc::{AllocError, Global};

#[tactic(auto, unfolding(crate::specs::Text::version_text))]
fn push_version(alloc: Global, out: &mut Vec<u8>, version: ServerVersion) -> Result<(), AllocError>
    ensures { OnOk result (out.new.items ≡ out.old.items ++ version_text version) }
{
    out.extend_from_slice(b" version=")?;
    push_decimal(alloc, out, version.major as u64)?;
    push_marked(alloc, out, b'.', version.minor as u64)?;
    push_marked(alloc, out, b'.', version.patch as u64)
}

#[tactic(auto, unfolding(crate::specs::Text::connected_text))]
fn push_connected(
    alloc: Global,
    out: &mut Vec<u8>,
    number: u64,
    id: u32,
    version: ServerVersion,
) -> Result<(), AllocError>
    ensures { OnOk result (out.new.items ≡ out.old.items ++ connected_text number id version) }
{
    out.extend_from_slice(b"conn ")?;
    push_decimal(alloc, out, number)?;
    out.extend_from_slice(b" id=")?;
    push_decimal(alloc, out, id as u64)?;
    push_version(alloc, out, version)
}

fn push_failed(alloc: Global, out: &mut Vec<u8>, error: &Error) -> Result<(), AllocError>
    ensures { OnOk result (out.new.items ≡ out.old.items ++ (codes "error " ++ error_text error.now)) }
{
    out.extend_from_slice(b"error ")?;
    push_error(alloc, out, error)
}

#[tactic(auto, unfolding(crate::specs::Text::prepared_text))]
fn push_prepared(
    alloc: Global,
    out: &mut Vec<u8>,
    number: u64,
    statement: &Statement,
) -> Result<(), AllocError>
    ensures { OnOk result (out.new.items ≡ out.old.items ++ prepared_text number statement.now) }
{
    out.extend_from_slice(b"stmt ")?;
    push_decimal(alloc, out, number)?;
    push_named(alloc, out, b" id=", statement.id() as u64)?;
    push_named(alloc, out, b" params=", statement.num_params() as u64)?;
    push_named(alloc, out, b" columns=", statement.num_columns() as u64)
}

fn push_flag(out: &mut Vec<u8>, flag: bool) -> Result<(), AllocError>
    ensures { OnOk result (out.new.items ≡ out.old.items ++ flag_text flag) }
{
    if flag {
        return out.extend_from_slice(b"flag 1");
    }
    out.extend_from_slice(b"flag 0")
}

// How many statements were prepared up to and with an answer, by how many were before it.
fn prepared_by(prepared: u64, outcome: &Outcome) -> u64
    requires { prepared < 2 ^ 64 - 1 }
    ensures number { result ≡ prepared_by prepared outcome.now }
    ensures one { result ≤ prepared + 1 }
{
    match outcome {
        Outcome::Prepared(_) => prepared + 1,
        _ => prepared,
    }
}

// An answer's text, where this many statements were prepared before it.
fn push_outcome(
    alloc: Global,
    out: &mut Vec<u8>,
    prepared: u64,
    outcome: &Outcome,
) -> Result<(), AllocError>
    ensures { OnOk result (out.new.items ≡ out.old.items ++ outcome_text prepared outcome.now) }
{
    match outcome {
        Outcome::Done => out.extend_from_slice(b"ok"),
        Outcome::Pending => out.extend_from_slice(b"pending"),
        Outcome::SetEnd => out.extend_from_slice(b"end"),
        Outcome::NoSet => out.extend_from_slice(b"none"),
        Outcome::Row(row) => push_row(alloc, out, row),
        Outcome::Rows(rows) => push_rows(alloc, out, rows),
        Outcome::Prepared(statement) => push_prepared(alloc, out, prepared, statement),
        Outcome::Flag(flag) => push_flag(out, *flag),
        Outcome::Fields(fields) => push_fields(alloc, out, fields.as_ref()),
        Outcome::Connected(number, id, version) => {
            push_connected(alloc, out, *number, *id, *version)
        }
        Outcome::Failed(error) => push_failed(alloc, out, error),
        Outcome::NoSuchHandle => out.extend_from_slice(b"refused NoSuchHandle"),
    }
}

#[tactic(auto, unfolding(crate::specs::Text::answer_text))]
fn push_answer(
    alloc: Global,
    out: &mut Vec<u8>,
    prepared: u64,
    answer: &StepAnswer,
) -> Result<(), AllocError>
    ensures { OnOk result (out.new.items ≡ out.old.items ++ answer_text prepared answer.now.number answer.now.outcome) }
{
    push_decimal(alloc, out, answer.number)?;
    out.push(b' ')?;
    push_outcome(alloc, out, prepared, &answer.outcome)?;
    out.push(b'\n')?;
    Ok(())
}

fn push_answers(alloc: Global, out: &mut Vec<u8>, answers: &[StepAnswer]) -> Result<(), AllocError>
    ensures { OnOk result (out.new.items ≡ out.old.items ++ answers_text 0 answers.now) }
{
    let mut prepared = 0u64;
    for answer in answers {
        push_answer(alloc, out, prepared, answer)?;
        prepared = prepared_by(prepared, &answer.outcome);
    }
    Ok(())
}

fn push_stream_bytes(alloc: Global, out: &mut Vec<u8>, bytes: &[u8]) -> Result<(), AllocError>
    ensures { OnOk result (out.new.items ≡ out.old.items ++ hex_text bytes.now) }
{
    if bytes.is_empty() {
        return out.extend_from_slice(b"-");
    }
    push_hex(alloc, out, bytes)
}

#[tactic(auto, unfolding(crate::specs::Text::stream_text))]
fn push_stream(
    alloc: Global,
    out: &mut Vec<u8>,
    word: &[u8],
    number: u64,
    bytes: &[u8],
) -> Result<(), AllocError>
    ensures { OnOk result (out.new.items ≡ out.old.items ++ stream_text word.now number bytes.now) }
{
    out.extend_from_slice(word)?;
    push_decimal(alloc, out, number)?;
    out.push(b' ')?;
    push_stream_bytes(alloc, out, bytes)?;
    out.push(b'\n')?;
    Ok(())
}

fn push_tape(alloc: Global, out: &mut Vec<u8>, tape: &Tape) -> Result<(), AllocError>
    ensures { OnOk result (out.new.items ≡ out.old.items ++ tape_text tape.now) }
{
    push_stream(alloc, out, b"sent ", tape.number, &tape.sent)?;
    push_stream(alloc, out, b"taken ", tape.number, &tape.taken)
}

fn push_tapes(alloc: Global, out: &mut Vec<u8>, tapes: &[Tape]) -> Result<(), AllocError>
    ensures { OnOk result (out.new.items ≡ out.old.items ++ tapes_text tapes.now) }
{
    for tape in tapes {
        push_tape(alloc, out, tape)?;
    }
    out.extend_from_slice(b"end\n")
}

/// The text of a transcript: a line for each answer, two for each tape, and `end`.
pub fn text_of(alloc: Global, transcript: &Transcript) -> Result<Vec<u8>, NoMemory>
    ensures { IfOk result (λ text. text.items ≡ text_of transcript.now.answers.items transcript.now.tapes.items) }
{
    let mut out = Vec::new(alloc);
    push_answers(alloc, &mut out, &transcript.answers)?;
    push_tapes(alloc, &mut out, &transcript.tapes)?;
    Ok(out)
}
