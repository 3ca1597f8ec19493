//! The bytes with which a server answers.

ghost use Rattle.std.specs.Prelude.{◌≡◌, ℕ, List, ◌++◌, ◌∷◌, [], IfOk, OnOk};
ghost use Rattle.std.specs.Option.{option_copied};
ghost use Rattle.my_frame.specs.Chunks.{chunks};
ghost use Rattle.my_server.specs.Machine.{AreSendable, all_chunks, command_payloads, denial, fine_payload, found_payloads, greeting_payload, refusal_payload, reply_for};

use crate::answer::reply_payloads;
use crate::command::CommandKind;
use crate::greet::{denied_payload, fine_payload, greeting_payload, no_reply_payload};
use crate::script::{Reply, ServerScript};
use bytes::BytesMut;
use my_frame::{Blob, Listed, NoMemory, append_payload};
use std::alloc::Global;

fn one(alloc: Global, payload: Result<Blob, NoMemory>) -> Result<Listed<Blob>, NoMemory>
    ensures { (bytes : List ℕ) → IfOk payload (λ p. p ≡ bytes) → IfOk result (λ payloads. payloads ≡ bytes ∷ []) }
{
    let payload = payload?;
    let mut payloads = Listed::new(alloc);
    payloads.push(payload)?;
    Ok(payloads)
}

fn reply_for<'a>(replies: &'a [Reply], text: &[u8]) -> Option<&'a Reply>
    ensures { option_copied result ≡ reply_for replies.now text.now }
{
    replies.iter().find(|reply| reply.text.as_slice() == text)
}

// The payloads of the first reply with this text.
fn found_payloads(
    alloc: Global,
    replies: &[Reply],
    deprecates: bool,
    text: &[u8],
) -> Result<Listed<Blob>, NoMemory>
    requires { AreSendable replies.now }
    ensures { IfOk result (λ payloads. payloads ≡ found_payloads deprecates (reply_for replies.now text.now)) }
{
    match reply_for(replies, text) {
        Some(reply) => reply_payloads(alloc, deprecates, &reply.answer),
        None => one(alloc, no_reply_payload(alloc)),
    }
}

fn command_payloads(
    alloc: Global,
    script: &ServerScript,
    deprecates: bool,
    kind: CommandKind,
    text: &[u8],
) -> Result<Listed<Blob>, NoMemory>
    requires { AreSendable script.now.replies }
    ensures { IfOk result (λ payloads. payloads ≡ command_payloads script.now deprecates kind text.now) }
{
    match kind {
        CommandKind::Quit => Ok(Listed::new(alloc)),
        CommandKind::Ping | CommandKind::ResetConnection => one(alloc, fine_payload(alloc)),
        CommandKind::Query => found_payloads(alloc, script.replies.as_slice(), deprecates, text),
        CommandKind::Other => one(alloc, no_reply_payload(alloc)),
    }
}

fn chunked(alloc: Global, payloads: &[Blob], number: u8) -> Result<BytesMut, NoMemory>
    ensures { IfOk result (λ bytes. bytes.items ≡ all_chunks payloads.now number) }
{
    let mut bytes = BytesMut::new(alloc);
    let mut next = number;
    for payload in payloads {
        next = append_payload(&mut bytes, payload.as_slice(), next)?;
    }
    Ok(bytes)
}

/// The bytes of the answer to a command, with sequence ids from `number` on.
pub fn command_answer(
    alloc: Global,
    script: &ServerScript,
    deprecates: bool,
    kind: CommandKind,
    text: &[u8],
    number: u8,
) -> Result<BytesMut, NoMemory>
    requires { AreSendable script.now.replies }
    ensures { IfOk result
        (λ bytes. bytes.items ≡ all_chunks (command_payloads script.now deprecates kind text.now) number) }
{
    let payloads = command_payloads(alloc, script, deprecates, kind, text)?;
    chunked(alloc, payloads.as_slice(), number)
}

fn lone(alloc: Global, payload: Result<Blob, NoMemory>, number: u8) -> Result<BytesMut, NoMemory>
    ensures { (bytes : List ℕ) → IfOk payload (λ p. p ≡ bytes) → IfOk result (λ b. b.items ≡ chunks bytes number) }
{
    let payload = payload?;
    let mut bytes = BytesMut::new(alloc);
    append_payload(&mut bytes, payload.as_slice(), number)?;
    Ok(bytes)
}

/// The bytes of the greeting, which is the first payload.
pub fn greeting_answer(alloc: Global, script: &ServerScript) -> Result<BytesMut, NoMemory>
    ensures { IfOk result (λ bytes. bytes.items ≡ chunks (greeting_payload script.now) 0) }
{
    lone(alloc, greeting_payload(alloc, script), 0)
}

/// The bytes of an OK.
pub fn fine_answer(alloc: Global, number: u8) -> Result<BytesMut, NoMemory>
    ensures { IfOk result (λ bytes. bytes.items ≡ chunks fine_payload number) }
{
    lone(alloc, fine_payload(alloc), number)
}

/// The bytes of the ERR for a login that isn't admitted.
pub fn denied_answer(alloc: Global, number: u8) -> Result<BytesMut, NoMemory>
    ensures { IfOk result (λ bytes. bytes.items ≡ chunks (refusal_payload denial) number) }
{
    lone(alloc, denied_payload(alloc), number)
}
