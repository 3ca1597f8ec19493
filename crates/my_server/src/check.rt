//! Whether a script can be served.

ghost use Rattle.std.specs.Prelude.{◌≡◌, ◌==◌, None, IfOk, MatchResult, length};
ghost use Rattle.std.specs.List.{list_all};
ghost use Rattle.my_server.specs.Faults.{Blames, is_answer, is_reply, is_sent, is_set, is_version, reply_fault, script_fault};

use crate::answer::{DONE, reply_payloads};
use crate::script::{Reply, ReplyAnswer, ScriptFault, ServerScript, ServerSet};
use my_frame::limits::GREATEST_MAX_ALLOWED_PACKET;
use my_frame::{Blob, Listed, NoMemory};
use std::alloc::Global;

fn is_version(version: &[u8]) -> bool
    ensures { result ≡ is_version version.now }
{
    version.len() <= 255 && !version.contains(&0)
}

// Whether each row has this number of cells.
fn are_rows(columns: usize, rows: &[Listed<Option<Blob>>]) -> bool
    ensures { result ≡ list_all (λ row. length row == columns) rows.now }
{
    for row in rows {
        if row.len() != columns {
            return false;
        }
    }
    true
}

fn is_set(set: &ServerSet) -> bool
    ensures { result ≡ is_set set.now }
{
    let columns = set.names.len();
    (0 < columns && columns <= 65_535) && are_rows(columns, set.rows.as_slice())
}

fn are_sets(sets: &[ServerSet]) -> bool
    ensures { result ≡ list_all is_set sets.now }
{
    for set in sets {
        if !is_set(set) {
            return false;
        }
    }
    true
}

fn is_answer(answer: &ReplyAnswer) -> bool
    ensures { result ≡ is_answer answer.now }
{
    match answer {
        ReplyAnswer::Fine(ok) => ok.status.0 == DONE.0,
        ReplyAnswer::Refuse(_) => true,
        ReplyAnswer::Sets(sets) => !sets.is_empty() && are_sets(sets.as_slice()),
    }
}

fn are_sent(payloads: &[Blob]) -> bool
    ensures { result ≡ list_all is_sent payloads.now }
{
    for payload in payloads {
        if payload.len() as u64 > GREATEST_MAX_ALLOWED_PACKET {
            return false;
        }
    }
    true
}

#[tactic(auto, unfolding(crate::specs::Faults::is_reply))]
fn is_reply(alloc: Global, reply: &Reply) -> Result<bool, NoMemory>
    ensures { IfOk result (λ sent. sent ≡ is_reply reply.now) }
{
    if !is_answer(&reply.answer) {
        return Ok(false);
    }
    let payloads = reply_payloads(alloc, true, &reply.answer)?;
    Ok(are_sent(payloads.as_slice()))
}

fn check_replies(alloc: Global, replies: &[Reply]) -> Result<(), ScriptFault>
    ensures { MatchResult result (λ _. reply_fault 0 replies.now ≡ None)
        (λ e. Blames e (reply_fault 0 replies.now)) }
{
    for (index, reply) in replies.iter().enumerate() {
        if !is_reply(alloc, reply)? {
            return Err(ScriptFault::BadReply(index as u64));
        }
    }
    Ok(())
}

/// Looks for what is wrong with a script.
#[tactic(auto, unfolding(crate::specs::Faults::script_fault))]
pub fn check_script(alloc: Global, script: &ServerScript) -> Result<(), ScriptFault>
    ensures { MatchResult result (λ _. script_fault script.now ≡ None)
        (λ e. Blames e (script_fault script.now)) }
{
    if !is_version(script.version.as_slice()) {
        return Err(ScriptFault::BadVersion);
    }
    check_replies(alloc, script.replies.as_slice())
}
