//! The core of a scripted server: it is handed what a client sent, and says what is to be sent.

ghost use Rattle.std.specs.Prelude.{◌≡◌, ◌≤◌, ◌↔◌, ◌++◌, [], None, true, length, drop, take as front, IfOk, IsErr, IsOk, MatchResult, OnErr, OnOk};
ghost use Rattle.my_frame.specs.Chunks.{chunks};
ghost use Rattle.my_frame.specs.Front.{front_at};
ghost use Rattle.my_server.specs.Arrival.{Arrives};
ghost use Rattle.my_server.specs.Faults.{Blames, script_fault};
ghost use Rattle.my_server.specs.Machine.{all_chunks, greeting_payload};

use crate::answering::{command_answer, denied_answer, fine_answer, greeting_answer};
use crate::arrival::payload_there;
use crate::check::check_script;
use crate::command::{CommandKind, command_kind, query_text};
use crate::greet::{OFFERED, admits};
use crate::login::read_login;
use crate::phase::{CloseCause, Phase, ServerStep};
use crate::script::{ScriptFault, ServerScript};
use bytes::BytesMut;
use my_flags::CapabilityFlags;
use my_frame::{CodecError, FramedPayload, NoMemory};
use std::alloc::Global;
use std::marker::Model;

// The greeting's bytes, where the script can be served.
fn opening(alloc: Global, script: &ServerScript) -> Result<BytesMut, ScriptFault>
    ensures { MatchResult result
        (λ bytes. (bytes.items ≡ chunks (greeting_payload script.now) 0) × (script_fault script.now ≡ None))
        (λ e. Blames e (script_fault script.now)) }
{
    check_script(alloc, script)?;
    Ok(greeting_answer(alloc, script)?)
}

/// A server of one client, with no input or output of its own: a caller steps it, sends what is owed, and hands in
/// what is received.
#[derive(Drop)]
pub struct ServerCore {
    script: ServerScript,
    phase: Phase,
    unread: BytesMut,
    owed: BytesMut,
}

impl Model for ServerCore {
    ghost use Rattle.my_server.specs.Core.{IsSound, served};
    ghost use Rattle.my_server.specs.Machine.{Served};

    ghost Value = { Served };

    ghost view = { served };

    ghost invariant = { IsSound };
}

impl ServerCore {
    ghost use Rattle.my_frame.specs.FrontLaws.{AreBytes};
    ghost use Rattle.my_server.specs.ClientLogin.{login_at};
    ghost use Rattle.my_server.specs.Command.{command_kind};
    ghost use Rattle.my_server.specs.History.{History, Stands, beginning, after_send, after_step, after_take};
    ghost use Rattle.my_server.specs.Machine.{Steps, answer_move, close_move, command_move, fresh, is_closed, judge_move, login_move, longest, next, reply_move, with_bytes, with_sent};

    /// A server that is to greet its client. The first fault of the script is returned: its version, or its first
    /// reply without a set, with a set of no or more than 65,535 columns, with a row of another number of cells, with
    /// an OK of another status, or with a payload above 1,073,741,824 bytes.
    pub fn new(alloc: Global, script: ServerScript) -> Result<ServerCore, ScriptFault>
        ensures made { MatchResult result (λ core. (core ≡ fresh script) × (script_fault script ≡ None))
            (λ e. Blames e (script_fault script)) }
        ensures stands { IfOk result (λ core. Stands core (beginning script)) }
    {
        let owed = opening(alloc, &script)?;
        Ok(ServerCore {
            script,
            phase: Phase::Login,
            unread: BytesMut::new(alloc),
            owed,
        })
    }

    /// These bytes were received. A closed core takes them unread.
    pub fn take(&mut self, bytes: &[u8]) -> Result<(), NoMemory>
        ensures ok { OnOk result (self.new ≡ with_bytes self.old bytes.now) }
        ensures err { OnErr result (self.new ≡ self.old) }
        ensures closed { is_closed self.old.phase ≡ true → IsOk result }
        ensures stands { OnOk result ((h : History) → Stands self.old h
            → Stands self.new (after_take self.old.phase h bytes.now)) }
    {
        match self.phase {
            Phase::Closed(_) => Ok(()),
            Phase::Login | Phase::Commands(_) => Ok(self.unread.extend_from_slice(bytes)?),
        }
    }

    /// The bytes that are to be sent.
    pub fn owed(&self) -> &[u8]
        ensures { result.now ≡ self.now.owed }
    {
        self.owed.as_slice()
    }

    /// `count` of the bytes owed were sent.
    pub fn sent(&mut self, count: usize)
        requires { count ≤ length self.old.owed }
        ensures core { self.new ≡ with_sent self.old count }
        ensures stands { (h : History) → Stands self.old h
            → Stands self.new (after_send h (front count self.old.owed)) }
    {
        self.owed.advance(count);
    }

    fn close(&mut self, cause: CloseCause) -> ServerStep
        ensures { Steps (close_move self.old cause) self.old self.new result }
    {
        self.phase = Phase::Closed(cause);
        ServerStep::Closed(cause)
    }

    // A payload was read, whose packets take `len` bytes.
    fn reply(&mut self, phase: Phase, len: usize, answer: Result<BytesMut, NoMemory>) -> ServerStep
        requires done { self.old.owed ≡ [] }
        requires room { len ≤ length self.old.unread }
        ensures { MatchResult answer
            (λ bytes. Steps (reply_move self.old phase (drop len self.old.unread) bytes.items) self.old self.new result)
            (λ _. (self.new ≡ self.old) × (result ≡ ServerStep.NoMemory)) }
    {
        match answer {
            Ok(bytes) => {
                self.unread.advance(len);
                self.owed = bytes;
                self.phase = phase;
                ServerStep::Send
            }
            Err(NoMemory) => ServerStep::NoMemory,
        }
    }

    fn log_in(&mut self, alloc: Global, found: &FramedPayload) -> ServerStep
        requires done { self.old.owed ≡ [] }
        requires room { found.now.span.len ≤ length self.old.unread }
        ensures { let s = self.old in let f = found.now in
            Steps (judge_move s (drop f.span.len s.unread) f.span.next (login_at f.payload)) s self.new result }
    {
        let Some(login) = read_login(found.payload.as_slice()) else {
            return self.close(CloseCause::BadPacket(0));
        };
        let kept = login.capabilities.intersection(OFFERED);
        match admits(alloc, &self.script, &login) {
            Ok(true) => {
                let answer = fine_answer(alloc, found.span.next);
                self.reply(Phase::Commands(kept), found.span.len, answer)
            }
            Ok(false) => {
                let answer = denied_answer(alloc, found.span.next);
                self.reply(Phase::Closed(CloseCause::Denied), found.span.len, answer)
            }
            Err(NoMemory) => ServerStep::NoMemory,
        }
    }

    fn obey(&mut self, alloc: Global, kept: CapabilityFlags, found: &FramedPayload) -> ServerStep
        requires done { self.old.owed ≡ [] }
        requires room { found.now.span.len ≤ length self.old.unread }
        ensures { let s = self.old in let f = found.now in
            let rest = drop f.span.len s.unread in
            Steps (answer_move s kept f.payload rest f.span.next (command_kind f.payload)) s self.new result }
    {
        let kind = command_kind(found.payload.as_slice());
        if matches!(kind, CommandKind::Quit) {
            return self.close(CloseCause::Quit);
        }
        let answer = command_answer(
            alloc,
            &self.script,
            kept.deprecates_eof(),
            kind,
            query_text(found.payload.as_slice()),
            found.span.next,
        );
        self.reply(Phase::Commands(kept), found.span.len, answer)
    }

    fn step_login(&mut self, alloc: Global) -> ServerStep
        requires { self.old.owed ≡ [] }
        ensures { Steps (login_move self.old (front_at 1 longest self.old.unread)) self.old self.new result }
    {
        match payload_there(alloc, self.unread.as_slice(), 1) {
            Ok(Some(found)) => self.log_in(alloc, &found),
            Ok(None) => ServerStep::Need,
            Err(CodecError::Fault(fault)) => self.close(CloseCause::Codec(fault)),
            Err(CodecError::NoMemory) => ServerStep::NoMemory,
        }
    }

    fn step_command(&mut self, alloc: Global, kept: CapabilityFlags) -> ServerStep
        requires { self.old.owed ≡ [] }
        ensures { let s = self.old in
            Steps (command_move s kept (front_at 0 longest s.unread)) s self.new result }
    {
        match payload_there(alloc, self.unread.as_slice(), 0) {
            Ok(Some(found)) => self.obey(alloc, kept, &found),
            Ok(None) => ServerStep::Need,
            Err(CodecError::Fault(fault)) => self.close(CloseCause::Codec(fault)),
            Err(CodecError::NoMemory) => ServerStep::NoMemory,
        }
    }

    fn advance(&mut self, alloc: Global) -> ServerStep
        ensures steps { Steps (next self.old) self.old self.new result }
        ensures bytes { AreBytes self.old.unread }
    {
        if !self.owed.is_empty() {
            return ServerStep::Send;
        }
        match self.phase {
            Phase::Login => self.step_login(alloc),
            Phase::Commands(kept) => self.step_command(alloc, kept),
            Phase::Closed(cause) => ServerStep::Closed(cause),
        }
    }

    /// Reads the next payload, where nothing is owed and the core isn't closed, and answers it.
    pub fn step(&mut self, alloc: Global) -> ServerStep
        ensures steps { Steps (next self.old) self.old self.new result }
        ensures stands { (h : History) → Stands self.old h → Stands self.new (after_step self.old result h) }
    {
        self.advance(alloc)
    }
}
