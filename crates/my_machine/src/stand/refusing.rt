//! An ERR of the server is read.

ghost use Rattle.std.specs.Prelude.{◌≡◌, IfOk, drop};
ghost use Rattle.my_frame.specs.Chunks.{number_after_payload};
ghost use Rattle.my_reply.specs.ErrPacket.{err_at};
ghost use Rattle.my_reading.specs.Course.{is_greeting};
ghost use Rattle.my_reading.specs.Errors.{server_error};
ghost use Rattle.my_machine.specs.Found.{IsPlaced, payload_in};
ghost use Rattle.my_machine.specs.Stands.{IsTurn, after_err, dropped_at, failed_at, heard};

use super::Stand;
use super::payload::FoundPayload;
use super::reading::is_greeting;
use crate::part::Part;
use crate::step::Step;
use my_frame::{NoMemory, ReadError, Text};
use my_grammar::{Kind, Login};
use my_reading::ServerError;
use my_reply::{ErrPacket, read_err};
use std::alloc::Global;

// What an ERR says.
fn server_error(alloc: Global, packet: ErrPacket) -> Result<ServerError, NoMemory>
    ensures { IfOk result (λ e. e ≡ server_error packet) }
{
    let state = match Text::from_utf8_lossy(alloc, &packet.state) {
        Ok(state) => state,
        Err(_) => {
            drop(packet);
            return Err(NoMemory);
        }
    };
    Ok(ServerError {
        code: packet.code,
        state,
        message: packet.message,
    })
}

impl Stand {
    // The server's error ends the call.
    fn refuse(
        &mut self,
        alloc: Global,
        login: &Login,
        found: &FoundPayload,
    ) -> Result<Step, NoMemory>
        requires next { let s = self.old in
            found.now.span.next ≡ number_after_payload (payload_in s.unread found.now) s.number }
        requires placed { IsPlaced self.old.unread found.now }
        ensures { let s = self.old in
            let payload = payload_in s.unread found.now in
            let packet = err_at (is_greeting s.context.spot) payload in
            let new = heard login.now Kind.Failed payload (drop found.now.span.len s.unread) s in
            IfOk result (λ step. IsTurn (after_err packet s new) step self.new) }
    {
        let payload = found.in_bytes(self.unread.as_slice());
        match read_err(alloc, payload, is_greeting(self.context.spot)) {
            Ok(packet) => {
                let error = server_error(alloc, packet)?;
                match self.hear(alloc, login, Kind::Failed, found) {
                    Ok(()) => Ok(self.refuse_at(error)),
                    Err(NoMemory) => {
                        drop(error);
                        Err(NoMemory)
                    }
                }
            }
            Err(ReadError::Malformed) => Ok(self.unfit()),
            Err(ReadError::NoMemory) => Err(NoMemory),
        }
    }

    // What is left is read for nobody, and the server's error in it dropped.
    fn drop_error(
        &mut self,
        alloc: Global,
        login: &Login,
        found: &FoundPayload,
    ) -> Result<Step, NoMemory>
        requires next { let s = self.old in
            found.now.span.next ≡ number_after_payload (payload_in s.unread found.now) s.number }
        requires placed { IsPlaced self.old.unread found.now }
        ensures { let s = self.old in
            let payload = payload_in s.unread found.now in
            let packet = err_at (is_greeting s.context.spot) payload in
            let new = heard login.now Kind.Failed payload (drop found.now.span.len s.unread) s in
            IfOk result (λ step. IsTurn (dropped_at packet s new) step self.new) }
    {
        match read_err(
            alloc,
            found.in_bytes(self.unread.as_slice()),
            is_greeting(self.context.spot),
        ) {
            Ok(packet) => {
                drop(packet);
                self.hear(alloc, login, Kind::Failed, found)?;
                Ok(Step::Stays)
            }
            Err(ReadError::Malformed) => Ok(self.unfit()),
            Err(ReadError::NoMemory) => Err(NoMemory),
        }
    }

    /// The server's error is dropped where what is left is read for nobody, and ends the call elsewhere.
    pub(super) fn fail(
        &mut self,
        alloc: Global,
        login: &Login,
        part: Part,
        found: &FoundPayload,
    ) -> Result<Step, NoMemory>
        requires next { let s = self.old in
            found.now.span.next ≡ number_after_payload (payload_in s.unread found.now) s.number }
        requires placed { IsPlaced self.old.unread found.now }
        ensures { let s = self.old in
            let payload = payload_in s.unread found.now in
            let packet = err_at (is_greeting s.context.spot) payload in
            let new = heard login.now Kind.Failed payload (drop found.now.span.len s.unread) s in
            IfOk result (λ step. IsTurn (failed_at part packet s new) step self.new) }
    {
        match part {
            Part::Drain => self.drop_error(alloc, login, found),
            _ => self.refuse(alloc, login, found),
        }
    }
}
