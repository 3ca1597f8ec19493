//! The payload in front is read.

ghost use Rattle.std.specs.Prelude.{ℕ, ◌≡◌, [], ◌++◌, IfOk, OnOk, drop, false, length};
ghost use Rattle.my_frame.specs.Chunks.{number_after_payload};
ghost use Rattle.my_grammar.specs.Growth.{bytes_said, number_next, number_said, said};
ghost use Rattle.my_grammar.specs.Kinds.{kind_there};
ghost use Rattle.my_reply.specs.Replies.{prepare_ok_at};
ghost use Rattle.my_reading.specs.Course.{is_greeting, is_rows};
ghost use Rattle.my_reading.specs.Rows.{row_of};
ghost use Rattle.my_machine.specs.Stands.{IsTurn, failure, heard, reads, read_payload, unfit};
ghost use Rattle.my_value.specs.RowParts.{RowParts};
ghost use Rattle.my_machine.specs.Found.{IsPlaced, payload_in};
ghost use Rattle.my_machine.specs.Stands.{after_kind, after_prepared, after_said, is_cached_by, is_item_row, misfit, said_above};

use super::Stand;
use super::payload::{FoundPayload, find_payload};
use crate::part::Part;
use crate::step::{Ending, Step, Stop};
use my_frame::{Blob, CodecError, CodecFault, NoMemory, ReadError};
use my_grammar::{Kind, Login, Queue, Spot, kind_at, says};
use my_reading::{Answer, Error, IoError, invalid_data, read_row, unfit_error};
use my_reply::read_prepare_ok;
use my_value::Row;
use std::alloc::Global;
use std::sync::Arc;

/// The call fails so.
pub(super) fn failure(error: Error) -> Step
    ensures { result ≡ failure error }
{
    Step::Stops(Stop::Returns(Ending::Failed(error)))
}

/// The call fails by a fault of packets.
pub(super) fn codec_failure(fault: CodecFault) -> Step
    ensures { result ≡ failure (Error.Io (IoError.Codec fault)) }
{
    failure(Error::Io(IoError::Codec(fault)))
}

/// The call returns this answer.
pub(super) fn answered(answer: Answer) -> Step
    ensures { result ≡ Step.Stops (Stop.Returns (Ending.Answered answer)) }
{
    Step::Stops(Stop::Returns(Ending::Answered(answer)))
}

/// Whether the greeting is awaited.
pub(super) fn is_greeting(spot: Spot) -> bool
    ensures { result ≡ is_greeting spot }
{
    match spot {
        Spot::Greeting(_) => true,
        _ => false,
    }
}

/// Whether rows are read.
pub(super) fn is_rows(spot: Spot) -> bool
    ensures { result ≡ is_rows spot }
{
    match spot {
        Spot::Rows => true,
        _ => false,
    }
}

// What is said at once after a payload is owed, and the next sequence id is returned.
fn owe(owed: &mut Queue, said: Option<Blob>, next: u8) -> Result<u8, NoMemory>
    ensures owed { OnOk result (owed.new ≡ owed.old ++ bytes_said said next) }
    ensures number { IfOk result (λ m. m ≡ number_said said next) }
{
    match said {
        Some(said) => {
            let number = owed.push_payload(said.as_slice(), next);
            drop(said);
            number
        }
        None => Ok(next),
    }
}

// What the client says at once after a payload is owed, and the next sequence id is returned.
fn say(
    alloc: Global,
    login: &Login,
    secret: &Option<Blob>,
    kind: Kind,
    payload: &[u8],
    next: u8,
    owed: &mut Queue,
) -> Result<u8, NoMemory>
    ensures owed { (n : ℕ) → next ≡ number_after_payload payload.now n
        → OnOk result (owed.new ≡ owed.old ++ said login.now secret.now kind payload.now n) }
    ensures number { (n : ℕ) → next ≡ number_after_payload payload.now n
        → IfOk result (λ m. m ≡ number_next login.now secret.now kind payload.now n) }
{
    match kind {
        Kind::Greets(_) | Kind::Asks(_) => {
            owe(owed, says(alloc, login, secret, kind, payload)?, next)
        }
        _ => Ok(next),
    }
}

impl Stand {
    /// A payload that fits no case.
    pub(super) fn unfit(&self) -> Step
        ensures { result ≡ unfit self.now }
    {
        failure(invalid_data(self.facts.place))
    }

    // The same where the client perhaps shows who it is.
    fn misfit(&self, alloc: Global, payload: &[u8]) -> Result<Step, NoMemory>
        ensures { IfOk result (λ step. step ≡ misfit self.now payload.now) }
    {
        let error = unfit_error(alloc, self.context.spot, payload, self.facts.place)?;
        Ok(failure(error))
    }

    /// The payload that was found is read.
    pub(super) fn hear(
        &mut self,
        alloc: Global,
        login: &Login,
        kind: Kind,
        found: &FoundPayload,
    ) -> Result<(), NoMemory>
        requires next { let s = self.old in
            found.now.span.next ≡ number_after_payload (payload_in s.unread found.now) s.number }
        requires placed { IsPlaced self.old.unread found.now }
        ensures { let s = self.old in
            let rest = drop found.now.span.len s.unread in
            OnOk result (self.new ≡ heard login.now kind (payload_in s.unread found.now) rest s) }
    {
        let payload = found.in_bytes(self.unread.as_slice());
        let next = found.span.next;
        let number = say(
            alloc,
            login,
            &self.secret,
            kind,
            payload,
            next,
            &mut self.owed,
        )?;
        self.facts.learn(alloc, kind, payload)?;
        self.number = number;
        self.context = self.context.after(kind);
        self.end_left = false;
        self.taken = self.taken && is_rows(self.context.spot);
        self.unread.skip(found.span.len);
        Ok(())
    }

    // A row without cells.
    fn empty_row(&self, alloc: Global) -> Result<Row, NoMemory>
        ensures { IfOk result (λ row. row ≡ record { cells = []; columns = self.now.facts.columns }) }
    {
        let columns = Arc::try_clone(self.facts.columns.shared())?;
        Ok(Row::new(Vec::new(alloc), columns))
    }

    // The payload as a row.
    fn row(&self, alloc: Global, payload: &[u8]) -> Result<Row, NoMemory>
        ensures { IfOk result (λ row. row ≡ row_of self.now.context.rows self.now.facts.columns payload.now) }
    {
        match read_row(alloc, self.context.rows, &self.facts.columns, payload) {
            Ok(row) => Ok(row),
            Err(ReadError::Malformed) => self.empty_row(alloc),
            Err(ReadError::NoMemory) => Err(NoMemory),
        }
    }

    // What the part does after a payload of this kind, unless it is a row that is returned.
    fn after_kind(&mut self, part: Part, kind: Kind) -> Step
        ensures { (row : RowParts) → is_item_row part kind ≡ false
            → IsTurn (after_kind part kind row self.old) result self.new }
    {
        match (part, kind) {
            (Part::Head, Kind::Good(_)) => {
                self.end_left = true;
                Step::Passes
            }
            (Part::Item, Kind::Good(_) | Kind::End(_)) => answered(Answer::SetEnd),
            (Part::Set, Kind::Good(_)) => {
                self.end_left = true;
                self.taken = true;
                answered(Answer::Ready)
            }
            _ => Step::Stays,
        }
    }

    // The length of what the client says to the payload, where it is above the limit.
    fn said_above(
        &self,
        alloc: Global,
        login: &Login,
        kind: Kind,
        payload: &[u8],
    ) -> Result<Option<u64>, NoMemory>
        ensures { IfOk result (λ length. length ≡ said_above login.now kind payload.now self.now) }
    {
        let Some(said) = says(alloc, login, &self.secret, kind, payload)? else {
            return Ok(None);
        };
        let length = said.len() as u64;
        drop(said);
        if length > self.context.terms.limit {
            return Ok(Some(length));
        }
        Ok(None)
    }

    // A greeting or a request in a chain is read, unless what the client says to it is above the limit.
    fn answer(
        &mut self,
        alloc: Global,
        login: &Login,
        kind: Kind,
        found: &FoundPayload,
    ) -> Result<Step, NoMemory>
        requires next { let s = self.old in
            found.now.span.next ≡ number_after_payload (payload_in s.unread found.now) s.number }
        requires placed { IsPlaced self.old.unread found.now }
        ensures { let s = self.old in
            let payload = payload_in s.unread found.now in
            let new = heard login.now kind payload (drop found.now.span.len s.unread) s in
            IfOk result (λ step. IsTurn (after_said (said_above login.now kind payload s) s new) step self.new) }
    {
        let payload = found.in_bytes(self.unread.as_slice());
        if let Some(length) = self.said_above(alloc, login, kind, payload)? {
            let limit = self.context.terms.limit;
            return Ok(codec_failure(CodecFault::TooLarge { length, limit }));
        }
        self.hear(alloc, login, kind, found)?;
        Ok(Step::Stays)
    }

    // The id of a statement that was prepared, where it is still cached.
    fn is_cached_in(&self, payload: &[u8]) -> bool
        ensures { result ≡ is_cached_by (prepare_ok_at payload.now) self.now.statements }
    {
        match read_prepare_ok(payload) {
            Ok(ok) => self.statements.is_cached(ok.id),
            Err(_) => false,
        }
    }

    // The reply to a statement to prepare begins, unless its id is that of a statement that is still cached.
    fn prepare(
        &mut self,
        alloc: Global,
        login: &Login,
        kind: Kind,
        found: &FoundPayload,
    ) -> Result<Step, NoMemory>
        requires next { let s = self.old in
            found.now.span.next ≡ number_after_payload (payload_in s.unread found.now) s.number }
        requires placed { IsPlaced self.old.unread found.now }
        ensures { let s = self.old in
            let payload = payload_in s.unread found.now in
            let new = heard login.now kind payload (drop found.now.span.len s.unread) s in
            IfOk result (λ step. IsTurn (after_prepared (prepare_ok_at payload) s new) step self.new) }
    {
        if self.is_cached_in(found.in_bytes(self.unread.as_slice())) {
            return Ok(self.unfit());
        }
        self.hear(alloc, login, kind, found)?;
        Ok(Step::Stays)
    }

    // A row is read, and returned.
    fn give_row(
        &mut self,
        alloc: Global,
        login: &Login,
        found: &FoundPayload,
    ) -> Result<Step, NoMemory>
        requires next { let s = self.old in
            found.now.span.next ≡ number_after_payload (payload_in s.unread found.now) s.number }
        requires placed { IsPlaced self.old.unread found.now }
        ensures { let s = self.old in
            let payload = payload_in s.unread found.now in
            let row = row_of s.context.rows s.facts.columns payload in
            let new = heard login.now Kind.Row payload (drop found.now.span.len s.unread) s in
            IfOk result (λ step. IsTurn (after_kind Part.Item Kind.Row row new) step self.new) }
    {
        let row = self.row(alloc, found.in_bytes(self.unread.as_slice()))?;
        match self.hear(alloc, login, Kind::Row, found) {
            Ok(()) => Ok(answered(Answer::Row(row))),
            Err(NoMemory) => {
                drop(row);
                Err(NoMemory)
            }
        }
    }

    // A payload of another kind is read.
    fn go_on(
        &mut self,
        alloc: Global,
        login: &Login,
        part: Part,
        kind: Kind,
        found: &FoundPayload,
    ) -> Result<Step, NoMemory>
        requires next { let s = self.old in
            found.now.span.next ≡ number_after_payload (payload_in s.unread found.now) s.number }
        requires placed { IsPlaced self.old.unread found.now }
        ensures { let s = self.old in
            let payload = payload_in s.unread found.now in
            let row = row_of s.context.rows s.facts.columns payload in
            let new = heard login.now kind payload (drop found.now.span.len s.unread) s in
            IfOk result (λ step. IsTurn (after_kind part kind row new) step self.new) }
    {
        match (part, kind) {
            (Part::Item, Kind::Row) => self.give_row(alloc, login, found),
            _ => {
                self.hear(alloc, login, kind, found)?;
                Ok(self.after_kind(part, kind))
            }
        }
    }

    // What the payload is.
    fn kind_here(&self, payload: &[u8]) -> Kind
        ensures { result ≡ kind_there self.now.context self.now.facts.columns payload.now }
    {
        kind_at(self.context, self.facts.columns.as_slice(), payload)
    }

    // The payload that was found is read.
    fn read_payload(
        &mut self,
        alloc: Global,
        login: &Login,
        part: Part,
        found: &FoundPayload,
    ) -> Result<Step, NoMemory>
        requires next { let s = self.old in
            found.now.span.next ≡ number_after_payload (payload_in s.unread found.now) s.number }
        requires placed { IsPlaced self.old.unread found.now }
        ensures { let s = self.old in
            let payload = payload_in s.unread found.now in
            let rest = drop found.now.span.len s.unread in
            IfOk result (λ step. IsTurn (read_payload login.now part payload rest s) step self.new) }
    {
        let kind = self.kind_here(found.in_bytes(self.unread.as_slice()));
        match kind {
            Kind::Bad => self.misfit(alloc, found.in_bytes(self.unread.as_slice())),
            Kind::Failed => self.fail(alloc, login, part, found),
            Kind::Greets(_) | Kind::Asks(_) => self.answer(alloc, login, kind, found),
            Kind::Prepared { .. } => self.prepare(alloc, login, kind, found),
            _ => self.go_on(alloc, login, part, kind, found),
        }
    }

    /// The payload in front is read.
    pub(super) fn read(
        &mut self,
        alloc: Global,
        login: &Login,
        part: Part,
    ) -> Result<Step, NoMemory>
        ensures { IfOk result (λ step. IsTurn (reads login.now part self.old) step self.new) }
    {
        let limit = self.context.terms.limit;
        match find_payload(alloc, self.unread.as_slice(), self.number, limit) {
            Ok(None) => Ok(Step::Stops(Stop::Awaits)),
            Ok(Some(found)) => {
                let step = self.read_payload(alloc, login, part, &found);
                drop(found);
                step
            }
            Err(CodecError::Fault(fault)) => Ok(codec_failure(fault)),
            Err(CodecError::NoMemory) => Err(NoMemory),
        }
    }
}
