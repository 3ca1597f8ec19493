//! The commands that calls send.

ghost use Rattle.std.specs.Prelude.{◌≡◌, ◌∷◌, ◌++◌, ◌≤◌, [], IfOk, length, slice_get};
ghost use Rattle.my_grammar.specs.Talk.{commands_bytes};
ghost use Rattle.my_reading.specs.Course.{first_above};
ghost use Rattle.my_reading.specs.Executions.{Fitting, values_for};
ghost use Rattle.my_reading.specs.Statements.{query_of};
ghost use Rattle.my_command.specs.Client.Packet.{PartsFit, client_bytes};
ghost use Rattle.my_machine.specs.Parts.{executed_in, params_at, setup_at};
ghost use Rattle.std.specs.Option.{option_copied};
ghost use Rattle.my_reading.specs.Calls.{is_connect};
ghost use Rattle.my_reading.specs.Commands.{simple_packet};
ghost use Rattle.my_machine.specs.Stands.{IsTurn, arranged_after, arranges, asks, asks_simply, asks_with, closes, commands};
ghost use Rattle.my_machine.specs.Stands.{executes, executes_one};
ghost use Rattle.my_machine.specs.Stands.{queries, queries_at, sends};

use super::Stand;
use super::preparing::{executed_in, params_at};
use super::reading::codec_failure;
use crate::step::Step;
use my_command::{ClientPacket, write_client};
use my_frame::{Blob, CodecFault, NoMemory};
use my_grammar::{Context, Login, Queue, RowFormat, Spot, Terms};
use my_params::{Params, ParsedNamedParams};
use my_reading::{Call, CallKind, Error, MOST_VALUES, execution, values_for};
use my_statements::Statement;
use my_value::Value;
use std::alloc::Global;

fn is_connect(kind: CallKind) -> bool
    ensures { result ≡ is_connect kind }
{
    match kind {
        CallKind::Connect => true,
        _ => false,
    }
}

// The query that sets a session up after as many others: they are sent from the last to the first.
fn setup_text(login: &Login, place: usize) -> Option<&[u8]>
    ensures { option_copied result ≡ setup_at login.now place }
{
    let texts = login.setup.as_slice();
    if place >= texts.len() {
        return None;
    }
    Some(texts[texts.len() - 1 - place].as_slice())
}

/// The packet's payload.
pub(super) fn payload_of(alloc: Global, packet: ClientPacket) -> Result<Vec<u8>, NoMemory>
    requires { PartsFit packet }
    ensures { IfOk result (λ payload. payload.items ≡ client_bytes packet) }
{
    let payload = write_client(alloc, &packet);
    drop(packet);
    payload
}

// The payload of a query with this text.
fn query_payload(alloc: Global, text: &[u8]) -> Result<Vec<u8>, NoMemory>
    ensures { IfOk result (λ payload. payload.items ≡ client_bytes (ClientPacket.Query text.now)) }
{
    payload_of(alloc, ClientPacket::Query(Blob::from_slice(alloc, text)?))
}

// The payload that prepares a statement of this text.
fn prepare_payload(alloc: Global, text: &Blob) -> Result<Vec<u8>, NoMemory>
    ensures { IfOk result (λ payload. payload.items ≡ client_bytes (ClientPacket.Prepare (query_of text.now))) }
{
    let parsed = ParsedNamedParams::replaced(alloc, text.as_slice())?;
    let query = Blob::from_slice(alloc, parsed.query());
    drop(parsed);
    payload_of(alloc, ClientPacket::Prepare(query?))
}

// The length of the first payload above the limit.
fn first_above(limit: u64, ahead: &[Blob], command: &[u8]) -> Option<u64>
    ensures { result ≡ first_above limit (ahead.now ++ command.now ∷ []) }
{
    let mut left = ahead;
    'payloads: while let Some((payload, after)) = left.split_first() {
        let length = payload.len() as u64;
        if length > limit {
            return Some(length);
        }
        left = after;
    }
    let length = command.len() as u64;
    if length > limit {
        return Some(length);
    }
    None
}

// The bytes of payloads that go ahead of a command, of each from the sequence id 0.
fn sent_ahead(alloc: Global, ahead: &[Blob]) -> Result<Queue, NoMemory>
    ensures { IfOk result (λ sent. sent ≡ commands_bytes ahead.now) }
{
    let mut sent = Queue::new(alloc);
    for payload in ahead {
        sent.push_payload(payload.as_slice(), 0)?;
    }
    Ok(sent)
}

impl Stand {
    /// The exchange of this command begins, unless the command is above the limit.
    pub(super) fn ask(
        &mut self,
        spot: Spot,
        command: &[u8],
        arranged: usize,
    ) -> Result<Step, NoMemory>
        ensures { IfOk result (λ step. IsTurn (asks spot command.now arranged self.old) step self.new) }
    {
        self.ask_with(spot, None, command, arranged)
    }

    /// The same of an exchange in whose chain the client answers by this password.
    pub(super) fn ask_with(
        &mut self,
        spot: Spot,
        secret: Option<Blob>,
        command: &[u8],
        arranged: usize,
    ) -> Result<Step, NoMemory>
        ensures { IfOk result (λ step. IsTurn (asks_with spot secret command.now arranged self.old) step self.new) }
    {
        let limit = self.facts.settings.limit;
        let length = command.len() as u64;
        if length > limit {
            return Ok(codec_failure(CodecFault::TooLarge { length, limit }));
        }
        self.number = self.owed.push_payload(command, 0)?;
        self.context = Context {
            spot,
            rows: RowFormat::Text,
            columns: 0,
            terms: Terms {
                kept: self.context.terms.kept,
                limit,
            },
        };
        self.arranged = arranged;
        self.end_left = false;
        self.taken = false;
        self.secret = secret;
        Ok(Step::Passes)
    }

    // The exchange of an execution begins, unless a payload is above the limit.
    fn send(&mut self, alloc: Global, ahead: &[Blob], command: &[u8]) -> Result<Step, NoMemory>
        ensures { IfOk result (λ step. IsTurn (sends ahead.now command.now self.old) step self.new) }
    {
        let limit = self.facts.settings.limit;
        if let Some(length) = first_above(limit, ahead, command) {
            return Ok(codec_failure(CodecFault::TooLarge { length, limit }));
        }
        let sent = sent_ahead(alloc, ahead)?;
        self.owed.push(sent.as_slice())?;
        self.number = self.owed.push_payload(command, 0)?;
        self.context = Context {
            spot: Spot::Head,
            rows: RowFormat::Binary,
            columns: 0,
            terms: Terms {
                kept: self.context.terms.kept,
                limit,
            },
        };
        self.end_left = false;
        self.taken = false;
        self.secret = None;
        Ok(Step::Passes)
    }

    // A statement is executed with these values.
    fn execute_with(&mut self, alloc: Global, id: u32, values: &[Value]) -> Result<Step, NoMemory>
        requires { length values.now ≤ MOST_VALUES }
        ensures { IfOk result (λ step. IsTurn (executes id (Fitting values.now) self.old) step self.new) }
    {
        let (ahead, command) = execution(alloc, id, values)?;
        let step = self.send(alloc, ahead.as_slice(), command.as_slice());
        drop(ahead);
        drop(command);
        step
    }

    // A statement is executed, where the parameters fit.
    fn execute(
        &mut self,
        alloc: Global,
        statement: &Statement,
        params: &Params,
    ) -> Result<Step, NoMemory>
        ensures { let values = values_for statement.now params.now in
            IfOk result (λ step. IsTurn (executes statement.now.inner.id values self.old) step self.new) }
    {
        match values_for(alloc, statement, params) {
            Ok(values) => {
                let step = self.execute_with(alloc, statement.id(), values.as_slice());
                drop(values);
                step
            }
            Err(Error::Driver(refusal)) => {
                drop(refusal);
                Ok(Step::Passes)
            }
            Err(error) => {
                drop(error);
                Err(NoMemory)
            }
        }
    }

    /// The call's statement is executed with the parameters at this place.
    pub(super) fn run(&mut self, alloc: Global, call: &Call, place: usize) -> Result<Step, NoMemory>
        ensures { let statement = executed_in call.now in
            let params = params_at call.now place in
            IfOk result (λ step. IsTurn (executes_one statement params self.old) step self.new) }
    {
        match (executed_in(call), params_at(call, place)) {
            (Some(statement), Some(params)) => self.execute(alloc, statement, params),
            _ => Ok(Step::Passes),
        }
    }

    // The exchange of this packet begins, unless it is above the limit.
    fn ask_packet(
        &mut self,
        alloc: Global,
        spot: Spot,
        packet: ClientPacket,
    ) -> Result<Step, NoMemory>
        requires { PartsFit packet }
        ensures { let s = self.old in
            IfOk result (λ step. IsTurn (asks spot (client_bytes packet) s.arranged s) step self.new) }
    {
        let command = payload_of(alloc, packet)?;
        self.ask(spot, &command, self.arranged)
    }

    /// How many of the queries that set the connection up were begun after an exchange of the call.
    pub(super) fn arranged_after(&self, call: &Call) -> usize
        ensures { result ≡ arranged_after call.now self.now }
    {
        if is_connect(call.kind()) && self.arranged < self.texts.len() {
            return self.arranged + 1;
        }
        self.arranged
    }

    /// A query is sent.
    pub(super) fn query(
        &mut self,
        alloc: Global,
        call: &Call,
        text: &[u8],
    ) -> Result<Step, NoMemory>
        ensures { IfOk result (λ step. IsTurn (queries call.now text.now self.old) step self.new) }
    {
        let command = query_payload(alloc, text)?;
        self.ask(Spot::Head, &command, self.arranged_after(call))
    }

    /// The query is sent that sets a session up after as many others.
    pub(super) fn set_up(
        &mut self,
        alloc: Global,
        login: &Login,
        call: &Call,
        place: usize,
    ) -> Result<Step, NoMemory>
        ensures { let text = setup_at login.now place in
            IfOk result (λ step. IsTurn (queries_at call.now text self.old) step self.new) }
    {
        match setup_text(login, place) {
            Some(text) => self.query(alloc, call, text),
            None => Ok(Step::Passes),
        }
    }

    /// The statement of this id is closed.
    pub(super) fn close(&mut self, alloc: Global, id: u32) -> Result<Step, NoMemory>
        ensures { IfOk result (λ step. IsTurn (closes id self.old) step self.new) }
    {
        self.ask_packet(alloc, Spot::Idle, ClientPacket::CloseStatement(id))
    }

    // The next query that sets the connection up.
    fn arrange(&mut self, alloc: Global) -> Result<Step, NoMemory>
        ensures { let s = self.old in
            IfOk result (λ step. IsTurn (arranges (slice_get s.texts s.arranged) s) step self.new) }
    {
        let Some(text) = self.texts.as_slice().get(self.arranged) else {
            return Ok(Step::Passes);
        };
        let command = query_payload(alloc, text.as_slice())?;
        self.ask(Spot::Head, &command, self.arranged + 1)
    }

    // The command of a call that one OK or ERR answers, where it sends such a one.
    fn ask_simply(&mut self, alloc: Global, call: &Call) -> Result<Step, NoMemory>
        ensures { IfOk result (λ step. IsTurn (asks_simply (simple_packet call.now) self.old) step self.new) }
    {
        match call.simple_packet() {
            Some(packet) => self.ask_packet(alloc, Spot::Single, packet),
            None => Ok(Step::Passes),
        }
    }

    /// The call's next command, where it sends one.
    pub(super) fn command(&mut self, alloc: Global, call: &Call) -> Result<Step, NoMemory>
        ensures { IfOk result (λ step. IsTurn (commands call.now self.old) step self.new) }
    {
        match call {
            Call::Connect => self.arrange(alloc),
            Call::Query(text) => self.query(alloc, call, text.as_slice()),
            Call::Prepare(text) => self.ask(
                Spot::Prepare,
                &prepare_payload(alloc, text)?,
                self.arranged,
            ),
            Call::Execute(statement, params) => self.execute(alloc, statement, params),
            Call::CloseStmt(id) => self.close(alloc, *id),
            Call::Quit => self.ask_packet(alloc, Spot::Idle, ClientPacket::Quit),
            _ => self.ask_simply(alloc, call),
        }
    }
}
