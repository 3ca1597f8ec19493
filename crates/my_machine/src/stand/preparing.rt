//! The parts of calls that keep prepared statements.

ghost use Rattle.std.specs.Prelude.{◌≡◌, IfOk, OnOk};
ghost use Rattle.std.specs.Option.{option_copied, option_map};
ghost use Rattle.my_reading.specs.Calls.{id_in, text_in};
ghost use Rattle.my_reading.specs.Facts.{prepared_by};
ghost use Rattle.my_reading.specs.Statements.{held_in, leaving, names_of, query_of, statement_with, with_columns};
ghost use Rattle.my_reading.specs.Statements.{cleared, with_fetched, without_statement};
ghost use Rattle.my_machine.specs.Stands.{IsTurn, checks, checks_for, finds, finds_so, gives, keeps, learns, turn};
ghost use Rattle.my_reading.specs.Executions.{values_for};
ghost use Rattle.my_machine.specs.Parts.{executed_in, params_at};
ghost use Rattle.my_machine.specs.Stands.{with_kept, with_known};

use super::Stand;
use super::reading::{answered, failure, is_rows};
use crate::step::Step;
use my_frame::{Blob, Listed, NoMemory, copy_items};
use my_params::{Params, ParseFault, ParsedNamedParams};
use my_reading::{Answer, Call, DriverError, Error, values_for};
use my_statements::Statement;
use std::alloc::Global;
use std::sync::Arc;

// The text of a query, or of a statement to prepare.
fn text_in(call: &Call) -> &[u8]
    ensures { result.now ≡ text_in call.now }
{
    match call {
        Call::Query(text) | Call::Prepare(text) => text.as_slice(),
        _ => &[],
    }
}

// The id of the statement that is executed or closed.
fn id_in(call: &Call) -> u32
    ensures { result ≡ id_in call.now }
{
    match call {
        Call::Execute(statement, _) | Call::Batch(statement, _) => statement.id(),
        Call::CloseStmt(id) => *id,
        _ => 0,
    }
}

/// The statement that is executed.
pub(super) fn executed_in(call: &Call) -> Option<&Statement>
    ensures { option_copied result ≡ executed_in call.now }
{
    match call {
        Call::Execute(statement, _) | Call::Batch(statement, _) => Some(statement),
        _ => None,
    }
}

/// The parameters at this place of the call, with which it executes its statement.
pub(super) fn params_at(call: &Call, place: usize) -> Option<&Params>
    ensures { option_copied result ≡ params_at call.now place }
{
    match call {
        Call::Execute(_, params) => Some(params),
        Call::Batch(_, lists) => lists.as_slice().get(place),
        _ => None,
    }
}

fn copied(alloc: Global, bytes: &[u8]) -> Result<Vec<u8>, NoMemory>
    ensures { IfOk result (λ copy. copy.items ≡ bytes.now) }
{
    let mut copy = Vec::new(alloc);
    copy.extend_from_slice(bytes)?;
    Ok(copy)
}

// What is prepared of a text with named parameters.
fn query_of(alloc: Global, text: &[u8]) -> Result<Vec<u8>, NoMemory>
    ensures { IfOk result (λ query. query.items ≡ query_of text.now) }
{
    let parsed = ParsedNamedParams::replaced(alloc, text)?;
    let query = copied(alloc, parsed.query());
    drop(parsed);
    query
}

// The names of its parameters.
fn names_of(alloc: Global, text: &[u8]) -> Result<Listed<Blob>, NoMemory>
    ensures { IfOk result (λ names. names ≡ names_of text.now) }
{
    let parsed = ParsedNamedParams::replaced(alloc, text)?;
    let names = copy_items(alloc, parsed.params());
    drop(parsed);
    Ok(Listed::from(names?))
}

impl Stand {
    // The statement of the query is looked for.
    fn find_query(&mut self, alloc: Global, parsed: &ParsedNamedParams) -> Result<Step, NoMemory>
        ensures { let p = parsed.now in
            let s = self.old in
            let statement = option_map (λ h. statement_with h.stmt p.names) (held_in s.statements p.query) in
            let new = with_known (with_fetched p.query s.statements) s in
            IfOk result (λ step. IsTurn (finds_so statement new) step self.new) }
    {
        let names = Listed::from(copy_items(alloc, parsed.params())?);
        match self.statements.find(parsed.query(), names)? {
            Some(statement) => Ok(answered(Answer::Stmt(statement))),
            None => Ok(Step::Passes),
        }
    }

    /// The statement of the text is looked for.
    pub(super) fn find(&mut self, alloc: Global, call: &Call) -> Result<Step, NoMemory>
        ensures { IfOk result (λ step. IsTurn (finds (text_in call.now) self.old) step self.new) }
    {
        let parsed = match ParsedNamedParams::parse(alloc, text_in(call)) {
            Ok(parsed) => parsed,
            Err(ParseFault::MixedParams) => {
                return Ok(failure(Error::Driver(DriverError::MixedParams)));
            }
            Err(ParseFault::NoMemory) => return Err(NoMemory),
        };
        let step = self.find_query(alloc, &parsed);
        drop(parsed);
        step
    }

    // Parameters of a statement are looked at.
    fn check_for(
        &mut self,
        alloc: Global,
        statement: &Statement,
        params: &Params,
    ) -> Result<Step, NoMemory>
        ensures { let values = values_for statement.now params.now in
            IfOk result (λ step. IsTurn (checks values self.old) step self.new) }
    {
        match values_for(alloc, statement, params) {
            Ok(values) => {
                drop(values);
                Ok(Step::Passes)
            }
            Err(Error::Driver(refusal)) => Ok(failure(Error::Driver(refusal))),
            Err(error) => {
                drop(error);
                Err(NoMemory)
            }
        }
    }

    /// The parameters at this place are looked at.
    pub(super) fn check(
        &mut self,
        alloc: Global,
        call: &Call,
        place: usize,
    ) -> Result<Step, NoMemory>
        ensures { let statement = executed_in call.now in
            let params = params_at call.now place in
            IfOk result (λ step. IsTurn (checks_for statement params self.old) step self.new) }
    {
        match (executed_in(call), params_at(call, place)) {
            (Some(statement), Some(params)) => self.check_for(alloc, statement, params),
            _ => Ok(Step::Passes),
        }
    }

    // The statement that was prepared of the text is kept. Returns the id of the one that has to go for it.
    fn put(&mut self, alloc: Global, text: &[u8]) -> Result<Option<u32>, NoMemory>
        ensures leaving { let s = self.old in
            IfOk result (λ o. o ≡ leaving (query_of text.now) (prepared_by s.facts) s.statements) }
        ensures kept { OnOk result (self.new ≡ with_kept (query_of text.now) self.old) }
    {
        let inner = self.facts.prepared(alloc)?;
        let fields = match self.facts.prepared_fields(alloc) {
            Ok(fields) => fields,
            Err(NoMemory) => {
                drop(inner);
                return Err(NoMemory);
            }
        };
        let query = match query_of(alloc, text) {
            Ok(query) => query,
            Err(NoMemory) => {
                drop(inner);
                drop(fields);
                return Err(NoMemory);
            }
        };
        let leaving = self.statements.keep(alloc, query, inner, fields)?;
        Ok(leaving)
    }

    /// The statement that was prepared is kept, and the one that has to go for it is closed.
    pub(super) fn keep(&mut self, alloc: Global, call: &Call) -> Result<Step, NoMemory>
        ensures { IfOk result (λ step. IsTurn (keeps (text_in call.now) self.old) step self.new) }
    {
        match self.put(alloc, text_in(call))? {
            Some(id) => self.close(alloc, id),
            None => Ok(Step::Passes),
        }
    }

    /// The statement that was prepared is returned.
    pub(super) fn give(&mut self, alloc: Global, call: &Call) -> Result<Step, NoMemory>
        ensures { IfOk result (λ step. IsTurn (gives (text_in call.now) self.old) step self.new) }
    {
        let inner = Arc::new(alloc, self.facts.prepared(alloc)?)?;
        match names_of(alloc, text_in(call)) {
            Ok(names) => Ok(answered(Answer::Stmt(Statement::new(inner, names)))),
            Err(NoMemory) => {
                drop(inner);
                Err(NoMemory)
            }
        }
    }

    // The columns of the rows that follow are those of the statement of this id.
    fn know(&mut self, id: u32) -> Result<(), NoMemory>
        ensures { let s = self.old in
            OnOk result (self.new ≡ with_known (with_columns id s.facts.columns s.statements) s) }
    {
        let columns = self.facts.columns.share()?;
        self.statements.learn(id, columns)?;
        Ok(())
    }

    /// The columns of an execution's rows are learned.
    pub(super) fn learn(&mut self, call: &Call) -> Result<Step, NoMemory>
        ensures { IfOk result (λ step. IsTurn (learns (id_in call.now) self.old) step self.new) }
    {
        if !is_rows(self.context.spot) {
            return Ok(Step::Passes);
        }
        self.know(id_in(call))?;
        Ok(Step::Passes)
    }

    /// A statement isn't kept any more.
    pub(super) fn forget(&mut self, call: &Call) -> Result<Step, NoMemory>
        ensures { let st = without_statement (id_in call.now) self.old.statements in
            IfOk result (λ step. IsTurn (turn Step.Passes (with_known st self.old)) step self.new) }
    {
        self.statements.forget(id_in(call));
        Ok(Step::Passes)
    }

    /// No statement is kept any more.
    pub(super) fn clear(&mut self) -> Result<Step, NoMemory>
        ensures { let st = cleared self.old.statements in
            IfOk result (λ step. IsTurn (turn Step.Passes (with_known st self.old)) step self.new) }
    {
        self.statements.forget_all();
        Ok(Step::Passes)
    }
}
