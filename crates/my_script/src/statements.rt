//! Prepared statements by their numbers, as they follow from the lines of a run.
ghost use Rattle.std.specs.Prelude.{◌≡◌, [], ◌∷◌, ◌++◌, IfOk, OnErr, OnOk, Some};
ghost use Rattle.std.specs.Option.{option_copied};
ghost use Rattle.my_script.specs.Numbered.{named_statement, spent, spent_by, statement_at, statements_by};

use crate::{Outcome, Step};
use my_frame::NoMemory;
use my_statements::Statement;
use std::alloc::Global;
use std::marker::Model;
use std::mem;

/// The number of the statement that a step names.
pub fn named_statement(step: &Step) -> Option<u64>
    ensures { result ≡ named_statement step.now }
{
    match step {
        Step::Execute(_, statement, _) | Step::CloseStatement(_, statement) => Some(*statement),
        _ => None,
    }
}

/// The statements that were prepared so far: each answer with one takes the next number, and a step that closes it spends
/// it.
///
/// Contracts see the list of the statements by their numbers, with nothing at a number that is spent.
#[derive(Drop)]
pub struct NumberedStatements {
    given: Vec<Option<Statement>>,
}

impl Model for NumberedStatements {
    ghost use Rattle.std.specs.Prelude.{List, Option};
    ghost use Rattle.my_statements.specs.Prepared.{StatementView};

    ghost Value = { List (Option StatementView) };

    ghost view = { λ s. s.given.items };
}

impl NumberedStatements {
    /// None was prepared.
    pub fn new(alloc: Global) -> NumberedStatements
        ensures { result ≡ [] }
    {
        NumberedStatements {
            given: Vec::new(alloc),
        }
    }

    /// The statement of this number, where it was given and isn't spent.
    pub fn get(&self, number: u64) -> Option<&Statement>
        ensures { option_copied result ≡ statement_at self.now number }
    {
        match self.given.get(number as usize) {
            None => None,
            Some(place) => place.as_ref(),
        }
    }

    fn give(&mut self, statement: Statement) -> Result<(), NoMemory>
        ensures ok { OnOk result (self.new ≡ self.old ++ Some statement ∷ []) }
        ensures err { OnErr result (self.new ≡ self.old) }
    {
        match self.given.push(Some(statement)) {
            Ok(()) => Ok(()),
            Err(_) => Err(NoMemory),
        }
    }

    fn spend(&mut self, number: u64)
        ensures { self.new ≡ spent number self.old }
    {
        if let Some(place) = self.given.get_mut(number as usize) {
            drop(mem::replace(place, None));
        }
    }

    fn spend_by(&mut self, step: &Step)
        ensures { self.new ≡ spent_by step.now self.old }
    {
        if let Step::CloseStatement(_, number) = step {
            self.spend(*number);
        }
    }

    /// What a line makes of the statements. Out of memory, nothing changes.
    pub fn note(&mut self, alloc: Global, step: &Step, outcome: &Outcome) -> Result<(), NoMemory>
        ensures ok { OnOk result (self.new ≡ statements_by self.old step.now outcome.now) }
        ensures err { OnErr result (self.new ≡ self.old) }
    {
        match outcome {
            Outcome::Prepared(statement) => {
                let copy = statement.copy(alloc)?;
                self.give(copy)
            }
            Outcome::NoSuchHandle => Ok(()),
            _ => {
                self.spend_by(step);
                Ok(())
            }
        }
    }
}
