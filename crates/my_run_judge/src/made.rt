//! What the lines so far made of a stream and a transaction at a connection, and of the prepared statements.

ghost use Rattle.std.specs.Prelude.{◌≡◌, IfOk, OnOk};
ghost use Rattle.std.specs.Option.{option_copied};
ghost use Rattle.my_run_judge.specs.Made.{made_by, nothing_made, statement_for};

use my_frame::NoMemory;
use my_script::{Beside, NumberedStatements, Outcome, Step, named_statement};
use my_statements::Statement;
use std::alloc::Global;

/// What the lines so far made.
#[derive(Drop)]
pub struct Made {
    /// Of a stream and a transaction at the connection.
    pub beside: Beside,
    /// Of the prepared statements, of all connections.
    pub statements: NumberedStatements,
}

impl Made {
    /// Before the first line.
    pub fn new(alloc: Global) -> Made
        ensures { result ≡ nothing_made }
    {
        Made {
            beside: Beside::new(),
            statements: NumberedStatements::new(alloc),
        }
    }

    /// The statement that a step names, where it was prepared and isn't closed.
    pub fn statement_for(&self, step: &Step) -> Option<&Statement>
        ensures { option_copied result ≡ statement_for self.now step.now }
    {
        match named_statement(step) {
            Some(number) => self.statements.get(number),
            None => None,
        }
    }

    /// A line goes by, at the connection with this number.
    pub fn note(
        &mut self,
        alloc: Global,
        number: u64,
        step: &Step,
        outcome: &Outcome,
    ) -> Result<(), NoMemory>
        ensures { OnOk result (self.new ≡ made_by number self.old step.now outcome.now) }
    {
        self.beside = self.beside.by(number, step, outcome);
        self.statements.note(alloc, step, outcome)
    }
}
