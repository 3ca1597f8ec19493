//! The prepared statements of a run, by their numbers.
ghost use Rattle.std.specs.Prelude.{◌≡◌};
ghost use Rattle.std.specs.Option.{option_copied};
ghost use Rattle.my_script.specs.Numbered.{named_statement, statement_named};

use my_script::{NumberedStatements, Step, named_statement};
use my_statements::Statement;

/// The statement that a step names, where it is there.
pub(crate) fn statement_for<'a>(
    statements: &'a NumberedStatements,
    step: &Step,
) -> Option<&'a Statement>
    ensures { option_copied result ≡ statement_named (named_statement step.now) statements.now }
{
    match named_statement(step) {
        None => None,
        Some(number) => statements.get(number),
    }
}
