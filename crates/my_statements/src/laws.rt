//! Laws of statements: each is a function that does nothing, and its contract is the law.

ghost use Rattle.std.specs.Prelude.{◌≡◌};
ghost use Rattle.std.specs.Bool.{Decides};
ghost use Rattle.my_statements.specs.Prepared.{StatementView};

use crate::statement::Statement;

/// `==` says of two statements whether contracts see them as the same.
pub fn equal_statements_are_same()
    ensures { (a b : StatementView) → Decides (⟦<Statement as PartialEq>⟧.eq a b) (a ≡ b) }
{}
