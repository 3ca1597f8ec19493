//! What names a statement: the statement itself, or a text that is prepared.
ghost use Rattle.std.specs.Prelude.{◌≡◌, IfOk};
ghost use Rattle.my_rows.specs.declared.statement_like.ToStatementResult.TheVariants as likes;

use crate::as_query::AsQuery;
use my_frame::{Blob, NoMemory, Text};
use my_statements::Statement;
use std::alloc::Global;
use std::borrow::{CowSlice, CowStr};
use std::boxed::{BoxedSlice, BoxedStr};
use std::sync::{ArcSlice, ArcStr};

/// What names a statement.
#[derive(Drop)]
pub enum ToStatementResult {
    /// This statement.
    Immediate(Statement),
    /// The statement that is prepared of this text.
    Mediate(Blob),
}

/// What names a statement: the statement itself, or a text that is prepared.
pub trait StatementLike {
    ghost use Rattle.my_rows.specs.declared.statement_like.ToStatementResult.{ToStatementResult};

    /// What it names.
    ghost like_of: { Self → ToStatementResult };

    /// A copy of what it names.
    fn to_statement(&self, alloc: Global) -> Result<ToStatementResult, NoMemory>
        ensures { IfOk result (λ r. r ≡ like_of self.now) };
}

// A text that is prepared.
fn mediate<Q: AsQuery>(alloc: Global, text: &Q) -> Result<ToStatementResult, NoMemory>
    ensures { IfOk result (λ r. r ≡ likes.Mediate (Q.text_of text.now)) }
{
    Ok(ToStatementResult::Mediate(Blob::from_slice(alloc, text.as_query())?))
}

impl StatementLike for Statement {
    ghost like_of = { λ s. likes.Immediate s };

    fn to_statement(&self, alloc: Global) -> Result<ToStatementResult, NoMemory> {
        Ok(ToStatementResult::Immediate(self.copy(alloc)?))
    }
}

impl<'a, S: StatementLike> StatementLike for &'a S {
    ghost like_of = { λ s. S.like_of s.now };

    fn to_statement(&self, alloc: Global) -> Result<ToStatementResult, NoMemory> {
        S::to_statement(*self, alloc)
    }
}

impl<'a> StatementLike for &'a str {
    ghost like_of = { λ q. likes.Mediate q.now };

    fn to_statement(&self, alloc: Global) -> Result<ToStatementResult, NoMemory> {
        mediate(alloc, self)
    }
}

impl<'a> StatementLike for &'a [u8] {
    ghost like_of = { λ q. likes.Mediate q.now };

    fn to_statement(&self, alloc: Global) -> Result<ToStatementResult, NoMemory> {
        mediate(alloc, self)
    }
}

impl StatementLike for String {
    ghost use Rattle.std.specs.Prelude.{string_bytes};

    ghost like_of = { λ q. likes.Mediate (string_bytes q) };

    fn to_statement(&self, alloc: Global) -> Result<ToStatementResult, NoMemory> {
        mediate(alloc, self)
    }
}

impl StatementLike for Vec<u8> {
    ghost like_of = { λ q. likes.Mediate q.items };

    fn to_statement(&self, alloc: Global) -> Result<ToStatementResult, NoMemory> {
        mediate(alloc, self)
    }
}

impl StatementLike for Text {
    ghost like_of = { λ q. likes.Mediate q };

    fn to_statement(&self, alloc: Global) -> Result<ToStatementResult, NoMemory> {
        mediate(alloc, self)
    }
}

impl StatementLike for Blob {
    ghost like_of = { λ q. likes.Mediate q };

    fn to_statement(&self, alloc: Global) -> Result<ToStatementResult, NoMemory> {
        mediate(alloc, self)
    }
}

impl<'a> StatementLike for CowStr<'a> {
    ghost use Rattle.std.specs.Cow.{cow_str_bytes};

    ghost like_of = { λ q. likes.Mediate (cow_str_bytes q) };

    fn to_statement(&self, alloc: Global) -> Result<ToStatementResult, NoMemory> {
        mediate(alloc, self)
    }
}

impl<'a> StatementLike for CowSlice<'a, u8> {
    ghost use Rattle.std.specs.Cow.{cow_slice_items};

    ghost like_of = { λ q. likes.Mediate (cow_slice_items q) };

    fn to_statement(&self, alloc: Global) -> Result<ToStatementResult, NoMemory> {
        mediate(alloc, self)
    }
}

impl StatementLike for BoxedStr {
    ghost use Rattle.std.specs.Box.{boxed_str_bytes};

    ghost like_of = { λ q. likes.Mediate (boxed_str_bytes q) };

    fn to_statement(&self, alloc: Global) -> Result<ToStatementResult, NoMemory> {
        mediate(alloc, self)
    }
}

impl StatementLike for BoxedSlice<u8> {
    ghost use Rattle.std.specs.Box.{boxed_slice_items};

    ghost like_of = { λ q. likes.Mediate (boxed_slice_items q) };

    fn to_statement(&self, alloc: Global) -> Result<ToStatementResult, NoMemory> {
        mediate(alloc, self)
    }
}

impl StatementLike for ArcStr {
    ghost use Rattle.std.specs.Arc.{arc_str_bytes};

    ghost like_of = { λ q. likes.Mediate (arc_str_bytes q) };

    fn to_statement(&self, alloc: Global) -> Result<ToStatementResult, NoMemory> {
        mediate(alloc, self)
    }
}

impl StatementLike for ArcSlice<u8> {
    ghost use Rattle.std.specs.Arc.{arc_slice_items};

    ghost like_of = { λ q. likes.Mediate (arc_slice_items q) };

    fn to_statement(&self, alloc: Global) -> Result<ToStatementResult, NoMemory> {
        mediate(alloc, self)
    }
}
