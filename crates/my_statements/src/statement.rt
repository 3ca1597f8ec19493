//! Prepared statements: what a server says of one, and what its caller holds.

ghost use Rattle.std.specs.Prelude.{◌≡◌, IfOk};
ghost use Rattle.my_statements.specs.Cache.{stmt_of};
ghost use Rattle.my_statements.specs.Prepared.{StatementView};

use crate::columns::SetColumns;
use my_frame::{Blob, Listed, NoMemory};
use my_reply::Column;
use std::alloc::Global;
use std::marker::Model;
use std::sync::Arc;

/// A prepared statement, as the server told it.
#[derive(Drop, PartialEq, Eq)]
pub struct StmtInner {
    /// The server's number of the statement.
    pub id: u32,
    /// The number of the connection that it was prepared on.
    pub connection_id: u32,
    pub num_params: u16,
    pub num_columns: u16,
    /// A column for each parameter.
    pub params: SetColumns,
}

/// A prepared statement as its caller holds it, with the names of its parameters.
///
/// Contracts see it as what the server told of it and the list of its names.
#[derive(Drop)]
pub struct Statement {
    inner: Arc<StmtInner>,
    names: Listed<Blob>,
}

impl Model for Statement {
    ghost use Rattle.my_statements.specs.Cache.{stmt_of};
    ghost use Rattle.my_statements.specs.Prepared.{StatementView};

    ghost Value = { StatementView };

    ghost view = { λ s. record { inner = stmt_of s.inner; names = s.names } };
}

impl PartialEq for Statement {
    ghost use Rattle.my_statements.specs.contracts.statement.StmtInnerPartialEq.TheImpl.Laws as of_inner;
    ghost use Rattle.std.specs.Prelude.{nat_eq};
    ghost use Rattle.std.specs.Cmp;
    ghost use Rattle.std.specs.Cmp.{partial_equiv_from_equiv};
    ghost use Rattle.std.specs.Cmp.Lexicographic.{lists_per, nat_list_eq_equiv, pointwise};
    ghost use Rattle.std.specs.Ordering.{eq_of_both, on};

    ghost eq = { eq_of_both (on (λ s. s.inner) ⟦<StmtInner as PartialEq>⟧.eq)
        (on (λ s. s.names) (pointwise (pointwise nat_eq))) };

    ghost laws = { Cmp.and_per (Cmp.on_per (λ s. s.inner) of_inner.laws-law)
        (Cmp.on_per (λ s. s.names) (lists_per (partial_equiv_from_equiv nat_list_eq_equiv))) };

    fn eq(&self, other: &Statement) -> bool {
        *self.inner == *other.inner && self.names == other.names
    }
}

impl Eq for Statement {
    ghost use Rattle.my_statements.specs.contracts.statement.StmtInnerEq.TheImpl.Laws as of_inner;
    ghost use Rattle.std.specs.Cmp;
    ghost use Rattle.std.specs.Cmp.Lexicographic.{lists_equiv, nat_list_eq_equiv};

    ghost laws = { Cmp.and_equiv (Cmp.on_equiv (λ s. s.inner) of_inner.laws-law)
        (Cmp.on_equiv (λ s. s.names) (lists_equiv nat_list_eq_equiv)) };
}

impl Statement {
    /// The statement of which the server told this, with the name of each place of a parameter; no names where its
    /// text has none.
    pub fn new(inner: Arc<StmtInner>, names: Listed<Blob>) -> Statement
        ensures { result ≡ record { inner = stmt_of inner; names = names } }
    {
        Statement { inner, names }
    }

    /// The server's number of the statement.
    pub fn id(&self) -> u32
        ensures { result ≡ self.now.inner.id }
    {
        self.inner.id
    }

    /// The number of the connection that it was prepared on.
    pub fn connection_id(&self) -> u32
        ensures { result ≡ self.now.inner.connection_id }
    {
        self.inner.connection_id
    }

    pub fn num_params(&self) -> u16
        ensures { result ≡ self.now.inner.num_params }
    {
        self.inner.num_params
    }

    pub fn num_columns(&self) -> u16
        ensures { result ≡ self.now.inner.num_columns }
    {
        self.inner.num_columns
    }

    /// A column for each parameter.
    pub fn params(&self) -> &[Column]
        ensures { result.now ≡ self.now.inner.params }
    {
        self.inner.params.as_slice()
    }

    /// The name of each place of a parameter; none where the text has no names.
    pub fn names(&self) -> &[Blob]
        ensures { result.now ≡ self.now.names }
    {
        self.names.as_slice()
    }

    /// A second holder of the same statement.
    pub fn copy(&self, alloc: Global) -> Result<Statement, NoMemory>
        ensures { IfOk result (λ copy. copy ≡ self.now) }
    {
        let names = self.names.copy(alloc)?;
        Ok(Statement {
            inner: Arc::try_clone(&self.inner)?,
            names,
        })
    }
}
