//! A cached statement.

ghost use Rattle.std.specs.Prelude.{◌≡◌};
ghost use Rattle.my_statements.specs.Cache.{Held, stmt_of};

use crate::query_string::QueryString;
use crate::statement::StmtInner;
use std::marker::Model;
use std::sync::Arc;

/// A prepared statement and the text that it was prepared from, with `?` for each parameter.
#[derive(Drop)]
pub struct Entry {
    stmt: Arc<StmtInner>,
    query: QueryString,
}

impl Model for Entry {
    ghost use Rattle.my_statements.specs.Cache.{Held, stmt_of};

    ghost Value = { Held };

    ghost view = { λ e. record { query = e.query; stmt = stmt_of e.stmt } };
}

impl Entry {
    pub(crate) fn new(query: QueryString, stmt: Arc<StmtInner>) -> Entry
        ensures { result ≡ record { query = query; stmt = stmt_of stmt } }
    {
        Entry { stmt, query }
    }

    pub fn stmt(&self) -> &Arc<StmtInner>
        ensures { stmt_of result.now ≡ self.now.stmt }
    {
        &self.stmt
    }

    pub fn query(&self) -> &QueryString
        ensures { result.now ≡ self.now.query }
    {
        &self.query
    }

    pub(crate) fn into_parts(self) -> (QueryString, Arc<StmtInner>)
        ensures query { result.0 ≡ self.query }
        ensures stmt { stmt_of result.1 ≡ self.stmt }
    {
        (self.query, self.stmt)
    }
}
