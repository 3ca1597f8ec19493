//! The prepared statements that a connection knows.

ghost use Rattle.std.specs.Prelude.{◌≡◌, IfOk, OnErr, OnOk, Option, Some};
ghost use Rattle.std.specs.Option.{option_copied, option_map};
ghost use Rattle.my_statements.specs.Cache.{held};
ghost use Rattle.my_statements.specs.Known.{known_of};

use my_frame::{Blob, Listed, NoMemory};
use my_grammar::Login;
use my_statements::{KnownColumns, SetColumns, Statement, StmtCache, StmtInner};
use std::alloc::Global;
use std::marker::Model;
use std::sync::Arc;

/// The statements that are cached by their texts, and the columns of statements' rows by their ids.
#[derive(Drop)]
pub struct Statements {
    cache: StmtCache,
    known: KnownColumns,
}

impl Model for Statements {
    ghost use Rattle.my_reading.specs.Statements.{Statements as AnyStatements};

    ghost Value = { AnyStatements };

    ghost view = { λ s. record { cache = s.cache; known = s.known } };
}

impl Statements {
    ghost use Rattle.my_reading.specs.Statements.{cleared, emptied, first_statements, held_in, is_cached, leaving, statement_with, with_columns, with_fetched, with_prepared, with_put, without_statement};

    /// Of a connection that prepared none.
    pub fn new(alloc: Global, login: &Login) -> Result<Statements, NoMemory>
        ensures { IfOk result (λ s. s ≡ first_statements login.now) }
    {
        Ok(Statements {
            cache: StmtCache::new(alloc, login.statements as usize)?,
            known: KnownColumns::new(alloc)?,
        })
    }

    /// The cached statement of a text that is prepared, with the names of its parameters; it is the one that was used last from now on.
    pub fn find(&mut self, query: &[u8], names: Listed<Blob>) -> Result<Option<Statement>, NoMemory>
        ensures found { IfOk result (λ o. o ≡ option_map (λ h. statement_with h.stmt names) (held_in self.old query.now)) }
        ensures ok { OnOk result (self.new ≡ with_fetched query.now self.old) }
        ensures err { OnErr result (self.new ≡ self.old) }
    {
        let inner = match self.cache.peek(query) {
            None => return Ok(None),
            Some(entry) => Arc::try_clone(entry.stmt())?,
        };
        let _ = self.cache.by_query(query);
        Ok(Some(Statement::new(inner, names)))
    }

    /// Whether a statement of this id is still cached.
    pub fn is_cached(&self, id: u32) -> bool
        ensures { result ≡ is_cached self.now id }
    {
        self.cache.contains(id)
    }

    // Puts a statement, unless its text or its id is cached already. Returns the id of the one that has to go for it.
    fn put(
        &mut self,
        alloc: Global,
        query: Vec<u8>,
        inner: StmtInner,
    ) -> Result<Option<u32>, NoMemory>
        ensures leaving { IfOk result (λ o. o ≡ leaving query.items inner self.old) }
        ensures ok { OnOk result (self.new ≡ with_put (held query.items inner) self.old) }
        ensures err { OnErr result (self.new ≡ self.old) }
    {
        if self.cache.holds(query.as_slice()) || self.cache.contains(inner.id) {
            return Ok(None);
        }
        let query = Arc::new(alloc, query)?;
        let inner = Arc::new(alloc, inner)?;
        match self.cache.put(query, inner)? {
            None => Ok(None),
            Some(last) => Ok(Some(last.id)),
        }
    }

    /// A statement was prepared of this text, and its rows have these columns. Returns the id of the statement that has to go for it.
    /// Out of memory no statement is put, but the columns may be known.
    pub fn keep(
        &mut self,
        alloc: Global,
        query: Vec<u8>,
        inner: StmtInner,
        fields: SetColumns,
    ) -> Result<Option<u32>, NoMemory>
        ensures leaving { IfOk result (λ o. o ≡ leaving query.items inner self.old) }
        ensures ok { OnOk result (self.new ≡ with_prepared query.items inner fields self.old) }
        ensures err { OnErr result (self.new.cache ≡ self.old.cache) }
    {
        self.known.put(inner.id, fields)?;
        let leaving = self.put(alloc, query, inner)?;
        Ok(leaving)
    }

    /// The rows of a statement have these columns.
    pub fn learn(&mut self, id: u32, columns: SetColumns) -> Result<(), NoMemory>
        ensures ok { OnOk result (self.new ≡ with_columns id columns self.old) }
        ensures err { OnErr result (self.new ≡ self.old) }
    {
        self.known.put(id, columns)?;
        Ok(())
    }

    /// A statement isn't cached any more.
    pub fn forget(&mut self, id: u32)
        ensures { self.new ≡ without_statement id self.old }
    {
        self.cache.remove(id);
    }

    /// The server's session was reset: no statement is cached any more.
    pub fn forget_all(&mut self)
        ensures { self.new ≡ cleared self.old }
    {
        self.cache.clear();
    }

    /// Of a connection that is closed nothing is known.
    pub fn clear(&mut self)
        ensures { self.new ≡ emptied self.old }
    {
        self.cache.clear();
        self.known.clear();
    }

    /// The columns of a statement's rows, where they are known.
    pub fn columns_of(&self, id: u32) -> Option<&SetColumns>
        ensures { option_copied result ≡ known_of id self.now.known }
    {
        self.known.get(id)
    }
}
