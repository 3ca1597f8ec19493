//! The cache of a connection's statements.

ghost use Rattle.std.specs.Prelude.{◌≡◌, ◌-◌, ◌∷◌, [], false, IfOk, OnErr, OnOk, take, slice_get, min};
ghost use Rattle.std.specs.Option.{option_copied, option_map};
ghost use Rattle.std.specs.List.{find, list_any};
ghost use Rattle.my_frame.specs.Lists.{without};
ghost use Rattle.my_frame.specs.declared.limits.TheConstants.{MOST_STATEMENTS as most};
ghost use Rattle.my_statements.specs.Cache.{cached, evicted, fetched, has_id, has_query, held, stmt_of, text_of, with_first};

use crate::entry::Entry;
use crate::query_string::QueryString;
use crate::statement::StmtInner;
use lru::LruCache;
use my_frame::NoMemory;
use my_frame::limits::MOST_STATEMENTS;
use std::alloc::Global;
use std::collections::HashMap;
use std::marker::Model;
use std::num::NonZeroUsize;
use std::sync::Arc;

/// Prepared statements, found by their text. Where one too many is put, the one that was not used longest goes.
#[derive(Drop)]
pub struct StmtCache {
    /// By the server's numbers.
    entries: LruCache<u32, Entry>,
    /// The number of each text.
    ids: HashMap<QueryString, u32>,
    /// Whether it keeps any: its capacity isn't 0.
    keeps: bool,
}

impl Model for StmtCache {
    ghost use Rattle.my_statements.specs.Cache.{Cached, cached};
    ghost use Rattle.my_statements.specs.Indexed.{IsIndexed, capacity_of, list_of};

    ghost Value = { Cached };

    ghost view = { λ c. cached (list_of c.entries) (capacity_of c.keeps c.entries) };

    ghost invariant = { λ c. IsIndexed c.entries c.ids c.keeps };
}

impl StmtCache {
    ghost use Rattle.std.specs.Borrow.{sem};
    ghost use Rattle.my_statements.specs.Fetched.{ends_fetched};

    /// An empty cache of at most `cap` statements, and of at most `MOST_STATEMENTS`. With 0 it keeps none.
    pub fn new(alloc: Global, cap: usize) -> Result<StmtCache, NoMemory>
        ensures { IfOk result (λ c. c ≡ cached [] (min cap most)) }
    {
        let room = match NonZeroUsize::new(cap.min(MOST_STATEMENTS)) {
            Some(room) => room,
            None => NonZeroUsize::MIN,
        };
        Ok(StmtCache {
            entries: LruCache::sparse(alloc, room)?,
            ids: HashMap::new(alloc),
            keeps: cap > 0,
        })
    }

    /// The statement of a text, which is the most recent one from now on.
    pub fn by_query(&mut self, query: &[u8]) -> Option<&Entry>
        ensures* order { sem 𝓛 (ends_fetched self.entry query.now) }
        ensures value { option_copied result ≡ find (has_query query.now) self.old.list }
    {
        let id = *self.ids.get(query)?;
        self.entries.get(&id)
    }

    /// The statement of a text. It doesn't count as a use.
    pub fn peek(&self, query: &[u8]) -> Option<&Entry>
        ensures { option_copied result ≡ find (has_query query.now) self.now.list }
    {
        let id = *self.ids.get(query)?;
        self.entries.peek(&id)
    }

    /// Keeps a statement, whose text and number are not held, as the most recent one. Returns the statement that has to
    /// go for it. Out of memory, nothing changes.
    pub fn put(
        &mut self,
        query: Arc<Vec<u8>>,
        stmt: Arc<StmtInner>,
    ) -> Result<Option<Arc<StmtInner>>, NoMemory>
        requires query { list_any (has_query (text_of query)) self.old.list ≡ false }
        requires id { list_any (has_id (stmt_of stmt).id) self.old.list ≡ false }
        ensures ok { OnOk result (self.new ≡ with_first (held (text_of query) (stmt_of stmt)) self.old) }
        ensures evicted { IfOk result (λ o. option_map (λ s. stmt_of s) o ≡ evicted self.old) }
        ensures err { OnErr result (self.new ≡ self.old) }
    {
        if !self.keeps {
            return Ok(None);
        }
        let query = QueryString::new(query);
        let id = stmt.id;
        self.ids.insert(query.share()?, id)?;
        match self.entries.push(id, Entry::new(query, stmt)) {
            Ok(None) => Ok(None),
            Ok(Some((_, last))) => {
                let (query, stmt) = last.into_parts();
                self.ids.remove(query.as_slice());
                Ok(Some(stmt))
            }
            Err(failed) => {
                let (_, refused) = failed.value;
                self.ids.remove(refused.query().as_slice());
                Err(NoMemory)
            }
        }
    }

    /// The statement of a number is not held any more.
    pub fn remove(&mut self, id: u32)
        ensures { self.new ≡ cached (without (has_id id) self.old.list) self.old.capacity }
    {
        if let Some(entry) = self.entries.pop(&id) {
            self.ids.remove(entry.query().as_slice());
        }
    }

    /// No statement is held any more.
    pub fn clear(&mut self)
        ensures { self.new ≡ cached [] self.old.capacity }
    {
        self.entries.clear();
        self.ids.clear();
    }

    /// Whether a statement of this number is held.
    pub fn contains(&self, id: u32) -> bool
        ensures { result ≡ list_any (has_id id) self.now.list }
    {
        self.entries.contains(&id)
    }

    /// Whether the statement of this text is held. It doesn't count as a use.
    pub fn holds(&self, query: &[u8]) -> bool
        ensures { result ≡ list_any (has_query query.now) self.now.list }
    {
        self.ids.contains_key(query)
    }
}
