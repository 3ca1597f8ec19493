//! A pool over links in memory, of which rows tell.

use crate::bell::{Bell, Rung};
use crate::links::{opts_of, play};
use crate::tapes::taken_tapes;
use my_frame::NoMemory;
use my_link::{MemLink, MemWorld};
use my_pool::Exchange;
use my_pool_store::Kept;
use my_pool_turns::turn;
use pool_looks::{first_word, is_wanted, looks, numbers_of, replayed};
use std::alloc::Global;
use std::cell::Cell;
use std::rc::Rc;

/// A pool over links in memory.
pub type Pool = Exchange<MemLink, Kept, Bell>;

/// What a call came to: a word with two numbers.
pub type Told = (&'static str, u64, u64);

/// A pool, the links that are there to be dialed, and the wakers that were called.
#[derive(Drop)]
pub struct Table {
    pub pool: Pool,
    pub world: MemWorld,
    rung: Rung,
}

// Whether a pool is gone.
fn is_gone(pool: &mut Pool) -> &'static str {
    if pool.poll_disconnect() {
        "gone"
    } else {
        "there"
    }
}

impl Table {
    /// A pool of these options, with no connection.
    pub fn new(alloc: Global, words: &str) -> Result<Table, NoMemory> {
        let opts = opts_of(alloc, words)?;
        let pool = Exchange::new(alloc, opts, Kept::new(alloc), 1000)?;
        match Rc::new(alloc, Cell::new(0)) {
            Ok(rung) => Ok(Table {
                pool,
                world: MemWorld::new(alloc),
                rung,
            }),
            Err(_) => {
                drop(pool);
                Err(NoMemory)
            }
        }
    }

    /// The waker of an age, where there is memory for one.
    pub fn bell(&self, age: u64) -> Option<Bell> {
        match self.rung.clone() {
            Ok(rung) => Some(Bell { age, rung }),
            Err(_) => None,
        }
    }

    // The ages whose wakers were called since this was asked last.
    fn rung(&self) -> u64 {
        let rung = self.rung.get();
        self.rung.set(0);
        rung
    }

    /// How many events the journal tells, where they lead to this pool; 0 where they don't.
    pub fn count_told(&self, alloc: Global) -> Result<u64, NoMemory> {
        let events = self.pool.journal().copy(alloc)?;
        let count = events.len() as u64;
        let opts = self.pool.opts().pool_opts();
        let leads = replayed(alloc, self.pool.core(), opts, 1000, events.as_slice());
        drop(events);
        match leads? {
            Some(true) => Ok(count),
            _ => Ok(0),
        }
    }

    /// A row of a link is played; whether it is one.
    pub fn links(&mut self, alloc: Global, given: &str) -> Result<bool, NoMemory> {
        let (word, words) = first_word(given);
        if word != "link" {
            return Ok(false);
        }
        let [number, ..] = numbers_of(given);
        let (_, words) = first_word(words);
        play(alloc, &mut self.world, number, words)?;
        Ok(true)
    }

    /// What a call of the pool alone returns; none where a word is no such call.
    pub fn own(&mut self, alloc: Global, word: &str, first: u64) -> Result<Option<Told>, NoMemory> {
        let told = match word {
            "turn" => ("left", turn(alloc, &mut self.pool, first) as u64, 0),
            "ttl" => ("moved", self.pool.check_ttl(first), 0),
            "close" => {
                self.pool.close();
                ("done", 0, 0)
            }
            "gone" => (is_gone(&mut self.pool), 0, 0),
            "rung" => ("ages", self.rung(), 0),
            "told" => ("events", self.count_told(alloc)?, 0),
            "tapes" => {
                let (numbers, calls) = taken_tapes(alloc, &mut self.pool)?;
                ("left", numbers, calls)
            }
            _ => return Ok(None),
        };
        Ok(Some(told))
    }

    /// Whether a call of the pool alone, or a look at its core, is as a row wants.
    pub fn tells(&mut self, alloc: Global, given: &str, want: &str) -> Result<bool, NoMemory> {
        let [first, ..] = numbers_of(given);
        let (word, _) = first_word(given);
        match self.own(alloc, word, first)? {
            Some((word, first, second)) => Ok(is_wanted(want, word, &[first, second], 0)),
            None => Ok(looks(self.pool.core(), given, want)),
        }
    }
}
