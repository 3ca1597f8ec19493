//! A pool that nobody shares.

ghost use Rattle.std.specs.Prelude.{◌≡◌, IfSome};
ghost use Rattle.my_pool.specs.Asks.{room_wanted};

mod asking;
mod ending;
mod moving;
mod returning;

use crate::boxed::BoxedConn;
use my_client::Tape;
use my_frame::NoMemory;
use my_opts::Opts;
use my_pool_core::Core;
use my_pool_store::{Journal, Shelf, Wake, Wakers};
use std::alloc::Global;
use std::marker::Model;

// How much room a pool wants where one more request comes.
fn room_for_one_more(core: &Core) -> Option<usize>
    ensures { IfSome result (λ n. n ≡ room_wanted core.now) }
{
    let live = core.count_live().checked_add(1)?;
    let spare = core.spare().max(live as u64) as usize;
    let counted = core.metrics().connection_count as usize;
    counted.checked_add(spare)
}

/// A pool on one thread, without its requests: each event of its core is a method, which moves the connection that the
/// event is about and calls whom it wakes.
#[derive(Drop)]
pub struct Exchange<L, J: Journal, W: Wake> {
    opts: Opts,
    core: Core,
    shelf: Shelf<BoxedConn<L>>,
    wakers: Wakers<W>,
    journal: J,
    // The tapes of connections that are gone, by their numbers.
    gone: Shelf<Tape>,
    first: u64,
}

impl<L, J: Journal, W: Wake> Model for Exchange<L, J, W> {
    ghost use Rattle.my_pool_core.specs.Events.{new_pool};
    ghost use Rattle.my_pool_core.specs.Made.{limits_of};
    ghost use Rattle.my_pool.specs.Pools.{Pool};
    ghost use Rattle.my_pool.specs.Stored.{IsWhole};

    ghost Value = { Pool L };

    ghost view = { λ e. record {
      state = e.core;
      kept = e.shelf.kept;
      ages = e.wakers.ages;
      told = J.told e.journal;
      gone = e.gone.kept;
      start = new_pool (limits_of e.opts.pool_opts) e.first;
      opts = e.opts;
    } };

    ghost invariant = { λ e. IsWhole (new_pool (limits_of e.opts.pool_opts) e.first) e.core e.shelf e.wakers
        (J.told e.journal) e.gone };
}

impl<L: Drop, J: Journal, W: Wake> Exchange<L, J, W> {
    ghost use Rattle.std.specs.Prelude.{[], IfOk};
    ghost use Rattle.my_pool_core.specs.Events.{new_pool};
    ghost use Rattle.my_pool_core.specs.Made.{limits_of};
    ghost use Rattle.my_pool.specs.Stored.{IsFresh};

    /// A pool with no connection, by the pool's options among these; its first connection will have the number
    /// `first`. The journal tells no event yet.
    pub fn new(
        alloc: Global,
        opts: Opts,
        journal: J,
        first: u64,
    ) -> Result<Exchange<L, J, W>, NoMemory>
        requires { IsFresh (J.told journal) }
        ensures state { IfOk result (λ e. e.state ≡ new_pool (limits_of opts.pool_opts) first) }
        ensures start { IfOk result (λ e. e.start ≡ new_pool (limits_of opts.pool_opts) first) }
        ensures kept { IfOk result (λ e. e.kept ≡ []) }
        ensures ages { IfOk result (λ e. e.ages ≡ []) }
        ensures told { IfOk result (λ e. e.told ≡ J.told journal) }
        ensures gone { IfOk result (λ e. e.gone ≡ []) }
        ensures opts { IfOk result (λ e. e.opts ≡ opts) }
    {
        match Core::new(alloc, opts.pool_opts(), first) {
            Ok(core) => Ok(Exchange {
                opts,
                core,
                shelf: Shelf::new(alloc),
                wakers: Wakers::new(alloc),
                journal,
                gone: Shelf::new(alloc),
                first,
            }),
            Err(error) => {
                drop(opts);
                drop(journal);
                Err(error)
            }
        }
    }
}

impl<L, J: Journal, W: Wake> Exchange<L, J, W> {
    /// The options of its connections, and its own among them.
    pub fn opts(&self) -> &Opts
        ensures { result.now ≡ self.now.opts }
    {
        &self.opts
    }

    /// Its core: where connections and requests are.
    pub fn core(&self) -> &Core
        ensures { result.now ≡ self.now.state }
    {
        &self.core
    }

    /// Its journal.
    pub fn journal(&self) -> &J
        ensures { J.told result.now ≡ self.now.told }
    {
        &self.journal
    }
}
