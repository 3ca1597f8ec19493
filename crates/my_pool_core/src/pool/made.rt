//! A new pool.

ghost use Rattle.std.specs.Prelude.{◌≡◌, IsOkAnd};
ghost use Rattle.my_pool_core.specs.Events.{new_pool};
ghost use Rattle.my_pool_core.specs.Made.{limits_of};

use super::Core;
use crate::limits::Limits;
use my_frame::NoMemory;
use my_opts_parts::PoolOpts;
use std::alloc::Global;

impl Core {
    /// A pool with no connection, by these options; its first connection will have the number `first`.
    ///
    /// It takes no memory yet.
    pub fn new(alloc: Global, opts: &PoolOpts, first: u64) -> Result<Core, NoMemory>
        ensures { IsOkAnd result (λ core. core ≡ new_pool (limits_of opts.now) first) }
    {
        let constraints = opts.constraints();
        let limits = Limits {
            max: constraints.max(),
            min: constraints.min(),
            bound: opts.active_bound(),
            inactive: opts.inactive_connection_ttl().as_millis(),
            waiting: opts.max_waiting(),
        };
        Ok(Core::with_limits(alloc, limits, first))
    }
}
