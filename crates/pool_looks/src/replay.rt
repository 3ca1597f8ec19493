//! Whether events lead to a pool.

use my_frame::NoMemory;
use my_opts_parts::PoolOpts;
use my_pool_core::{Core, PoolEvent};
use std::alloc::Global;

// Whether another pool has the same lists and counts.
fn is_same(alloc: Global, core: &Core, other: &Core) -> Result<bool, NoMemory> {
    let connections = core.connections(alloc)?;
    let requests = core.requests(alloc)?;
    Ok(
        core.metrics() == other.metrics()
            && connections == other.connections(alloc)?
            && requests == other.requests(alloc)?,
    )
}

/// Whether a replay of events is a pool; None where it is refused.
pub fn replayed(
    alloc: Global,
    core: &Core,
    opts: &PoolOpts,
    first: u64,
    events: &[PoolEvent],
) -> Result<Option<bool>, NoMemory> {
    let Some(again) = Core::replay(alloc, opts, first, events)? else {
        return Ok(None);
    };
    let same = is_same(alloc, core, &again);
    drop(again);
    Ok(Some(same?))
}
