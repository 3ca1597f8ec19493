//! What is shown of a pool, as rows ask for it.

use my_frame::NoMemory;
use my_pool_core::Core;
use my_pool_store::PoolView;
use std::alloc::Global;

/// How many connections are counted, how many requests wait, how many were woken, whether the pool is closed, and the number of
/// the connection that came to its place last.
pub fn view_of(alloc: Global, core: &Core) -> Result<[u64; 5], NoMemory> {
    let view = PoolView::of(alloc, core)?;
    let last = match view.places.last() {
        Some((number, _)) => *number,
        None => 0,
    };
    let shown = [
        view.counted as u64,
        view.waiting.len() as u64,
        view.woken.len() as u64,
        u64::from(view.closed),
        last,
    ];
    drop(view);
    Ok(shown)
}
