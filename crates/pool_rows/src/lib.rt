//! Rows over my_pool_core and my_pool_parts: a row is an event of a pool or of a heap, with what it returns (`rows.rt`
//! says how it reads). Beside them many events from a seed, after each of which the pool is looked at whole. This crate
//! has tests alone.
#![tactic(auto)]

#[cfg(test)]
mod events;
#[cfg(test)]
mod heap;
#[cfg(test)]
mod play;
#[cfg(test)]
mod rows;
#[cfg(test)]
mod runs;
#[cfg(test)]
mod scanned;
