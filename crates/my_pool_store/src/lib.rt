//! What a pool has beside its core: the connections that it keeps, the wakers of requests that wait, a journal of its events,
//! and notes of what else happens.
#![tactic(auto)]

mod journal;
pub mod laws;
mod notes;
mod shelf;
mod view;
mod wakers;

pub use journal::{Dropped, Journal, Kept};
pub use notes::Notes;
pub use shelf::{Shelf, Slot, numbered};
pub use view::PoolView;
pub use wakers::{NoWake, Wake, Wakers};
