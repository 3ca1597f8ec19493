//! Containers of a pool, which know none of its events: an indexed heap of ages over reserved slots, connections in the
//! order in which they came to their places, and live requests in the order of their ages, with the heap of those that
//! wait.
#![tactic(auto)]

mod arrivals;
mod connection;
mod connections;
mod entry;
mod heap;
mod ledger;
mod levels;
mod live;
mod node;
mod places;
mod request;
mod seat;
mod sift;
mod tree;
mod turns;

pub use connection::{Connection, Place, PlaceKind, Times};
pub use connections::Connections;
pub use entry::Entry;
pub use heap::WaitHeap;
pub use ledger::{Counted, Ledger, Uncounted};
pub use live::Live;
pub use request::{LAST, Request, Standing};
