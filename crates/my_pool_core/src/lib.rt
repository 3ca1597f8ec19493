//! The pool on plain numbers: which connection goes where, and who waits, without a link, a thread or a lock.
#![tactic(auto)]

mod event;
pub mod laws;
mod limits;
mod pool;

pub use event::{Answer, Facts, PollAnswer, PoolEvent, Verdict};
pub use limits::{Counts, Limits, Metrics};
pub use pool::Core;
