//! The requests and leases of a pool on one thread.
#![tactic(auto)]

mod asking;
mod boxed;
pub mod laws;
mod lease;
mod looks;
mod making;
mod request;
mod settling;

pub use asking::{ask, cancel_ask, poll_ask};
pub use lease::{detach, give};
pub use request::{AskTurn, Asking, Held, HeldPlace, Moment};
