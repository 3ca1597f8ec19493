//! A turn of a pool on one thread: what came back is cleaned, reset, kept or closed.
#![tactic(auto)]

pub mod laws;
mod task;
mod turns;

pub use task::{Task, Worked};
pub use turns::turn;
