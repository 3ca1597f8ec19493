//! A pool on one thread: its core with the connections that it keeps, the wakers of requests that wait, and a
//! journal. Each event of the core is a method.
#![tactic(auto)]

mod boxed;
mod exchange;
mod facts;
pub mod laws;
mod out;

pub use boxed::BoxedConn;
pub use exchange::Exchange;
pub use facts::{facts_at, fit_is_clean};
pub use out::Out;
