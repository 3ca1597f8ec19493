//! A step of a script over connections: what it does at the number that it names, and what it came to.
#![tactic(auto)]

mod connect;
mod connecting;
mod fields;
mod gather;
mod outcome;
mod polls;
mod resume;
mod slot;
mod step;
mod stream;
mod work;

pub use outcome::StepResult;
pub use slot::Slot;
pub use step::run_step;
