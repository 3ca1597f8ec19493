//! Runs scripts of steps over connections, and returns what they came to.
#![tactic(auto)]

mod beside;
mod input;
mod output;
mod run;
mod statements;
mod tape;
mod tool;
pub mod wrong_runs;

pub use output::write_all;
pub use tool::{Report, Status, run_tool};
