//! Whether a transcript is right, and keeps to the plan of its world: the plain program of what the theorem on runs says
//! of its answers, its tapes and its plans.
#![tactic(auto)]

mod act;
mod answered;
mod judging;
mod line;
mod made;
mod meets;
mod outcome;
mod plan;
mod polling;
mod shown;
mod transcript;
mod walk;

pub use judging::{Found, judge_connection};
pub use plan::{judge_plans, judge_run};
pub use transcript::judge_transcript;
