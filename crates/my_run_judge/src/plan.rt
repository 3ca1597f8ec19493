//! Whether what a transcript's links met is planned: the plain program of what the theorem on runs says of its plans.

mod dials;
mod left;
mod lines;
mod planned;
mod runs;

pub use runs::{judge_plans, judge_run};
