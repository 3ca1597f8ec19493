//! Reads scripts and the words of a command.

pub mod beginning;
pub mod changing;
pub mod cut;
pub mod execution;
pub mod item;
pub mod keyword;
pub mod line;
pub mod number;
pub mod plan;
pub mod script;
pub mod value;
