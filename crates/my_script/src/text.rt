//! The text of a run.

pub mod error;
pub mod ok;
pub mod parts;
pub mod transcript;
pub mod value;
