//! Whether a connection's tape is one that the reading of my_reading accepts, by the program of that reading.
#![tactic(auto)]

mod judging;
pub mod laws;
mod reader;
mod stand;
mod tape;

pub use judging::{Verdict, first_reader, judge};
pub use reader::{Reader, between};
pub use stand::{Stand, is_same_error, is_same_row};
pub use tape::{Ending, Tape, TapeCall};
