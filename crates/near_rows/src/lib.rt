//! A client of a server in memory, which plays packets, for the crates whose rows read results and streams. The bytes are
//! those of the public pages of the protocol.
#![tactic(auto)]

mod answers;
mod link;
mod parts;
mod row;

pub use answers::{Numbered, add, number_word};
pub use link::Near;
pub use near_talks::{failed, failure, refused, shown};
pub use row::{Reads, rows_read};
