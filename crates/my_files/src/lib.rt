//! Files that a server may be lent: those of a list. Here code meets the system's files, so what is in a file is not
//! known to any contract; which names are opened is.
#![tactic(auto)]

pub mod laws;
mod opens;
mod white_list;

pub use opens::{Opens, SystemFiles};
pub use white_list::WhiteListFsHandler;
