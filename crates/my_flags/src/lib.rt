//! The sets of named bits of the MySQL client/server protocol.
#![tactic(auto)]

mod flags;
mod sets;

pub use flags::{CapabilityFlags, MariadbCapabilities, StatusFlags};
