//! The packets that a client sends.
#![tactic(auto)]

mod client;
pub mod laws;
pub mod replica;
pub mod statement;
mod write;

pub use client::ClientPacket;
pub use write::write_client;
