//! Packets over a bare link, and buffers that are used again.
#![tactic(auto)]

mod buffers;
mod fault;
mod read;
mod write;

pub use buffers::{BufferPool, PooledBuf};
pub use my_link::Poll;
pub use read::ReadPacket;
pub use write::WritePacket;
