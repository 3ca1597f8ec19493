//! The network: links over the system's sockets, and a world that dials them. What the peer does is not known to any
//! contract; each call that fails is counted.
#![tactic(auto)]

mod fault;
mod link;
mod stream;
mod world;

pub use link::{RealLink, SocketLink, StreamLink, TcpLink};
pub use stream::{RealStream, Stream, WatchedStream};
pub use world::TcpWorld;
