//! Frames, numbers and texts of the MySQL client/server protocol, and the outside that bytes come
//! from and go to.
#![tactic(auto)]

mod append;
mod blob;
mod codec;
mod copied;
mod fault;
mod front;
mod header;
pub mod laws;
pub mod limits;
mod listed;
mod no_memory;
pub mod numbers;
mod put;
mod read_error;
mod scan;
mod sink;
mod source;
mod std_edge;
mod text;
pub mod writing;

pub use append::append_payload;
pub use blob::Blob;
pub use codec::PacketCodec;
pub use copied::{Copied, copy_items};
pub use fault::{CodecError, CodecFault};
pub use front::{FramedPayload, payload_in_front};
pub use limits::FULL_LENGTH;
pub use listed::Listed;
pub use no_memory::NoMemory;
pub use read_error::ReadError;
pub use scan::{Span, scan_front};
pub use sink::{MemSink, Sink, SinkStep};
pub use source::{MemSource, Source, SourceStep};
pub use std_edge::{StdSink, StdSource};
pub use text::Text;
