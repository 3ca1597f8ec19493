//! The packets of the MySQL client/server protocol under one name: the sets of named bits, frames,
//! the packets by which a connection is made, a client's commands, and what a server answers.
//! Each comes from a crate of its own; this one defines nothing.
#![tactic(auto)]

pub mod laws;

pub use my_command::{ClientPacket, replica, statement, write_client};
pub use my_flags::{CapabilityFlags, MariadbCapabilities, StatusFlags};
pub use my_frame::{
    Blob, CodecError, CodecFault, Copied, FULL_LENGTH, FramedPayload, Listed, MemSink, MemSource,
    NoMemory, PacketCodec, ReadError, Sink, SinkStep, Source, SourceStep, Span, StdSink, StdSource,
    Text, append_payload, copy_items, limits, numbers, payload_in_front, scan_front, writing,
};
pub use my_handshake::{
    Attribute, Attributes, ChangeUser, Greeting, HandshakeResponse, MoreData, NEEDED_CAPABILITIES,
    ServerVersion, SwitchRequest, greeting_offer, read_greeting, read_more_data, read_switch,
    server_version,
};
pub use my_reply::{
    Column, ColumnCount, EofPacket, ErrPacket, Event, InfileRequest, OkPacket, PrepareOk,
    ServerPacket, TABLE_MAP, glance, read_column, read_column_count, read_end_ok, read_eof,
    read_err, read_event, read_infile, read_ok, read_prepare_ok, write_server,
};
