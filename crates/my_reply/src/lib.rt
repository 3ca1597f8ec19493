//! The packets that a server answers commands with, read and written.
#![tactic(auto)]

mod column;
mod column_count;
mod eof;
mod err;
mod event;
pub mod glance;
pub mod laws;
mod ok;
mod replies;
mod server;

pub use column::{Column, read_column};
pub use column_count::{ColumnCount, read_column_count};
pub use eof::{EofPacket, read_eof};
pub use err::{ErrPacket, read_err};
pub use event::{Event, TABLE_MAP, read_event};
pub use ok::{OkPacket, read_end_ok, read_ok};
pub use replies::{InfileRequest, PrepareOk, read_infile, read_prepare_ok};
pub use server::{ServerPacket, write_server};
