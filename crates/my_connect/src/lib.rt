//! Clients: connections at which no call is open, by their type, and how one is made over a world. It hands on what a
//! program needs beside them.
#![tactic(auto)]

mod client;
mod dialed;
pub mod laws;
mod transaction;

pub use client::Client;
pub use dialed::{connect, connect_with};
pub use my_conn::{Conn, NextAnswer};
pub use my_frame::{Blob, Listed, NoMemory};
pub use my_link::{BlockingLink, World};
pub use my_opts::Opts;
pub use my_opts_parts::TxOpts;
pub use my_params::Params;
pub use my_reading::Error;
pub use my_rows::{
    AsQuery, Calls, Lent, QueryError, StatementLike, bytes, named, positional, text,
};
pub use my_statements::Statement;
pub use my_value::{FromRow, Row, Value};
pub use transaction::Transaction;
