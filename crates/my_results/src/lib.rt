//! Results of queries and of executed statements: each is read row by row, gathered set by set, or streamed, over a
//! holder of a connection that is lent. It hands on what a program needs beside them.
#![tactic(auto)]

mod drops;
mod gather;
mod owned;
mod result;
mod sets;
mod stream;
mod taken;
mod unread;

pub use gather::{Each, Tried};
pub use my_connect::{
    AsQuery, Blob, BlockingLink, Calls, Client, Conn, Error, FromRow, Lent, Listed, NextAnswer,
    NoMemory, Opts, Params, QueryError, Row, Statement, StatementLike, Transaction, TxOpts, Value,
    World, bytes, connect, connect_with, named, positional, text,
};
pub use my_net::TcpWorld;
pub use my_reading::SetColumns;
pub use my_reply::{Column, OkPacket};
pub use my_value::FromRowError;
pub use owned::ResultSetStream;
pub use result::{BinaryProtocol, QueryResult, TextProtocol};
pub use stream::{SetStream, collect_left, next_left};
pub use taken::{TakenSet, take_next};
