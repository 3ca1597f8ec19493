//! The calls of what holds a connection: rows in one call, results, streams, and queries that are made of a text or a
//! statement and its parameters. It hands on what a program needs beside them.
#![tactic(auto)]

mod first;
pub mod laws;
mod queries;
mod queryable;
mod starts;

pub use first::take_first;
pub use my_results::{
    AsQuery, BinaryProtocol, Blob, BlockingLink, Calls, Client, Column, Conn, Each, Error, FromRow,
    FromRowError, Lent, Listed, NextAnswer, NoMemory, OkPacket, Opts, Params, QueryError,
    QueryResult, ResultSetStream, Row, SetColumns, SetStream, Statement, StatementLike, TakenSet,
    TcpWorld, TextProtocol, Transaction, Tried, TxOpts, Value, World, bytes, connect, connect_with,
    named, positional, text,
};
pub use queries::{BatchQuery, Query};
pub use queryable::Queryable;
pub use starts::{QueryWithParams, Starts, WithParams};
