//! Prepared statements of a connection, the cache that finds them by their text, and the columns of their results.
#![tactic(auto)]

mod cache;
mod columns;
mod entry;
mod known;
pub mod laws;
mod query_string;
mod statement;

pub use cache::StmtCache;
pub use columns::SetColumns;
pub use entry::Entry;
pub use known::KnownColumns;
pub use query_string::QueryString;
pub use statement::{Statement, StmtInner};
