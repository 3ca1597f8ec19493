//! The two protocols that a result's rows have, as types: text, as in the answer to a query, and binary, as in the answer to
//! a statement that is executed.
#![tactic(auto)]

mod protocol;

pub use protocol::{BinaryProtocol, Protocol, ResultSetMeta, TextProtocol};
