//! Rows in one call: queries and statements whose rows are collected, folded or mapped, at a connection or at one that
//! is lent.
#![tactic(auto)]

mod as_query;
mod begins;
mod calls;
mod error;
mod gather;
mod given;
mod lent;
mod read;
mod rest;
mod statement_like;

pub use as_query::AsQuery;
pub use begins::{execute, execute_each, prepare_text, send_text};
pub use calls::Calls;
pub use error::QueryError;
pub use gather::{Collected, Folded, Gather, Mapped};
pub use given::{bytes, named, positional, text};
pub use lent::Lent;
pub use read::{next_item, read_set};
pub use rest::{collect_answer, drop_after, drop_answer, first_of_answer, fold_answer, map_answer};
pub use statement_like::{StatementLike, ToStatementResult};
