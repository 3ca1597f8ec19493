//! A connection for callers: how it is made, what it knows, and calls that wait.
#![tactic(auto)]

mod answers;
mod conn;
mod connect;
mod connecting;
mod drive;
mod facts;
pub mod laws;
mod stream;
mod unmade;

pub use conn::Conn;
pub use connecting::{Connected, Connecting};
pub use drive::{NextAnswer, flag_answer, next_answer, statement_answer};
pub use my_client::TOO_LONG;
pub use stream::taken_answer;
pub use unmade::Unmade;
