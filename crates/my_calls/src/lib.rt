//! Calls of a connection that are polled by hand: each kind has a state.
#![tactic(auto)]

mod calls;
mod states;
mod stream;

pub use calls::{
    ChangeUser, ChangeUserCall, CloseCall, CloseStmt, DropCall, DropResult, ExecCall, Execute,
    ForPool, NextCall, NextRow, Ping, PingCall, PoolCall, PrepCall, Prepare, Query, QueryCall,
    Quit, QuitCall, Reset, ResetCall, Transact, TxCall,
};
pub use my_link::Poll;
pub use states::{CallState, Returns};
pub use stream::StreamCall;
