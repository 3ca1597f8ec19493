//! One connection's calls, with no input or output of its own: a session that runs the parts of the reading (my_machine).
#![tactic(auto)]

mod answer;
mod login;
mod opened;
mod routine;
mod running;
mod session;

pub use answer::{LinkFault, SessionStep};
pub use login::login_for;
pub use opened::Opened;
pub use routine::{
    ChangeUser, ExecBulkRoutine, ExecRoutine, NextSetRoutine, PingRoutine, PrepareRoutine,
    QueryRoutine, ResetRoutine, Routine,
};
pub use session::Session;
