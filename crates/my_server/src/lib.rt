//! A scripted server, with no input or output of its own: it greets a client, admits it by its password, and
//! answers its queries by the replies of a script.
#![tactic(auto)]

mod answer;
mod answering;
mod arrival;
mod check;
mod command;
mod greet;
mod login;
mod phase;
mod script;
mod server;

pub use command::{CommandKind, command_kind, query_text};
pub use greet::OFFERED;
pub use login::{ClientLogin, LOGIN_CAPABILITIES, read_login};
pub use phase::{CloseCause, Phase, ServerStep};
pub use script::{Reply, ReplyAnswer, ScriptFault, ServerScript, ServerSet};
pub use server::ServerCore;
