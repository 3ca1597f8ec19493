//! The packets by which a connection is made: the server's greeting, its version, the client's login,
//! and the switch of the authentication plugin.
#![tactic(auto)]

mod attributes;
mod greeting;
pub mod laws;
mod login;
mod switch;
mod version;

pub use attributes::{Attribute, Attributes};
pub use greeting::{Greeting, NEEDED_CAPABILITIES, greeting_offer, read_greeting};
pub use login::{ChangeUser, HandshakeResponse, put_change_user, put_response};
pub use switch::{MoreData, SwitchRequest, read_more_data, read_switch, switch_parts};
pub use version::{ServerVersion, server_version};
