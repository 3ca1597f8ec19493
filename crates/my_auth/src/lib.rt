//! How a client shows a server who it is: plugins, their answers to a nonce, and the chain of packets in which the server asks
//! and the client answers.
#![tactic(auto)]

mod chain;
pub mod laws;
mod plugin;
mod scramble;

pub use chain::{
    AuthAsk, AuthMove, AuthRefusal, AuthRules, AuthStand, nonce_in, plugin_in, reply_to,
};
pub use plugin::AuthPlugin;
pub use scramble::answer_of;
