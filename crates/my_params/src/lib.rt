//! Parameters of statements: named parameters in texts, which values are sent for them, and the payloads that carry
//! these.
#![tactic(auto)]

mod ahead;
pub mod bulk;
mod execute;
pub mod laws;
mod named;
mod params;
pub mod sending;
mod sql_text;

pub use ahead::ahead_of;
pub use execute::{execute_body, parameter_of};
pub use named::{ParseFault, ParsedNamedParams};
pub use params::{Params, ParamsError, into_values, values_for};
