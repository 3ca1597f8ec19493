//! Connections with a server in memory, which plays the lines of a talk, for the crates whose rows are talks; what
//! calls are given, and what they return, as words. The bytes are those of the public pages of the protocol.
#![tactic(auto)]

mod aid;
mod answers;
mod given;
mod link;
mod making;
mod parts;
mod sends;
mod words;

pub use answers::{Word, failed, failure, refused, shown, word_of};
pub use given::{begin_of, change_of, copy_of, lists_of, params_of};
pub use link::world_of;
pub use making::{Waiting, begun, made, new_by};
pub use sends::sent;
pub use words::{add_digits, answer_of, blob_of, digits_of, field, first_line};
