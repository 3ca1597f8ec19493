//! What the payloads of a connection are: their kinds in context, the exchanges that they make up,
//! and the exchanges that a stream of bytes holds.
#![tactic(auto)]

mod account;
mod cut;
mod kinds;
pub mod laws;
mod login;
mod packet;
mod progress;
mod queue;
mod said;
mod scramble;
mod spot;

pub use account::{Account, change_packet};
pub use cut::{CutRest, Found, cut_bytes};
pub use kinds::{is_caching, kind_at};
pub use login::{Login, login_response};
pub use packet::Packet;
pub use progress::{Opening, Progress};
pub use queue::Queue;
pub use said::says;
pub use scramble::password_answer;
pub use spot::{Context, Kind, Offer, RowFormat, Spot, Terms};
