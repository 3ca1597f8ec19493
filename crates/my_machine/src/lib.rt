//! Where a connection stands, and one step of a call: the plain program of the reading of my_reading.
#![tactic(auto)]

mod closing;
mod part;
mod progress;
mod stand;
mod step;
mod texts;

pub use closing::{closes, closes_at, closes_by, is_connect, is_quit, is_unrefused};
pub use part::{Part, part_at};
pub use progress::Progress;
pub use stand::Stand;
pub use step::{Ending, Step, Stop};
