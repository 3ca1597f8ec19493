//! What rows say of a pool's core: their words, how a pool looks, whether it is as it should be, and whether events
//! lead to it; and random numbers. It is for the two crates whose rows are events of a pool and of an exchange.
#![tactic(auto)]

mod dice;
mod replay;
mod shown;
mod sound;
mod words;

pub use dice::Dice;
pub use replay::replayed;
pub use shown::looks;
pub use sound::{Shown, is_sound};
pub use words::{count_rows, event_by, event_of, first_word, is_wanted, numbers_of, sides, told};
