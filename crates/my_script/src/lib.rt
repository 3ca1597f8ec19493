//! What a script reads and prints: the words of a command, the lines of a script with the world that they
//! plan, and what its steps came to with the text of it.
#![tactic(auto)]

mod action;
mod aim;
mod beside;
mod reading;
mod statements;
mod step;
mod stream;
mod text;
mod transaction;
mod transcript;
mod words;

pub use action::{Action, Work};
pub use aim::Aim;
pub use beside::Beside;
pub use reading::script::{BadLine, Read, Script, read_script};
pub use statements::{NumberedStatements, named_statement};
pub use step::Step;
pub use stream::{Stream, target};
pub use text::transcript::text_of;
pub use transaction::Transaction;
pub use transcript::{Outcome, StepAnswer, Tape, TapeCall, Transcript, Use};
pub use words::{Command, WordFault, read_command, read_word};
