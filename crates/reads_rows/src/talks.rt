//! Talks, and those of a connection.

use crate::queries::asked;
use my_conn::Conn;
use my_link::BlockingLink;
use my_statements::Statement;
use near_talks::{field, new_by};
use std::alloc::{AllocError, Global};

/// What answers the calls of a talk.
pub trait Answers {
    /// What a call returns, in the text of `{:?}`.
    fn answer(
        &mut self,
        alloc: Global,
        held: &mut Option<Statement>,
        call: &str,
    ) -> Result<String, AllocError>;
}

impl<L: BlockingLink> Answers for Conn<L> {
    fn answer(
        &mut self,
        alloc: Global,
        held: &mut Option<Statement>,
        call: &str,
    ) -> Result<String, AllocError> {
        asked(alloc, self, held, call)
    }
}

/// Whether each line of a talk after the first returns what it says.
pub fn goes_on<A: Answers>(alloc: Global, holder: &mut A, talk: &str) -> bool {
    let mut held = None;
    let mut well = true;
    for line in talk.lines().skip(1) {
        match holder.answer(alloc, &mut held, field(line, 0)) {
            Ok(text) => well = well && text.as_str() == field(line, 2),
            Err(_) => well = false,
        }
    }
    drop(held);
    well
}

/// Whether the calls of a talk return what it says at a connection.
pub fn is_asked(alloc: Global, talk: &str) -> bool {
    match new_by(alloc, talk) {
        Ok(conn) => {
            let mut conn = conn;
            let right = goes_on(alloc, &mut conn, talk);
            drop(conn);
            right
        }
        Err(error) => {
            drop(error);
            false
        }
    }
}
