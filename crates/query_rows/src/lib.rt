//! What of a client's results is left, streams that own them, and queries made of a text and its parameters, with a server
//! in memory, as rows of text. A row is how an answer is read, the packets that are the answer, what the reads return, and
//! what one more read returns, separated by `|`; after each a ping is answered. This crate has tests alone.
#![tactic(auto)]

#[cfg(test)]
mod owned;
#[cfg(test)]
mod queries;
#[cfg(test)]
mod reads;
#[cfg(test)]
mod rows;
#[cfg(test)]
mod unread;
