//! Results of a client with a server in memory, as rows of text. A row is how a result is read, the packets that are its
//! answer, what the reads return, and what one more read returns, separated by `|`; after each a ping is answered. This
//! crate has tests alone.
#![tactic(auto)]

#[cfg(test)]
mod reads;
#[cfg(test)]
mod rows;
#[cfg(test)]
mod streams;
#[cfg(test)]
mod tried;
