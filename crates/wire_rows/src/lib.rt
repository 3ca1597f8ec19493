//! What payloads read as and what packets are written as, sources and sinks, and one payload over a bare link, as rows of
//! text. A row is `KIND GIVEN = FOUND`: the words that the player of its kind notes. This crate has tests alone.
#![tactic(auto)]

#[cfg(test)]
mod auth;
#[cfg(test)]
mod client;
#[cfg(test)]
mod frames;
#[cfg(test)]
mod link;
#[cfg(test)]
mod notes;
#[cfg(test)]
mod outside;
#[cfg(test)]
mod play;
#[cfg(test)]
mod rows;
#[cfg(test)]
mod server;
