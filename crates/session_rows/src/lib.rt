//! Talks with a server, as rows of text: what a session answers and sends, and what the bytes of a stream are cut into. The
//! expected values are those of the public pages of the protocol and of worked conversations. This crate has tests alone.
#![tactic(auto)]

#[cfg(test)]
mod calls;
#[cfg(test)]
mod cuts;
#[cfg(test)]
mod given;
#[cfg(test)]
mod library;
#[cfg(test)]
mod lives;
#[cfg(test)]
mod peer;
#[cfg(test)]
mod play;
#[cfg(test)]
mod routines;
#[cfg(test)]
mod rows;
#[cfg(test)]
mod said;
#[cfg(test)]
mod tests;
