//! Rows over my_server: a script of a server, and below it what a client sends, what the server sends to it, and its last step
//! (`rows.rt` says how a row reads). This crate has tests alone.
#![tactic(auto)]

#[cfg(test)]
mod bytes;
#[cfg(test)]
mod play;
#[cfg(test)]
mod rows;
#[cfg(test)]
mod script;
