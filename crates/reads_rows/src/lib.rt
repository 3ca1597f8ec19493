//! Talks of a connection and of a client with a server in memory, as rows of text, with ample memory: by calls whose
//! rows are returned at once. A line of a talk is a call, what the link plays for it, and its answer, separated by `|`;
//! the first line makes the connection. This crate has tests alone.
#![tactic(auto)]

#[cfg(test)]
mod clients;
#[cfg(test)]
mod dials;
#[cfg(test)]
mod holders;
#[cfg(test)]
mod near;
#[cfg(test)]
mod queries;
#[cfg(test)]
mod rows;
#[cfg(test)]
mod talks;
