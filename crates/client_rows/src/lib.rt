//! Talks of a connection with a server in memory, as rows of text, with ample memory: by calls that are polled by hand,
//! and by calls that wait. A line of a talk is a call, what the link plays for it, and what the call sends with its
//! answer, separated by `|`; the first line makes the connection. This crate has tests alone.
#![tactic(auto)]

#[cfg(test)]
mod facts;
#[cfg(test)]
mod library;
#[cfg(test)]
mod polled;
#[cfg(test)]
mod polls;
#[cfg(test)]
mod renewing;
#[cfg(test)]
mod talks;
#[cfg(test)]
mod tapes;
#[cfg(test)]
mod waiting;
#[cfg(test)]
mod waits;
