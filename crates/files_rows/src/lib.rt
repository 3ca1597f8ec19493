//! Requests for files that are lent, over the system's files and over one that fails. This crate has tests alone.
#![tactic(auto)]

#[cfg(test)]
mod requests;
