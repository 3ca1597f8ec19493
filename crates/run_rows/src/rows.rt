//! The rows.

pub mod authentication;
pub mod connecting;
pub mod lines;
pub mod network;
pub mod parts;
pub mod sessions;
pub mod sets;
pub mod statements;
pub mod transactions;
pub mod words;
