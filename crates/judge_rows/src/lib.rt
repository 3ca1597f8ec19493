//! What the judges find, as rows of text: of tapes that `my_judge` accepts, and of changes of each; and of transcripts
//! that `my_run_judge` finds right, and others that it refutes. The bytes are those of the public pages of the protocol.
//! This crate has tests alone.
#![tactic(auto)]

#[cfg(test)]
mod changes;
#[cfg(test)]
mod findings;
#[cfg(test)]
mod judging;
#[cfg(test)]
mod lines;
#[cfg(test)]
mod logins;
#[cfg(test)]
mod parts;
#[cfg(test)]
mod renewals;
#[cfg(test)]
mod rows;
#[cfg(test)]
mod spans;
#[cfg(test)]
mod tapes;
#[cfg(test)]
mod transactions;
#[cfg(test)]
mod transcripts;
#[cfg(test)]
mod trials;
#[cfg(test)]
mod words;
#[cfg(test)]
mod wrong_tapes;
