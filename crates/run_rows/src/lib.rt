//! Runs of the program as rows of text: the words of a command, a script, and what is written. The transcript of each run is judged,
//! and changes of it and of its plan are refuted. A row is a paragraph; `text` says how its lines read. This crate has tests alone.
#![tactic(auto)]

#[cfg(test)]
mod changes;
#[cfg(test)]
mod judged;
#[cfg(test)]
mod live;
#[cfg(test)]
mod net;
#[cfg(test)]
mod play;
#[cfg(test)]
mod rows;
#[cfg(test)]
mod sources;
#[cfg(test)]
mod tests;
#[cfg(test)]
mod text;
#[cfg(test)]
mod texts;
