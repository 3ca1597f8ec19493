//! Values, parameters, statements and options as rows of text. A row is a word, what it is about, and after ` -> ` the
//! text of what comes out or of the refusal. This crate has tests alone.
#![tactic(auto)]

#[cfg(test)]
mod built;
#[cfg(test)]
mod cells;
#[cfg(test)]
mod conversions;
#[cfg(test)]
mod kept;
#[cfg(test)]
mod options;
#[cfg(test)]
mod parameters;
#[cfg(test)]
mod play;
#[cfg(test)]
mod pools;
#[cfg(test)]
mod rows;
#[cfg(test)]
mod urls;
#[cfg(test)]
mod words;
