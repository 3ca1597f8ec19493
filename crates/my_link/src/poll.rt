//! What a poll comes to.

/// What a poll comes to: a result, or nothing yet.
#[derive(Drop)]
pub enum Poll<T> {
    Ready(T),
    Pending,
}
