//! A live request with what it has of the heap.

use crate::request::Request;

/// A live request and its slot in the heap, which its age holds while it waits.
#[derive(Clone, Copy)]
pub(crate) struct Seat {
    pub(crate) request: Request,
    pub(crate) slot: usize,
}
