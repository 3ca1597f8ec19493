//! The kind of the last fault that the system told.

use std::alloc::Global;
use std::io::ErrorKind;
use std::sync::Arc;
use std::sync::atomic::{AtomicU64, Ordering};

// The kinds that are told apart; each other one is kept as the last of these.
const KINDS: [ErrorKind; 11] = [
    ErrorKind::ConnectionRefused,
    ErrorKind::ConnectionReset,
    ErrorKind::ConnectionAborted,
    ErrorKind::BrokenPipe,
    ErrorKind::TimedOut,
    ErrorKind::HostUnreachable,
    ErrorKind::NetworkUnreachable,
    ErrorKind::NotFound,
    ErrorKind::PermissionDenied,
    ErrorKind::Uncategorized,
    ErrorKind::Other,
];

// The kind's place among these, from 1.
fn place_of(kind: ErrorKind) -> u64 {
    for (i, known) in KINDS.iter().enumerate() {
        if *known == kind {
            return i as u64 + 1;
        }
    }
    KINDS.len() as u64
}

fn kind_at(place: u64) -> Option<ErrorKind> {
    let index = place.checked_sub(1)?;
    KINDS.get(index as usize).copied()
}

/// The kind of the last fault of a world's dials, and of its streams' reads and writes. The world and each of its streams
/// hold it together, also where a stream is used in another thread. No contract speaks of it.
#[derive(Drop)]
pub(crate) struct LastFault {
    // 0 before the first fault; nothing where there was no memory for it.
    place: Option<Arc<AtomicU64>>,
}

impl LastFault {
    pub(crate) fn new(alloc: Global) -> LastFault {
        match Arc::new(alloc, AtomicU64::new(0)) {
            Ok(place) => LastFault { place: Some(place) },
            Err(_) => LastFault { place: None },
        }
    }

    /// Another holder of the same kind.
    pub(crate) fn share(&self) -> LastFault {
        match &self.place {
            Some(place) => LastFault {
                place: Arc::try_clone(place).ok(),
            },
            None => LastFault { place: None },
        }
    }

    pub(crate) fn keep(&self, kind: ErrorKind) {
        if let Some(place) = &self.place {
            place.store(place_of(kind), Ordering::SeqCst);
        }
    }

    pub(crate) fn kind(&self) -> Option<ErrorKind> {
        match &self.place {
            Some(place) => kind_at(place.load(Ordering::SeqCst)),
            None => None,
        }
    }
}
