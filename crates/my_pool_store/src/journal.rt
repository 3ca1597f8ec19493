//! What a pool notes of its events.

ghost use Rattle.std.specs.Prelude.{Some, None, []};
ghost use Rattle.my_pool_store.specs.Noted.{IsNoted};

use crate::notes::Notes;
use my_frame::NoMemory;
use my_pool_core::PoolEvent;
use std::alloc::Global;

/// Where a pool notes its events.
pub trait Journal: Drop {
    ghost use Rattle.std.specs.Prelude.{Option, List};
    ghost use Rattle.my_pool_core.specs.declared.event.PoolEvent.{PoolEvent};

    /// The events from the first one on, where they are kept and none is missing.
    ghost told: { Self → Option (List PoolEvent) };

    /// An event happened.
    fn note(&mut self, event: PoolEvent)
        ensures { IsNoted (told self.old) event (told self.new) };
}

/// The events are kept. Where there is no memory for one, it and all later ones are missing.
#[derive(Drop)]
pub struct Kept {
    events: Notes<PoolEvent>,
}

/// The events aren't kept.
#[derive(Drop)]
pub struct Dropped;

impl Kept {
    ghost use Rattle.std.specs.Prelude.{◌≡◌, Some, [], IfOk};
    ghost use Rattle.my_pool_store.specs.Listed.{kept_events};

    /// No event.
    pub fn new(alloc: Global) -> Kept
        ensures { kept_events result ≡ Some [] }
    {
        Kept {
            events: Notes::new(alloc),
        }
    }

    /// A copy of the events. Where one is missing, since there was no memory for it, there is none.
    pub fn copy(&self, alloc: Global) -> Result<Vec<PoolEvent>, NoMemory>
        ensures { IfOk result (λ events. kept_events self.now ≡ Some events.items) }
    {
        self.events.copy(alloc)
    }
}

impl Journal for Kept {
    ghost use Rattle.my_pool_store.specs.Listed.{kept_events};

    ghost told = { kept_events };

    fn note(&mut self, event: PoolEvent) {
        self.events.note(event);
    }
}

impl Journal for Dropped {
    ghost use Rattle.std.specs.Prelude.{None};

    ghost told = { λ d. None };

    fn note(&mut self, event: PoolEvent) {
        let _ = event;
    }
}
