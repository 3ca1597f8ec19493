//! Wakers that note whom they call.

use my_pool_store::Wake;
use std::cell::Cell;
use std::rc::Rc;

/// The ages below 10 whose wakers were called, as digits: 12 where that of 1 was called, and then that of 2.
pub type Rung = Rc<Cell<u64>>;

/// The waker of an age.
#[derive(Drop)]
pub struct Bell {
    pub age: u64,
    pub rung: Rung,
}

impl Wake for Bell {
    fn wake(&mut self) {
        let before = self.rung.get();
        self.rung
            .set(before.saturating_mul(10).saturating_add(self.age));
    }
}
