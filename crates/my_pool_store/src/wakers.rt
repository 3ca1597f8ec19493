//! Whom to call when a request that waits may go on.

ghost use Rattle.std.specs.Prelude.{◌≡◌, ◌≤◌, ◌<◌, ◌++◌, [], ◌∷◌, ◌==◌, ◌&&◌, true, false, is_some, length, position, OnOk};
ghost use Rattle.my_frame.specs.Lists.{without};
ghost use Rattle.my_pool_store.specs.Woken.{called_at, called_closed, kept_for};

use my_frame::NoMemory;
use my_pool_core::Core;
use std::alloc::Global;
use std::marker::Model;

/// What is called when a request may go on. It makes no call of the pool.
pub trait Wake: Drop {
    /// The request may be polled.
    fn wake(&mut self);
}

/// No waker, for callers that poll by themselves.
#[derive(Drop)]
pub struct NoWake;

impl Wake for NoWake {
    fn wake(&mut self) {}
}

/// The wakers of requests that wait. Contracts see the ages of these requests, and for how many there is room.
#[derive(Drop)]
pub struct Wakers<W: Wake> {
    ages: Vec<u64>,
    wakes: Vec<W>,
    room: usize,
}

impl<W: Wake> Model for Wakers<W> {
    ghost use Rattle.std.specs.Prelude.{◌≡◌, ◌≤◌, vec_len, vec_capacity};
    ghost use Rattle.my_pool_store.specs.Woken.{Called};

    ghost Value = { Called };

    ghost view = { λ w. record { ages = w.ages.items; room = w.room } };

    ghost invariant = { λ w. record {
      same : vec_len w.ages ≡ vec_len w.wakes;
      for_ages : w.room ≤ vec_capacity w.ages;
      for_wakes : w.room ≤ vec_capacity w.wakes;
    } };
}

/// The index of an age.
fn index_of(ages: &[u64], age: u64) -> Option<usize>
    ensures { result ≡ position (λ a. a == age) ages.now }
{
    ages.iter().position(|a| *a == age)
}

/// Each of these wakers is called.
fn call_each<W: Wake>(wakes: &mut [W]) {
    for wake in wakes.iter_mut() {
        wake.wake();
    }
}

impl<W: Wake> Wakers<W> {
    /// No waker.
    pub fn new(alloc: Global) -> Wakers<W>
        ensures { result.ages ≡ [] }
    {
        Wakers {
            ages: Vec::new(alloc),
            wakes: Vec::new(alloc),
            room: 0,
        }
    }

    /// There is room for this number of wakers in all. Out of memory, nothing changes.
    pub fn make_room(&mut self, count: usize) -> Result<(), NoMemory>
        ensures ages { self.new.ages ≡ self.old.ages }
        ensures more { self.old.room ≤ self.new.room }
        ensures room { OnOk result (count ≤ self.new.room) }
    {
        if count <= self.room {
            return Ok(());
        }
        let len = self.ages.len();
        if len < count {
            self.ages.reserve(count - len)?;
            self.wakes.reserve(count - len)?;
        }
        self.room = count;
        Ok(())
    }

    /// The waker of a request is kept. It takes no memory.
    pub fn keep(&mut self, age: u64, wake: W)
        requires { length self.old.ages < self.old.room }
        ensures ages { self.new.ages ≡ self.old.ages ++ age ∷ [] }
        ensures room { self.old.room ≤ self.new.room }
    {
        self.ages.push_reserved(age);
        self.wakes.push_reserved(wake);
    }

    /// A waker that may have been passed is kept where its request waits, and else returned.
    pub fn keep_where(&mut self, age: u64, waits: bool, wake: Option<W>) -> Option<W>
        requires { waits ≡ true → length self.old.ages < self.old.room }
        ensures ages { self.new.ages ≡ kept_for age (waits && is_some wake) self.old.ages }
        ensures room { self.old.room ≤ self.new.room }
        ensures rest { waits ≡ false → result ≡ wake }
    {
        if !waits {
            return wake;
        }
        if let Some(wake) = wake {
            self.keep(age, wake);
        }
        None
    }

    /// The waker of a request is kept no more, and is returned.
    fn take(&mut self, age: u64) -> Option<W>
        ensures ages { self.new.ages ≡ without (λ a. a == age) self.old.ages }
        ensures room { self.new.room ≡ self.old.room }
    {
        match index_of(&self.ages, age) {
            Some(index) => {
                self.ages.remove(index);
                Some(self.wakes.remove(index))
            }
            None => None,
        }
    }

    /// The waker of a request is kept no more, and isn't called.
    pub fn forget(&mut self, age: u64)
        ensures ages { self.new.ages ≡ without (λ a. a == age) self.old.ages }
        ensures room { self.new.room ≡ self.old.room }
    {
        drop(self.take(age));
    }

    /// Where the request of an age doesn't wait, its waker is called, and kept no more. The core is asked of this age alone.
    pub fn call_at(&mut self, age: Option<u64>, core: &Core)
        ensures ages { self.new.ages ≡ called_at age core.now self.old.ages }
        ensures room { self.new.room ≡ self.old.room }
    {
        let Some(age) = age else {
            return;
        };
        if core.is_waiting(age) {
            return;
        }
        if let Some(wake) = self.take(age) {
            let mut wake = wake;
            wake.wake();
        }
    }

    /// Where the pool is closed, each waker is called, and kept no more.
    pub fn call_closed(&mut self, core: &Core)
        ensures ages { self.new.ages ≡ called_closed core.now self.old.ages }
        ensures room { self.new.room ≡ self.old.room }
    {
        if core.is_closed() {
            self.call_all();
        }
    }

    /// Each waker is called, the one that was kept first first, and kept no more.
    fn call_all(&mut self)
        ensures ages { self.new.ages ≡ [] }
        ensures room { self.new.room ≡ self.old.room }
    {
        call_each(&mut self.wakes);
        self.wakes.clear();
        self.ages.clear();
    }
}
