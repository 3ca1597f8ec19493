//! How much of a call is done, and its steps until it stops.

ghost use Rattle.std.specs.Prelude.{◌≡◌, IfOk, OnOk, false, suc, true};
ghost use Rattle.my_machine.specs.Parts.{IsFirst};
ghost use Rattle.my_machine.specs.Runs.{EachRuns, IsSomewhere, parts_left};

use crate::part::{Part, part_at};
use crate::stand::Stand;
use crate::step::{Step, Stop};
use my_frame::NoMemory;
use my_grammar::Login;
use my_reading::Call;
use std::alloc::Global;

/// How much of a call is done.
#[derive(Clone, Copy)]
pub struct Progress {
    /// How many of its parts are done, or of those by which a transaction is rolled back that couldn't be committed.
    pub done: usize,
    /// Whether it is that rollback.
    pub reverting: bool,
}

impl Progress {
    /// Before its first part.
    pub fn first() -> Progress
        ensures { result ≡ record { done = 0; reverting = false } }
    {
        Progress {
            done: 0,
            reverting: false,
        }
    }

    /// The part that comes next.
    pub fn part(&self, login: &Login, call: &Call) -> Option<Part>
        ensures { IsFirst login.now call.now result (parts_left login.now call.now self.now) }
    {
        if self.reverting {
            return match self.done {
                0 => Some(Part::Undo),
                1 => Some(Part::Back),
                _ => None,
            };
        }
        part_at(login, call, self.done)
    }

    /// The part is done.
    pub fn pass(&mut self) -> Result<(), NoMemory>
        ensures { OnOk result (self.new ≡ record self.old { done = suc self.old.done }) }
    {
        match self.done.checked_add(1) {
            Some(done) => {
                self.done = done;
                Ok(())
            }
            None => Err(NoMemory),
        }
    }

    /// The transaction is rolled back, since it couldn't be committed.
    pub fn revert(&mut self)
        ensures { self.new ≡ record { done = 0; reverting = true } }
    {
        self.done = 0;
        self.reverting = true;
    }

    /// The steps of the call, until it stops.
    pub fn run(
        &mut self,
        alloc: Global,
        login: &Login,
        call: &Call,
        stand: &mut Stand,
    ) -> Result<Stop, NoMemory>
        requires { IsSomewhere login.now stand.old }
        ensures { IfOk result (λ stop.
            EachRuns login.now call.now self.old stand.old stop self.new stand.new) }
    {
        'steps: loop {
            let part = self.part(login, call);
            match stand.step(alloc, login, call, part)? {
                Step::Stays => continue,
                Step::Passes => self.pass()?,
                Step::Reverts => self.revert(),
                Step::Stops(stop) => return Ok(stop),
            }
        }
    }
}
