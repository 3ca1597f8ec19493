//! What stands beside the connections of a run, by their numbers: streams, transactions, and the aims of open calls.
ghost use Rattle.std.specs.Prelude.{◌≡◌, ℕ, OnOk};
ghost use Rattle.my_script.specs.Beside.{beside_by, nothing_beside};
ghost use Rattle.my_script.specs.Streams.{target};
ghost use Rattle.my_run.specs.Beside.{aim_in, beside_in, is_found_in};

use my_frame::NoMemory;
use my_script::{Aim, Beside, Outcome, Step, target};
use std::alloc::Global;
use std::collections::BTreeMap;

/// What the steps so far made, by number.
#[derive(Drop)]
pub(crate) struct BesideEach {
    made: BTreeMap<u64, Beside>,
}

impl BesideEach {
    pub(crate) fn new(alloc: Global) -> BesideEach
        ensures { (n : ℕ) → beside_in result n ≡ nothing_beside }
    {
        BesideEach {
            made: BTreeMap::new(alloc),
        }
    }

    fn at(&self, number: u64) -> Beside
        ensures { result ≡ beside_in self.now number }
    {
        match self.made.get(&number) {
            None => Beside::new(),
            Some(beside) => *beside,
        }
    }

    /// Whether the step finds its stream or its transaction at the number that it names.
    pub(crate) fn is_found(&self, step: &Step) -> bool
        ensures { result ≡ is_found_in self.now (target step.now) step.now }
    {
        match target(step) {
            None => true,
            Some(number) => self.at(number).finds(step),
        }
    }

    /// The aim of the call that is open at the number that the step names.
    pub(crate) fn aim(&self, step: &Step) -> Aim
        ensures { result ≡ aim_in self.now (target step.now) }
    {
        match target(step) {
            None => Aim::Row,
            Some(number) => self.at(number).aim,
        }
    }

    /// A step came to this.
    pub(crate) fn note(&mut self, step: &Step, outcome: &Outcome) -> Result<(), NoMemory>
        ensures { OnOk result (
            (n : ℕ) → beside_in self.new n ≡ beside_by n (beside_in self.old n) step.now outcome.now) }
    {
        let Some(number) = target(step) else {
            return Ok(());
        };
        let beside = self.at(number).after(step, outcome);
        self.made.insert(number, beside)?;
        Ok(())
    }
}
