//! What of a link's plan may still be met.

ghost use Rattle.std.specs.Prelude.{◌≡◌, true};
ghost use Rattle.std.specs.Bool.{Decides};
ghost use Rattle.my_run_judge.specs.Plan.Left.{
  AreKept,
  EndPlanned,
  IsKept,
  IsPlanned,
  after_use,
  after_uses,
  alike,
  first_left,
};

use crate::plan::planned::LinkPlan;
use my_link::Met;
use my_script::Use;

/// What of a link's plan may still be met.
#[derive(Clone, Copy)]
pub struct Left {
    /// How often it may fail.
    pub faults: u64,
    /// How many bytes of its tape are the plan's and weren't taken yet.
    pub bytes: u64,
    /// How many bytes the plan has up to its end.
    pub until_end: u64,
    /// Whether it ends.
    pub ends: bool,
    /// How many bytes of the tape, from the first that is another than the plan's.
    pub others: u64,
}

// How many bytes of the first are those of the second, from the beginning on.
fn alike(taken: &[u8], bytes: &[u8]) -> u64
    ensures { result ≡ alike taken.now bytes.now }
{
    let mut left = taken;
    let mut others = bytes;
    let mut count = 0;
    'bytes: while let Some((byte, later)) = left.split_first() {
        let Some((other, more)) = others.split_first() else {
            return count;
        };
        if byte != other {
            return count;
        }
        count += 1;
        left = later;
        others = more;
    }
    count
}

impl Left {
    /// Before the first line, of a link whose tape has these bytes.
    pub fn first(plan: &LinkPlan, taken: &[u8]) -> Left
        ensures { result ≡ first_left plan.now taken.now }
    {
        let bytes = alike(taken, plan.bytes.as_slice());
        Left {
            faults: plan.faults,
            bytes,
            until_end: plan.bytes.len() as u64,
            ends: plan.ends,
            others: (taken.len() as u64).saturating_sub(bytes),
        }
    }

    fn end_planned(&self, met: &Met) -> bool
        ensures { Decides result (EndPlanned self.now met.now) }
    {
        met.ends == 0 || (self.ends && met.taken == self.until_end)
    }

    fn plans(&self, met: &Met) -> bool
        ensures { Decides result (IsPlanned self.now met.now) }
    {
        met.faults <= self.faults && met.taken <= self.bytes && self.end_planned(met)
    }

    fn keeps(&self, number: u64, used: &Use) -> bool
        ensures { Decides result (IsKept number self.now used.now) }
    {
        used.number != number || self.plans(&used.met)
    }

    fn after(self, number: u64, used: &Use) -> Left
        ensures { result ≡ after_use number self used.now }
    {
        if used.number != number {
            return self;
        }
        Left {
            faults: self.faults.saturating_sub(used.met.faults),
            bytes: self.bytes.saturating_sub(used.met.taken),
            until_end: self.until_end.saturating_sub(used.met.taken),
            ends: self.ends,
            others: self.others,
        }
    }

    /// Whether the uses of a line are planned; they are taken from what is left.
    pub fn meets(&mut self, number: u64, uses: &[Use]) -> bool
        ensures kept { Decides result (AreKept number self.old uses.now) }
        ensures left { result ≡ true → self.new ≡ after_uses number self.old uses.now }
    {
        let mut left = uses;
        'uses: while let Some((used, later)) = left.split_first() {
            if !self.keeps(number, used) {
                return false;
            }
            *self = self.after(number, used);
            left = later;
        }
        true
    }
}
