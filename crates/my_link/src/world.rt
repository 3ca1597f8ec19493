//! The outside of a run.
ghost use Rattle.std.specs.Prelude.{◌≡◌, true, OnOk, OnErr};
ghost use Rattle.my_link.specs.World.{SamePlans, IsMoment, IsDrawn, drawn};
ghost use Rattle.my_link.specs.Plan.{plans_on, chance_on};

use crate::aid::Aid;
use crate::dialer::Dialer;
use crate::line::WorldLine;
use my_frame::NoMemory;

/// The outside of a run: it dials links, lends files and texts, and tells the time.
pub trait World: Dialer + Aid {
    /// Whether it takes the lines of a plan.
    fn plans(&self) -> bool
        ensures { result ≡ (Self.seen self.now).takes };

    /// Takes a line of its plan.
    fn prepare(&mut self, line: &WorldLine) -> Result<(), NoMemory>
        requires { (Self.seen self.old).takes ≡ true }
        ensures ok { OnOk result (SamePlans (plans_on line.now (Self.seen self.old).plans) (Self.seen self.new).plans) }
        ensures moved { OnOk result ((Self.seen self.new).chance ≡ chance_on line.now (Self.seen self.old).chance) }
        ensures err { OnErr result (SamePlans (Self.seen self.old).plans (Self.seen self.new).plans) }
        ensures stays { OnErr result ((Self.seen self.new).chance ≡ (Self.seen self.old).chance) }
        ensures takes { (Self.seen self.new).takes ≡ (Self.seen self.old).takes }
        ensures dials { (Self.seen self.new).dials ≡ (Self.seen self.old).dials }
        ensures back { (Self.seen self.new).back ≡ (Self.seen self.old).back };

    /// The time, in milliseconds.
    fn now(&mut self) -> u64
        ensures told { IsMoment (Self.seen self.old).chance.moment result }
        ensures chance { (Self.seen self.new).chance ≡ (Self.seen self.old).chance }
        ensures plans { SamePlans (Self.seen self.old).plans (Self.seen self.new).plans }
        ensures takes { (Self.seen self.new).takes ≡ (Self.seen self.old).takes }
        ensures dials { (Self.seen self.new).dials ≡ (Self.seen self.old).dials }
        ensures back { (Self.seen self.new).back ≡ (Self.seen self.old).back };

    /// The next random word.
    fn random(&mut self) -> u64
        ensures told { IsDrawn (Self.seen self.old).chance.randoms result }
        ensures chance { (Self.seen self.new).chance ≡ drawn (Self.seen self.old).chance }
        ensures plans { SamePlans (Self.seen self.old).plans (Self.seen self.new).plans }
        ensures takes { (Self.seen self.new).takes ≡ (Self.seen self.old).takes }
        ensures dials { (Self.seen self.new).dials ≡ (Self.seen self.old).dials }
        ensures back { (Self.seen self.new).back ≡ (Self.seen self.old).back };
}
