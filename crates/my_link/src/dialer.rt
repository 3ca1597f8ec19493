//! What dials links.
ghost use Rattle.std.specs.Prelude.{◌≡◌, None, OnOk, OnErr};
ghost use Rattle.my_link.specs.Outside.{no_counts};
ghost use Rattle.my_link.specs.Dials.{WorldSeen, SameBut, SameLink, SamePlans, IfLink, IfNoLink, PlaysDial, CountsDial, IsFresh, with_back};

use crate::link::Link;
use my_frame::NoMemory;
use my_opts_parts::Target;

/// What the dials of a link do before one gives it, one item after another. With no item left a dial gives the link.
#[derive(Clone, Copy, PartialEq, Eq)]
pub enum DialItem {
    /// The next dial isn't ready, once.
    Wait,
    /// The next dial fails, once.
    Fail,
}

/// What a dial returns.
#[derive(Drop)]
pub enum DialStep<L> {
    Link(L),
    NotYet,
    Failed,
}

/// What dials links, and takes them back.
pub trait Dialer {
    /// Code that is generic over the dialer can't let a link go: only `hang_up` ends it.
    type L: Link;

    /// The plan of each link and of its dials where it is known, how often a dial failed and wasn't ready, what was handed back
    /// where that is told, and what no dial changes. A count has one more after each such result, until it is at its greatest value.
    ghost seen: { Self → WorldSeen };

    /// Dials the link of `number` at `target`.
    fn dial(&mut self, number: u64, target: &Target) -> DialStep<Self::L>
        ensures items { IfLink result (λ l. (Self.L.looks l).items ≡ (seen self.old).plans.reads number) }
        ensures writes { IfLink result (λ l. (Self.L.looks l).writes ≡ (seen self.old).plans.writes number) }
        ensures got { IfLink result (λ l. IsFresh (Self.L.looks l).got) }
        ensures counts { IfLink result (λ l. (Self.L.looks l).counts ≡ no_counts) }
        ensures told { PlaysDial ((seen self.old).plans.dials number) ((seen self.new).plans.dials number) result }
        ensures kept { IfNoLink result (SameLink (seen self.old).plans (seen self.new).plans number) }
        ensures others { SameBut number (seen self.old).plans (seen self.new).plans }
        ensures takes { (seen self.new).takes ≡ (seen self.old).takes }
        ensures chance { (seen self.new).chance ≡ (seen self.old).chance }
        ensures dials { CountsDial (seen self.old).dials (seen self.new).dials result }
        ensures back { (seen self.new).back ≡ (seen self.old).back };

    /// Takes back the link of `number`, which ends it. Out of memory the link ends, too, and from then on what was handed back
    /// isn't told.
    fn hang_up(&mut self, number: u64, link: Self::L) -> Result<(), NoMemory>
        ensures back { OnOk result ((seen self.new).back ≡ with_back number (Self.L.looks link) (seen self.old).back) }
        ensures untold { OnErr result ((seen self.new).back ≡ None) }
        ensures plans { SamePlans (seen self.old).plans (seen self.new).plans }
        ensures takes { (seen self.new).takes ≡ (seen self.old).takes }
        ensures chance { (seen self.new).chance ≡ (seen self.old).chance }
        ensures dials { (seen self.new).dials ≡ (seen self.old).dials };
}
