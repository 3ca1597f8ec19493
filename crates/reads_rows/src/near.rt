//! A world that has a server in memory at one host.

use my_frame::{NoMemory, SourceStep};
use my_link::{
    AfterConnect, AfterStep, Aid, DialStep, Dialer, GlobalHandler, MemLink, MemWorld, Opening,
    ReadyLink, World, WorldLine,
};
use my_opts_parts::Target;
use std::alloc::Global;

/// A world in memory, whose links are always ready. Only this host and port are there; other dials fail.
#[derive(Drop)]
pub struct NearWorld<'a> {
    inner: MemWorld,
    host: &'a str,
    port: u16,
    // Whether lines of its plan are taken: none is.
    plans: bool,
    faults: u64,
}

impl<'a> NearWorld<'a> {
    pub fn new(inner: MemWorld, host: &'a str, port: u16) -> NearWorld<'a> {
        NearWorld {
            inner,
            host,
            port,
            plans: false,
            faults: 0,
        }
    }

    fn has(&self, target: &Target) -> bool {
        match target {
            Target::Socket(_) => false,
            Target::Tcp { host, port, .. } => host.as_str() == self.host && *port == self.port,
        }
    }
}

impl Dialer for NearWorld<'_> {
    ghost use Rattle.std.specs.Prelude.{None};
    ghost use Rattle.my_link.specs.Dials.{no_chance};

    type L = ReadyLink<MemLink>;

    ghost seen = { λ w. record {
      takes = w.plans;
      plans = record { reads = λ n. None; writes = λ n. None; dials = λ n. None };
      dials = record { faults = w.faults; holds = 0 };
      chance = no_chance;
      back = None;
    } };

    fn dial(&mut self, number: u64, target: &Target) -> DialStep<ReadyLink<MemLink>> {
        if self.has(target) {
            match self.inner.dial(number, target) {
                DialStep::Link(link) => return DialStep::Link(ReadyLink::new(link)),
                DialStep::NotYet | DialStep::Failed => {}
            }
        }
        self.faults = self.faults.saturating_add(1);
        DialStep::Failed
    }

    fn hang_up(&mut self, _number: u64, link: ReadyLink<MemLink>) -> Result<(), NoMemory> {
        drop(link);
        Ok(())
    }
}

impl GlobalHandler for NearWorld<'_> {
    ghost use Rattle.std.specs.Prelude.{[], Some};

    ghost file = { λ w. record { left = Some []; faults = 0 } };

    fn open_file(&mut self, _name: &[u8]) -> Opening {
        Opening::Absent
    }

    fn read(&mut self, _buf: &mut [u8]) -> SourceStep {
        SourceStep::End
    }
}

impl AfterConnect for NearWorld<'_> {
    ghost use Rattle.my_link.specs.Aid.{no_texts};

    ghost texts = { λ w. no_texts };

    fn next(&mut self, _alloc: Global, _n: u64) -> Result<AfterStep, NoMemory> {
        Ok(AfterStep::Done)
    }
}

impl Aid for NearWorld<'_> {}

impl World for NearWorld<'_> {
    fn plans(&self) -> bool {
        self.plans
    }

    fn prepare(&mut self, _line: &WorldLine) -> Result<(), NoMemory> {
        Ok(())
    }

    fn now(&mut self) -> u64 {
        5
    }

    fn random(&mut self) -> u64 {
        0
    }
}
