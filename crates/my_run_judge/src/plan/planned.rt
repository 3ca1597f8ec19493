//! What the lines of a plan say of a link.

ghost use Rattle.std.specs.Prelude.{◌≡◌, ◌≤◌, ◌+◌, ◌<◌, ◌^◌, [], false, IfOk, OnOk};
ghost use Rattle.my_run_judge.specs.Plan.Planned.{no_plan, plan_on, plan_with, planned, with_bytes};
ghost use Rattle.my_link.specs.Plan.{items_of, packet_of, writes_of};

use my_frame::NoMemory;
use my_link::WorldLine;
use std::alloc::Global;
use std::marker::Model;

/// What a link may give, by the lines of a plan.
#[derive(Drop)]
pub struct LinkPlan {
    /// The bytes up to its first end.
    pub bytes: Vec<u8>,
    /// How often its reads may fail before it ends, and its writes.
    pub faults: u64,
    /// Whether it ends.
    pub ends: bool,
}

impl Model for LinkPlan {
    ghost use Rattle.my_run_judge.specs.Plan.Planned.{PlanSeen};

    ghost Value = { PlanSeen };

    ghost view = { λ p. record { bytes = p.bytes.items; faults = p.faults; ends = p.ends } };
}

impl LinkPlan {
    fn new(alloc: Global) -> LinkPlan
        ensures { result ≡ no_plan }
    {
        LinkPlan {
            bytes: Vec::new(alloc),
            faults: 0,
            ends: false,
        }
    }

    fn packet(&mut self, number: u8, payload: &[u8]) -> Result<(), NoMemory>
        ensures { OnOk result (self.new ≡ with_bytes self.old (packet_of number payload.now)) }
    {
        let len = payload.len();
        let header = [
            (len % 256) as u8,
            (len / 256 % 256) as u8,
            (len / 65536 % 256) as u8,
            number,
        ];
        self.bytes.extend_from_slice(&header)?;
        self.bytes.extend_from_slice(payload)?;
        Ok(())
    }

    fn raw(&mut self, bytes: &[u8]) -> Result<(), NoMemory>
        ensures { OnOk result (self.new ≡ with_bytes self.old bytes.now) }
    {
        self.bytes.extend_from_slice(bytes)?;
        Ok(())
    }

    #[tactic(auto, using(crate::proofs::Planning::read_whole, crate::proofs::Planning::read_dripped))]
    // What a line gives to be read, of a link that didn't end before it.
    fn read(&mut self, line: &WorldLine) -> Result<(), NoMemory>
        requires room { self.old.faults + 1 < 2 ^ 64 }
        requires open { self.old.ends ≡ false }
        ensures plan { OnOk result (self.new ≡ plan_on self.old (items_of line.now) []) }
        ensures within { OnOk result (self.new.faults ≤ self.old.faults + 1) }
    {
        match line {
            WorldLine::Packet(_, number, payload) | WorldLine::Drip(_, number, payload) => {
                self.packet(*number, payload.as_slice())
            }
            WorldLine::Bytes(_, bytes) => self.raw(bytes.as_slice()),
            WorldLine::Fail(_) => {
                self.faults += 1;
                Ok(())
            }
            WorldLine::End(_) => {
                self.ends = true;
                Ok(())
            }
            _ => Ok(()),
        }
    }

    // What it gives for writes.
    fn written(&mut self, line: &WorldLine)
        requires { self.old.faults + 1 < 2 ^ 64 }
        ensures plan { self.new ≡ plan_on self.old [] (writes_of line.now) }
        ensures within { self.new.faults ≤ self.old.faults + 1 }
    {
        match line {
            WorldLine::WriteFail(_) => self.faults += 1,
            _ => {}
        }
    }

    // A line more.
    fn add(&mut self, number: u64, line: &WorldLine) -> Result<(), NoMemory>
        requires { self.old.faults + 2 < 2 ^ 64 }
        ensures plan { OnOk result (self.new ≡ plan_with number self.old line.now) }
        ensures within { OnOk result (self.new.faults ≤ self.old.faults + 2) }
    {
        if line.link() != number {
            return Ok(());
        }
        if !self.ends {
            self.read(line)?;
        }
        self.written(line);
        Ok(())
    }
}

/// What the lines of a plan say of the link with this number.
pub fn plan_of(alloc: Global, number: u64, lines: &[WorldLine]) -> Result<LinkPlan, NoMemory>
    ensures { IfOk result (λ plan. plan ≡ planned number lines.now) }
{
    let mut plan = LinkPlan::new(alloc);
    let mut left = lines;
    'lines: while let Some((line, later)) = left.split_first() {
        plan.add(number, line)?;
        left = later;
    }
    Ok(plan)
}
