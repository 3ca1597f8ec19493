//! A world in memory, which plays its plan.
ghost use Rattle.std.specs.Prelude.{ℕ, ◌≡◌, ◌≢◌, ◌∷◌, [], true, false, length, IfOk, OnOk, OnErr, ◌==◌, ◌<◌, if◌then◌else◌};
ghost use Rattle.my_link.specs.MemLink.{unread, unwritten, counted, sent_to};
ghost use Rattle.my_link.specs.Outside.{no_counts};
ghost use Rattle.my_link.specs.Link.{accept_back};
ghost use Rattle.my_link.specs.Memory.{is_filled};
ghost use Rattle.my_link.specs.Items.{no_items};
ghost use Rattle.my_link.specs.Plan.{given_by, packet_of, dripped, bytes_item};
ghost use Rattle.my_link.specs.MemParts.{PartIs};
ghost use Rattle.my_link.specs.Planned.{added, is_lawful, items_at, items_with, place_at};

pub(crate) mod dials;

use crate::aid::{AfterConnect, AfterStep, Aid, GlobalHandler, Opening};
use crate::dialer::{DialItem, DialStep, Dialer};
use crate::line::WorldLine;
use crate::link::{ReadItem, WriteItem};
use crate::mem_world::dials::{PlannedDial, take_dial};
use crate::memory::MemLink;
use crate::memory::planned::{Addition, Planned};
use crate::memory::writes::Writes;
use crate::world::World;
use my_frame::{Blob, NoMemory, SourceStep};
use my_opts_parts::Target;
use std::alloc::Global;
use std::collections::VecDeque;

// A link that was handed back.
#[derive(Drop)]
struct EndedLink {
    number: u64,
    link: MemLink,
}

/// A world in memory. Each link has the items of the lines with its number, in order, for reads, for writes and for dials
/// apart. Its moment begins at 0. No file is there, and no text follows a login.
#[derive(Drop)]
pub struct MemWorld {
    alloc: Global,
    links: Vec<Planned>,
    dials: Vec<PlannedDial>,
    faults: u64,
    holds: u64,
    moment: u64,
    randoms: VecDeque<u64>,
    // The links that were handed back, the first of them first.
    ended: Vec<EndedLink>,
    // Whether one was handed back that isn't there, for want of memory.
    lost: bool,
}

fn packet_bytes(alloc: Global, number: u8, payload: &[u8]) -> Result<Vec<u8>, NoMemory>
    ensures { IfOk result (λ bytes. bytes.items ≡ packet_of number payload.now) }
{
    let len = payload.len();
    let mut bytes = Vec::new(alloc);
    bytes.push((len % 256) as u8)?;
    bytes.push((len / 256 % 256) as u8)?;
    bytes.push((len / 65536 % 256) as u8)?;
    bytes.push(number)?;
    bytes.extend_from_slice(payload)?;
    Ok(bytes)
}

// One item to be read.
fn one(alloc: Global, item: ReadItem) -> Result<Addition, NoMemory>
    requires { is_filled item ≡ true }
    ensures added { IfOk result (λ a. added a ≡ record { reads = item ∷ []; writes = [] }) }
    ensures lawful { IfOk result (λ a. is_lawful a ≡ true) }
{
    let mut items = Vec::new(alloc);
    items.push(item)?;
    Ok(Addition::Reads(items))
}

// Each byte by itself; after it the next read isn't ready, once.
fn drip(alloc: Global, bytes: &[u8]) -> Result<Addition, NoMemory>
    ensures added { IfOk result (λ a. added a ≡ record { reads = dripped bytes.now; writes = [] }) }
    ensures lawful { IfOk result (λ a. is_lawful a ≡ true) }
{
    let mut items = Vec::new(alloc);
    for byte in bytes {
        items.push(ReadItem::Bytes(Blob::from_slice(alloc, &[*byte])?))?;
        items.push(ReadItem::Wait)?;
    }
    Ok(Addition::Reads(items))
}

fn read_bytes(alloc: Global, bytes: &Blob) -> Result<Addition, NoMemory>
    ensures added { IfOk result (λ a. added a ≡ record { reads = bytes_item bytes.now; writes = [] }) }
    ensures lawful { IfOk result (λ a. is_lawful a ≡ true) }
{
    if bytes.is_empty() {
        return Ok(Addition::Nothing);
    }
    Ok(one(alloc, ReadItem::Bytes(bytes.copy(alloc)?))?)
}

fn accept(count: u64) -> Addition
    ensures added { added result ≡ record { reads = []; writes = accept_back count [] } }
    ensures lawful { is_lawful result ≡ true }
{
    if count == 0 {
        return Addition::Nothing;
    }
    Addition::Write(WriteItem::Accept(count))
}

fn addition(alloc: Global, line: &WorldLine) -> Result<Addition, NoMemory>
    ensures added { IfOk result (λ a. added a ≡ given_by line.now) }
    ensures lawful { IfOk result (λ a. is_lawful a ≡ true) }
{
    match line {
        WorldLine::Packet(_, number, payload) => {
            let bytes = packet_bytes(alloc, *number, payload.as_slice())?;
            Ok(one(alloc, ReadItem::Bytes(Blob::from(bytes)))?)
        }
        WorldLine::Drip(_, number, payload) => {
            let bytes = packet_bytes(alloc, *number, payload.as_slice())?;
            drip(alloc, &bytes)
        }
        WorldLine::Bytes(_, bytes) => read_bytes(alloc, bytes),
        WorldLine::Turn(_) => Ok(one(alloc, ReadItem::Turn)?),
        WorldLine::Wait(_) => Ok(one(alloc, ReadItem::Wait)?),
        WorldLine::Fail(_) => Ok(one(alloc, ReadItem::Fail)?),
        WorldLine::End(_) => Ok(one(alloc, ReadItem::End)?),
        WorldLine::Accept(_, count) => Ok(accept(*count)),
        WorldLine::WriteWait(_) => Ok(Addition::Write(WriteItem::Wait)),
        WorldLine::WriteFail(_) => Ok(Addition::Write(WriteItem::Fail)),
        WorldLine::DialWait(_)
        | WorldLine::DialFail(_)
        | WorldLine::Advance(_)
        | WorldLine::Random(_) => Ok(Addition::Nothing),
    }
}

// The place of the entry of this number, or the end.
fn place_of(links: &[Planned], number: u64) -> usize
    ensures { result ≡ place_at number links.now }
{
    for (i, planned) in links.iter().enumerate() {
        if planned.number() == number {
            return i;
        }
    }
    links.len()
}

impl MemWorld {
    /// A world whose plan has no lines.
    pub fn new(alloc: Global) -> MemWorld
        ensures items { (n : ℕ) → items_at n result.links.items ≡ no_items }
        ensures dials { result.dials.items ≡ [] }
        ensures faults { result.faults ≡ 0 }
        ensures holds { result.holds ≡ 0 }
        ensures moment { result.moment ≡ 0 }
        ensures randoms { result.randoms.items ≡ [] }
        ensures ended { result.ended.items ≡ [] }
        ensures lost { result.lost ≡ false }
    {
        MemWorld {
            alloc,
            links: Vec::new(alloc),
            dials: Vec::new(alloc),
            faults: 0,
            holds: 0,
            moment: 0,
            randoms: VecDeque::new(alloc),
            ended: Vec::new(alloc),
            lost: false,
        }
    }
}

// The place of the entry of this number, which is made where there is none.
fn entry(alloc: Global, links: &mut Vec<Planned>, number: u64) -> Result<usize, NoMemory>
    ensures place { IfOk result (λ place. place ≡ place_at number links.new.items) }
    ensures within { IfOk result (λ place. place < length links.new.items) }
    ensures same { (n : ℕ) → items_at n links.new.items ≡ items_at n links.old.items }
{
    let place = place_of(links, number);
    if place >= links.len() {
        links.push(Planned::new(alloc, number))?;
    }
    Ok(place)
}

fn add(
    alloc: Global,
    links: &mut Vec<Planned>,
    number: u64,
    addition: Addition,
) -> Result<(), NoMemory>
    requires { is_lawful addition ≡ true }
    ensures ok { OnOk result ((n : ℕ) → items_at n links.new.items ≡ items_with number addition n links.old.items) }
    ensures err { OnErr result ((n : ℕ) → items_at n links.new.items ≡ items_at n links.old.items) }
{
    let place = entry(alloc, links, number)?;
    links[place].add(addition)?;
    Ok(())
}

// The link of this number, with all of its items.
fn take_link(alloc: Global, links: &mut Vec<Planned>, number: u64) -> MemLink
    ensures reads { unread result ≡ (items_at number links.old.items).reads }
    ensures writes { unwritten result ≡ (items_at number links.old.items).writes }
    ensures counts { counted result ≡ no_counts }
    ensures got { sent_to result ≡ [] }
    ensures others { (n : ℕ) → n ≢ number → items_at n links.new.items ≡ items_at n links.old.items }
{
    let place = place_of(links, number);
    if place >= links.len() {
        return MemLink::new(alloc, Vec::new(alloc), Writes::new(alloc));
    }
    let (reads, writes) = links[place].take(alloc);
    MemLink::new(alloc, reads, writes)
}

// What a line is a plan of.
enum Part {
    Links,
    Dial(PlannedDial),
    Advance(u64),
    Random(u64),
}

fn part_of(line: &WorldLine) -> Part
    ensures { PartIs line.now result }
{
    match line {
        WorldLine::DialWait(number) => Part::Dial(PlannedDial {
            number: *number,
            item: DialItem::Wait,
        }),
        WorldLine::DialFail(number) => Part::Dial(PlannedDial {
            number: *number,
            item: DialItem::Fail,
        }),
        WorldLine::Advance(by) => Part::Advance(*by),
        WorldLine::Random(word) => Part::Random(*word),
        WorldLine::Packet(_, _, _)
        | WorldLine::Bytes(_, _)
        | WorldLine::Turn(_)
        | WorldLine::Wait(_)
        | WorldLine::Fail(_)
        | WorldLine::End(_)
        | WorldLine::Drip(_, _, _)
        | WorldLine::Accept(_, _)
        | WorldLine::WriteWait(_)
        | WorldLine::WriteFail(_) => Part::Links,
    }
}

impl Dialer for MemWorld {
    ghost use Rattle.my_link.specs.MemWorld.{world_of};

    type L = MemLink;

    ghost seen = { λ w. world_of w.links.items w.dials.items (record { faults = w.faults; holds = w.holds })
        w.moment w.randoms.items w.ended.items w.lost };

    // Every target is at the links in memory.
    fn dial(&mut self, number: u64, _target: &Target) -> DialStep<MemLink> {
        match take_dial(&mut self.dials, number) {
            Some(DialItem::Wait) => {
                self.holds = self.holds.saturating_add(1);
                DialStep::NotYet
            }
            Some(DialItem::Fail) => {
                self.faults = self.faults.saturating_add(1);
                DialStep::Failed
            }
            None => DialStep::Link(take_link(self.alloc, &mut self.links, number)),
        }
    }

    fn hang_up(&mut self, number: u64, link: MemLink) -> Result<(), NoMemory> {
        match self.ended.push(EndedLink { number, link }) {
            Ok(()) => Ok(()),
            Err(_) => {
                self.lost = true;
                Err(NoMemory)
            }
        }
    }
}

impl GlobalHandler for MemWorld {
    ghost use Rattle.std.specs.Prelude.{Some};

    ghost file = { λ w. record { left = Some []; faults = 0 } };

    fn open_file(&mut self, _name: &[u8]) -> Opening
        ensures absent { result ≡ Opening.Absent }
        ensures same { self.new ≡ self.old }
    {
        Opening::Absent
    }

    fn read(&mut self, _buf: &mut [u8]) -> SourceStep
        ensures end { result ≡ SourceStep.End }
        ensures same { self.new ≡ self.old }
    {
        SourceStep::End
    }
}

impl AfterConnect for MemWorld {
    ghost use Rattle.my_link.specs.Aid.{no_texts};

    ghost texts = { λ w. no_texts };

    fn next(&mut self, _alloc: Global, _n: u64) -> Result<AfterStep, NoMemory>
        ensures done { result ≡ Ok AfterStep.Done }
        ensures same { self.new ≡ self.old }
    {
        Ok(AfterStep::Done)
    }
}

impl Aid for MemWorld {}

impl World for MemWorld {
    fn plans(&self) -> bool {
        true
    }

    fn prepare(&mut self, line: &WorldLine) -> Result<(), NoMemory> {
        match part_of(line) {
            Part::Links => {
                let addition = addition(self.alloc, line)?;
                add(self.alloc, &mut self.links, line.link(), addition)?;
            }
            Part::Dial(planned) => self.dials.push(planned)?,
            Part::Advance(by) => self.moment = self.moment.saturating_add(by),
            Part::Random(word) => self.randoms.push_back(word)?,
        }
        Ok(())
    }

    fn now(&mut self) -> u64 {
        self.moment
    }

    // 0, where no random word is left.
    fn random(&mut self) -> u64 {
        self.randoms.pop_front().unwrap_or(0)
    }
}
