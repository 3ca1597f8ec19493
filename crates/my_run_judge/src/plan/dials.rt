//! The dials of a number, by a plan.

ghost use Rattle.std.specs.Prelude.{◌≡◌, ◌++◌, IfOk, OnOk};
ghost use Rattle.std.specs.Bool.{Decides};
ghost use Rattle.my_link.specs.Plan.{all_given, dials_of, given_to};
ghost use Rattle.my_run_judge.specs.Plan.Dials.{
  DialKept,
  DialsFound,
  FirstMet,
  dial_leaves,
  dial_meets,
  dials_now,
  items_after,
  passed,
  spot_after,
};

use crate::judging::Found;
use my_frame::NoMemory;
use my_link::{DialItem, Met, WorldLine};
use my_script::{Step, StepAnswer, Use};
use std::alloc::Global;

/// Where the lines so far are in the dials of a number.
#[derive(Clone, Copy, PartialEq, Eq)]
pub enum DialSpot {
    /// It isn't dialed yet, and this number of others are dialed first.
    Ahead(u64),
    /// Its dial wasn't ready.
    Held,
    /// A dial gave the link or failed, or the dial that wasn't ready was dropped.
    Over,
}

// A line more.
fn add_dial(items: &mut Vec<DialItem>, number: u64, line: &WorldLine) -> Result<(), NoMemory>
    ensures { OnOk result (items.new.items ≡ items.old.items ++ given_to dials_of number line.now) }
{
    if line.link() != number {
        return Ok(());
    }
    match line {
        WorldLine::DialWait(_) => items.push(DialItem::Wait)?,
        WorldLine::DialFail(_) => items.push(DialItem::Fail)?,
        _ => {}
    }
    Ok(())
}

/// What the lines of a plan say of the dials of this number.
pub fn dial_items(
    alloc: Global,
    number: u64,
    lines: &[WorldLine],
) -> Result<Vec<DialItem>, NoMemory>
    ensures { IfOk result (λ items. items.items ≡ all_given dials_of number lines.now) }
{
    let mut items = Vec::new(alloc);
    let mut left = lines;
    'lines: while let Some((line, later)) = left.split_first() {
        add_dial(&mut items, number, line)?;
        left = later;
    }
    Ok(items)
}

// Whether a step dials the link of this number.
fn dials_now(number: u64, spot: DialSpot, step: &Step) -> bool
    ensures { result ≡ dials_now number spot step.now }
{
    match spot {
        DialSpot::Ahead(ahead) => match step {
            Step::Conn => ahead == 0,
            _ => false,
        },
        DialSpot::Held => match step {
            Step::Poll(named) => *named == number,
            _ => false,
        },
        DialSpot::Over => false,
    }
}

// What a step leaves that doesn't dial it.
fn passed(number: u64, spot: DialSpot, step: &Step) -> DialSpot
    ensures { result ≡ passed number spot step.now }
{
    match spot {
        DialSpot::Ahead(ahead) => match step {
            Step::Conn => DialSpot::Ahead(ahead.saturating_sub(1)),
            _ => spot,
        },
        DialSpot::Held => match step {
            Step::Cancel(named) if *named == number => DialSpot::Over,
            _ => DialSpot::Held,
        },
        DialSpot::Over => DialSpot::Over,
    }
}

// What a dial meets.
fn dial_meets(items: &[DialItem]) -> Met
    ensures { result ≡ dial_meets items.now }
{
    let mut met = Met::nothing();
    match items.first() {
        Some(DialItem::Wait) => met.holds = 1,
        Some(DialItem::Fail) => met.faults = 1,
        None => {}
    }
    met
}

fn dial_leaves(items: &[DialItem]) -> DialSpot
    ensures { result ≡ dial_leaves items.now }
{
    match items.first() {
        Some(DialItem::Wait) => DialSpot::Held,
        Some(DialItem::Fail) | None => DialSpot::Over,
    }
}

fn first_met(met: Met, uses: &[Use]) -> bool
    ensures { Decides result (FirstMet met uses.now) }
{
    match uses.first() {
        Some(used) => used.met == met,
        None => false,
    }
}

fn dial_kept(dials: bool, items: &[DialItem], uses: &[Use]) -> bool
    ensures { Decides result (DialKept dials items.now uses.now) }
{
    if dials {
        first_met(dial_meets(items), uses)
    } else {
        true
    }
}

fn spot_after(number: u64, dials: bool, spot: DialSpot, items: &[DialItem], step: &Step) -> DialSpot
    ensures { result ≡ spot_after number dials spot items.now step.now }
{
    if dials {
        dial_leaves(items)
    } else {
        passed(number, spot, step)
    }
}

fn items_after(dials: bool, items: &[DialItem]) -> &[DialItem]
    ensures { result.now ≡ items_after dials items.now }
{
    if !dials {
        return items;
    }
    match items.split_first() {
        Some((_item, later)) => later,
        None => items,
    }
}

/// What is found of the dials of this number, which has these items.
pub fn judge_dials(number: u64, items: &[DialItem], steps: &[Step], answers: &[StepAnswer]) -> Found
    ensures { DialsFound number 0 (DialSpot.Ahead number) items.now steps.now answers.now result }
{
    let mut spot = DialSpot::Ahead(number);
    let mut coming = items;
    let mut left = steps;
    let mut others = answers;
    let mut index = 0;
    'lines: while let Some((step, later)) = left.split_first() {
        let Some((answer, more)) = others.split_first() else {
            return Found::Right;
        };
        let dials = dials_now(number, spot, step);
        if !dial_kept(dials, coming, answer.uses.as_slice()) {
            return Found::Wrong(index);
        }
        spot = spot_after(number, dials, spot, coming, step);
        coming = items_after(dials, coming);
        index += 1;
        left = later;
        others = more;
    }
    Found::Right
}
