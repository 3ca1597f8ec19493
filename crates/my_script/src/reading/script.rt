//! Reads all lines of a script.
ghost use Rattle.std.specs.Prelude.{◌≡◌, [], IfOk, OnOk, take};
ghost use Rattle.my_script.specs.Script.{Script as Scripts, front, with_item, admitted as admits, admitted_step, admitted_moving, read_as, read_into, script_of, StandsIn};

use super::cut::cut;
use super::item::Item;
use super::line::read_line;
use crate::Step;
use my_frame::{Blob, NoMemory};
use my_link::WorldLine;
use std::alloc::Global;

/// How many `conn` lines read.
const MOST_CONNS: u64 = 1000;

/// How many bytes are shown of a line that doesn't read.
const LONGEST_SHOWN: usize = 200;

/// A script: the lines of its world, then its steps.
#[derive(Drop)]
pub struct Script {
    pub plan: Vec<WorldLine>,
    pub steps: Vec<Step>,
}

/// A line that doesn't read.
#[derive(Drop)]
pub struct BadLine {
    /// Its number, from 1.
    pub number: u64,
    /// Its first 200 bytes.
    pub text: Blob,
}

/// What reading gives: a script, or the first line that doesn't read.
#[derive(Drop)]
pub enum Read {
    Good(Script),
    Bad(BadLine),
}

/// What the lines before a line were.
#[derive(Clone, Copy)]
pub struct Sofar {
    pub stepped: bool,
    pub conns: u64,
}

// A step that moves the world is there only where the world plans.
fn admitted_by_move(plans: bool, sofar: Sofar) -> Option<Sofar>
    ensures { result ≡ admitted_moving plans sofar }
{
    if !plans {
        return None;
    }
    Some(Sofar {
        stepped: true,
        conns: sofar.conns,
    })
}

fn admitted_by_step(plans: bool, sofar: Sofar, step: &Step) -> Option<Sofar>
    ensures { result ≡ admitted_step plans sofar step.now }
{
    match step {
        Step::Conn => {
            if sofar.conns >= MOST_CONNS {
                return None;
            }
            Some(Sofar {
                stepped: true,
                conns: sofar.conns + 1,
            })
        }
        Step::Advance(_) | Step::Random(_) => admitted_by_move(plans, sofar),
        _ => Some(Sofar {
            stepped: true,
            conns: sofar.conns,
        }),
    }
}

// The beginning of a line that a message shows.
fn shown(line: &[u8]) -> &[u8]
    ensures { result.now ≡ take 200 line.now }
{
    if line.len() > LONGEST_SHOWN {
        return &line[..LONGEST_SHOWN];
    }
    line
}

fn bad_line(alloc: Global, number: u64, line: &[u8]) -> Result<BadLine, NoMemory>
    ensures number { IfOk result (λ bad. bad.number ≡ number) }
    ensures text { IfOk result (λ bad. bad.text ≡ take 200 line.now) }
{
    Ok(BadLine {
        number,
        text: Blob::from_slice(alloc, shown(line))?,
    })
}

// The lines up to this one, where it may stand there.
fn admitted(plans: bool, sofar: Sofar, item: &Item) -> Option<Sofar>
    ensures { result ≡ admits plans sofar item.now }
{
    match item {
        Item::Nothing => Some(sofar),
        Item::Plans(_) => {
            if !plans || sofar.stepped {
                return None;
            }
            Some(sofar)
        }
        Item::Steps(step) => admitted_by_step(plans, sofar, step),
        Item::Wrong => None,
    }
}

fn add(script: &mut Script, item: Item) -> Result<(), NoMemory>
    ensures { OnOk result ((more : Scripts) → front script.new.plan.items script.new.steps.items more
        ≡ front script.old.plan.items script.old.steps.items (with_item item more)) }
{
    match item {
        Item::Nothing | Item::Wrong => Ok(()),
        Item::Plans(line) => {
            script.plan.push(line)?;
            Ok(())
        }
        Item::Steps(step) => {
            script.steps.push(step)?;
            Ok(())
        }
    }
}

// Reads the lines into a script, up to the first that doesn't read.
fn read_lines(
    alloc: Global,
    plans: bool,
    script: &mut Script,
    bytes: &[u8],
) -> Result<Option<BadLine>, NoMemory>
    requires plan { script.old.plan.items ≡ [] }
    requires steps { script.old.steps.items ≡ [] }
    ensures { IfOk result (λ bad. read_into script.new bad ≡ script_of plans bytes.now) }
{
    let mut sofar = Sofar {
        stepped: false,
        conns: 0,
    };
    let mut number = 1u64;
    let mut rest = Some(bytes);
    'lines: while let Some(text) = rest {
        let pieces = cut(b'\n', text);
        let item = read_line(alloc, pieces.first)?;
        let Some(after) = admitted(plans, sofar, &item) else {
            drop(item);
            return Ok(Some(bad_line(alloc, number, pieces.first)?));
        };
        sofar = after;
        add(script, item)?;
        number += 1;
        rest = pieces.rest;
    }
    Ok(None)
}

/// Reads all lines. World lines stand before the first step; they and the steps that move the world read only where it
/// `plans`.
pub fn read_script(alloc: Global, plans: bool, bytes: &[u8]) -> Result<Read, NoMemory>
    ensures read { IfOk result (λ read. read_as read ≡ script_of plans bytes.now) }
    ensures stands { IfOk result (λ read. StandsIn plans (read_as read)) }
{
    let mut script = Script {
        plan: Vec::new(alloc),
        steps: Vec::new(alloc),
    };
    match read_lines(alloc, plans, &mut script, bytes) {
        Ok(None) => Ok(Read::Good(script)),
        Ok(Some(line)) => {
            drop(script);
            Ok(Read::Bad(line))
        }
        Err(error) => {
            drop(script);
            Err(error)
        }
    }
}
