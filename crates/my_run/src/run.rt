//! Runs steps in order.
ghost use Rattle.std.specs.Prelude.{◌≡◌, ◌++◌, [], map, true, IfOk, OnErr, OnOk};
ghost use Rattle.std.specs.List.{list_all};
ghost use Rattle.my_script.specs.Script.{may_stand};
ghost use Rattle.my_steps.specs.Dialing.{course_of};
ghost use Rattle.my_client.specs.Conn.{kept_in};
ghost use Rattle.my_session.specs.Login.{login_of};
ghost use Rattle.my_run.specs.Headline.{RunSoFar, RunsTo};
ghost use Rattle.my_run.specs.Stopped.{HandedBack, RunStopped, StopsIn, one_link};
ghost use Rattle.my_steps.specs.Slot.{handle_of};
ghost use Rattle.my_run.specs.Tapes.{links_at, links_in, tape_view, tape_of, tape_at, tapes_in, with_links};
ghost use Rattle.my_link.specs.World.{with_back};

use crate::beside::BesideEach;
use crate::statements::statement_for;
use crate::tape::tape_calls;
use my_client::Tape as Kept;
use my_frame::NoMemory;
use my_link::World;
use my_opts::Opts;
use my_script::{NumberedStatements, Step, StepAnswer, Tape, Transcript};
use my_steps::{Slot, run_step};
use std::alloc::Global;

fn run_each<N: World>(
    alloc: Global,
    opts: &Opts,
    world: &mut N,
    slots: &mut Vec<Slot<N::L>>,
    answers: &mut Vec<StepAnswer>,
    steps: &[Step],
) -> Result<(), NoMemory>
    requires no_slots { slots.old.items ≡ [] }
    requires no_answers { answers.old.items ≡ [] }
    requires stand { list_all (may_stand (N.seen world.old).takes) steps.now ≡ true }
    ensures ok { OnOk result (RunSoFar N.L.looks (login_of opts.now) (N.seen world.old).plans
        (course_of (N.seen world.old)) (N.seen world.new) steps.now slots.new.items answers.new.items) }
    ensures err { OnErr result (RunStopped N.L.looks (login_of opts.now) (N.seen world.old).plans
        (course_of (N.seen world.old)) (N.seen world.new) steps.now slots.new.items) }
{
    let mut beside = BesideEach::new(alloc);
    let mut statements = NumberedStatements::new(alloc);
    for (i, step) in steps.iter().enumerate() {
        let found = beside.is_found(step);
        let aim = beside.aim(step);
        let named = statement_for(&statements, step);
        let did = run_step(alloc, opts, world, slots, step, found, aim, named)?;
        beside.note(step, &did.outcome)?;
        statements.note(alloc, step, &did.outcome)?;
        answers.push(StepAnswer {
            number: i as u64 + 1,
            outcome: did.outcome,
            uses: did.uses,
        })?;
    }
    Ok(())
}

// What a connection kept, as a tape at the end of a run, which hands its link back.
fn end_tape<N: World>(
    alloc: Global,
    world: &mut N,
    kept: Kept,
    link: N::L,
    number: u64,
) -> Result<Tape, NoMemory>
    ensures tape { IfOk result (λ t. tape_view t ≡ tape_of number (kept_in kept)) }
    ensures back { OnOk result ((N.seen world.new).back ≡ with_back number (N.L.looks link) (N.seen world.old).back) }
    ensures err { OnErr result (
        HandedBack (one_link number (N.L.looks link)) (N.seen world.old).back (N.seen world.new).back) }
    ensures dials { (N.seen world.new).dials ≡ (N.seen world.old).dials }
    ensures chance { (N.seen world.new).chance ≡ (N.seen world.old).chance }
{
    match world.hang_up(number, link) {
        Ok(()) => {
            let calls = tape_calls(alloc, kept.calls, kept.pending)?;
            Ok(Tape {
                number,
                sent: kept.sent,
                taken: kept.taken,
                calls,
            })
        }
        Err(NoMemory) => {
            drop(kept);
            Err(NoMemory)
        }
    }
}

fn keep_tape<N: World>(
    alloc: Global,
    world: &mut N,
    tapes: &mut Vec<Tape>,
    slot: Slot<N::L>,
    number: u64,
) -> Result<(), NoMemory>
    ensures tape { OnOk result (
        map tape_view tapes.new.items ≡ map tape_view tapes.old.items ++ tape_at number (handle_of N.L.looks slot)) }
    ensures back { OnOk result ((N.seen world.new).back ≡
        with_links (links_at number (handle_of N.L.looks slot)) (N.seen world.old).back) }
    ensures err { OnErr result (
        HandedBack (links_at number (handle_of N.L.looks slot)) (N.seen world.old).back (N.seen world.new).back) }
    ensures dials { (N.seen world.new).dials ≡ (N.seen world.old).dials }
    ensures chance { (N.seen world.new).chance ≡ (N.seen world.old).chance }
{
    match slot.into_parts(alloc) {
        None => Ok(()),
        Some((kept, link)) => {
            tapes.push(end_tape(alloc, world, kept, link, number)?)?;
            Ok(())
        }
    }
}

// The tapes, in the order of their numbers. Each link is handed back, also out of memory.
fn tapes_of<N: World>(
    alloc: Global,
    world: &mut N,
    mut slots: Vec<Slot<N::L>>,
) -> Result<Vec<Tape>, NoMemory>
    ensures tapes { IfOk result (λ tapes.
        map tape_view tapes.items ≡ tapes_in 0 (map (handle_of N.L.looks) slots.items)) }
    ensures back { OnOk result ((N.seen world.new).back ≡
        with_links (links_in 0 (map (handle_of N.L.looks) slots.items)) (N.seen world.old).back) }
    ensures err { OnErr result (HandedBack (links_in 0 (map (handle_of N.L.looks) slots.items))
        (N.seen world.old).back (N.seen world.new).back) }
    ensures dials { (N.seen world.new).dials ≡ (N.seen world.old).dials }
    ensures chance { (N.seen world.new).chance ≡ (N.seen world.old).chance }
{
    let mut tapes = Vec::new(alloc);
    let mut number = 0u64;
    let mut is_whole = true;
    'slots: while !slots.is_empty() {
        match keep_tape(alloc, world, &mut tapes, slots.remove(0), number) {
            Ok(()) => {}
            Err(NoMemory) => is_whole = false,
        }
        number += 1;
    }
    slots.destroy_empty();
    if !is_whole {
        drop(tapes);
        return Err(NoMemory);
    }
    Ok(tapes)
}

/// Runs the steps, and returns what they came to. At the end each link is handed back, also out of memory.
pub(crate) fn run_steps<N: World>(
    alloc: Global,
    opts: &Opts,
    world: &mut N,
    steps: &[Step],
) -> Result<Transcript, NoMemory>
    requires { list_all (may_stand (N.seen world.old).takes) steps.now ≡ true }
    ensures ok { IfOk result (λ t. RunsTo (login_of opts.now) (N.seen world.old).plans
        (course_of (N.seen world.old)) (course_of (N.seen world.new)) steps.now t.answers.items t.tapes.items) }
    ensures err { OnErr result (StopsIn (login_of opts.now) (N.seen world.old).plans
        (course_of (N.seen world.old)) (course_of (N.seen world.new)) steps.now) }
{
    let mut slots = Vec::new(alloc);
    let mut answers = Vec::new(alloc);
    let ran = run_each(alloc, opts, world, &mut slots, &mut answers, steps);
    let tapes = tapes_of(alloc, world, slots);
    match (ran, tapes) {
        (Ok(()), Ok(tapes)) => Ok(Transcript { answers, tapes }),
        (_, tapes) => {
            drop(tapes);
            drop(answers);
            Err(NoMemory)
        }
    }
}
