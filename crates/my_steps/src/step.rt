//! One step, by what it is.
ghost use Rattle.std.specs.Prelude.{◌≡◌, ◌≤◌, [], length, true, IfOk, OnOk};
ghost use Rattle.std.specs.Option.{option_copied};
ghost use Rattle.my_session.specs.Login.{login_of};
ghost use Rattle.my_script.specs.Script.{may_stand};
ghost use Rattle.my_link.specs.World.{SamePlans};
ghost use Rattle.my_link.specs.Plan.{chance_on};
ghost use Rattle.my_steps.specs.Dialing.{DialsTo, chance_by, dial_met, has_dialed};
ghost use Rattle.my_steps.specs.Did.{IsMoving, StepsOn};
ghost use Rattle.my_steps.specs.Orders.{MayCarry, chance_of, dials_by};
ghost use Rattle.my_steps.specs.Grows.{ActionGrows, StepGrows};
ghost use Rattle.my_steps.specs.Midst.{InMidst, number_by, number_of};
ghost use Rattle.my_steps.specs.Slot.{handles_in};

use crate::connect::connect;
use crate::outcome::{StepResult, unused};
use crate::slot::Slot;
use crate::work::work_at;
use my_frame::NoMemory;
use my_link::{World, WorldLine};
use my_opts::Opts;
use my_script::{Action, Aim, Outcome, Step};
use my_statements::Statement;
use std::alloc::Global;

// Hands the world a line that gives no link anything.
fn move_world<N: World>(
    alloc: Global,
    world: &mut N,
    line: &WorldLine,
) -> Result<StepResult, NoMemory>
    requires takes { (N.seen world.old).takes ≡ true }
    requires moves { IsMoving line.now }
    ensures outcome { IfOk result (λ d. d.outcome ≡ Outcome.Done) }
    ensures uses { IfOk result (λ d. d.uses.items ≡ []) }
    ensures plans { OnOk result (SamePlans (N.seen world.old).plans (N.seen world.new).plans) }
    ensures chance { OnOk result ((N.seen world.new).chance ≡ chance_on line.now (N.seen world.old).chance) }
    ensures takes { (N.seen world.new).takes ≡ (N.seen world.old).takes }
    ensures dials { (N.seen world.new).dials ≡ (N.seen world.old).dials }
    ensures back { (N.seen world.new).back ≡ (N.seen world.old).back }
{
    world.prepare(line)?;
    Ok(unused(alloc, Outcome::Done))
}

// Does this at this moment.
fn carry_out<N: World>(
    alloc: Global,
    opts: &Opts,
    world: &mut N,
    slots: &mut Vec<Slot<N::L>>,
    order: Action,
    now: u64,
) -> Result<StepResult, NoMemory>
    requires { MayCarry (N.seen world.old).takes order }
    ensures longer { OnOk result (length slots.old.items ≤ length slots.new.items) }
    ensures takes { (N.seen world.new).takes ≡ (N.seen world.old).takes }
    ensures back { OnOk result ((N.seen world.new).back ≡ (N.seen world.old).back) }
    ensures midst { InMidst (dials_by order (handles_in N.L.looks (N.seen world.old).plans slots.old.items))
        (number_by order (length slots.old.items)) (N.seen world.old) (N.seen world.new)
        slots.old.items slots.new.items }
    ensures chance { OnOk result ((N.seen world.new).chance ≡
        chance_of order (handles_in N.L.looks (N.seen world.old).plans slots.old.items) (N.seen world.old).chance) }
    ensures counts { IfOk result (λ d. DialsTo (N.seen world.old).dials (N.seen world.new).dials
        (dial_met (dials_by order (handles_in N.L.looks (N.seen world.old).plans slots.old.items)) d.uses.items)) }
    ensures steps { IfOk result (λ d.
        StepsOn N.L.looks (login_of opts.now) (N.seen world.old).plans (N.seen world.new).plans
        slots.old.items slots.new.items (λ plans. ActionGrows (login_of opts.now) plans order) d) }
{
    match order {
        Action::Dial => connect(alloc, opts, world, slots, now),
        Action::Move(line) => {
            let moved = move_world(alloc, world, &line);
            drop(line);
            moved
        }
        Action::Visit(number, work) => work_at(alloc, opts, world, slots, number, now, work),
    }
}

/// Does a step at the number that it names, where it finds its stream or its transaction or doesn't, with the aim of the
/// call that is open there, and with the statement that it names; a `conn` takes the next number, and a step that moves
/// the world needs one that takes a plan. All polls of a step are at one moment.
///
/// What the step comes to is what `StepGrows` lets it come to after the earlier ones, for any plans that the world
/// told. Also out of memory the other numbers are what they were.
pub fn run_step<N: World>(
    alloc: Global,
    opts: &Opts,
    world: &mut N,
    slots: &mut Vec<Slot<N::L>>,
    step: &Step,
    found: bool,
    aim: Aim,
    named: Option<&Statement>,
) -> Result<StepResult, NoMemory>
    requires { may_stand (N.seen world.old).takes step.now ≡ true }
    ensures longer { OnOk result (length slots.old.items ≤ length slots.new.items) }
    ensures takes { (N.seen world.new).takes ≡ (N.seen world.old).takes }
    ensures back { OnOk result ((N.seen world.new).back ≡ (N.seen world.old).back) }
    ensures midst { InMidst (has_dialed step.now (handles_in N.L.looks (N.seen world.old).plans slots.old.items))
        (number_of step.now (length slots.old.items)) (N.seen world.old) (N.seen world.new)
        slots.old.items slots.new.items }
    ensures chance { OnOk result ((N.seen world.new).chance ≡
        chance_by (has_dialed step.now (handles_in N.L.looks (N.seen world.old).plans slots.old.items))
        step.now (N.seen world.old).chance) }
    ensures counts { IfOk result (λ d. DialsTo (N.seen world.old).dials (N.seen world.new).dials
        (dial_met (has_dialed step.now (handles_in N.L.looks (N.seen world.old).plans slots.old.items)) d.uses.items)) }
    ensures steps { IfOk result (λ d.
        StepsOn N.L.looks (login_of opts.now) (N.seen world.old).plans (N.seen world.new).plans
        slots.old.items slots.new.items
        (λ plans hs o us ts.
        StepGrows (login_of opts.now) plans found aim (option_copied named.entry) hs step.now o us ts) d) }
{
    let order = step.begins(alloc, found, aim, named)?;
    let now = world.now();
    carry_out(alloc, opts, world, slots, order, now)
}
