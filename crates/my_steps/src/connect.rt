//! Dials a connection, and connects it.
ghost use Rattle.std.specs.Prelude.{◌≡◌, suc, is_some, length, Some, true, IfErr, IfOk, OnOk};
ghost use Rattle.my_reading.specs.Errors.{io_error};
ghost use Rattle.my_session.specs.Login.{login_of};
ghost use Rattle.my_link.specs.World.{IsFresh, SameBut, SamePlans, drawn};
ghost use Rattle.my_client.specs.Kept.{first_asked, first_kept};
ghost use Rattle.my_client.specs.Makes.{ConnectsFor};
ghost use Rattle.my_client.specs.declared.texts.Making.TheVariants.{Shakes};
ghost use Rattle.my_steps.specs.Connecting.{JoinsFirst, Dialed};
ghost use Rattle.my_steps.specs.Dialing.{DialsTo, dial_met};
ghost use Rattle.my_steps.specs.Did.{StepsOn};
ghost use Rattle.my_steps.specs.Grows.{DialsNext};
ghost use Rattle.my_steps.specs.Midst.{InMidst, TriesDial};

use crate::connecting::first_poll;
use crate::outcome::{StepResult, used_once};
use crate::slot::Slot;
use my_conn::Connecting;
use my_frame::NoMemory;
use my_link::{DialStep, Link, Met, World};
use my_opts::{Opts, Target};
use my_reading::{Error, IoError, IoFault, IoKind};
use my_script::{Outcome, Use};
use std::alloc::Global;

fn dial_error() -> Error
    ensures { result ≡ io_error IoKind.Dial 0 }
{
    Error::Io(IoError::Io(IoFault {
        kind: IoKind::Dial,
        place: 0,
    }))
}

// What a connection is given of chance: the moment of its dial, in milliseconds, and a random word.
#[derive(Clone, Copy)]
struct Given {
    now: u64,
    random: u64,
}

// Begins the handshake. Out of memory the link is returned.
fn begin_on<L: Link>(alloc: Global, opts: &Opts, link: L, given: Given) -> Result<Connecting<L>, L>
    ensures begins { IfOk result (λ c. ConnectsFor (login_of opts.now) c.seen c.tape first_kept first_asked) }
    ensures taped { IfOk result (λ c. is_some c.tape ≡ true) }
    ensures at { IfOk result (λ c. c.at ≡ Shakes) }
    ensures link { IfOk result (λ c. c.link ≡ link) }
    ensures back { IfErr result (λ l. l ≡ link) }
{
    match opts.copy(alloc) {
        Ok(opts) => Connecting::new(alloc, opts, link, given.now, given.random, true),
        Err(NoMemory) => Err(link),
    }
}

// Begins the handshake and polls it.
fn first_call<L: Link>(
    alloc: Global,
    opts: &Opts,
    link: L,
    number: u64,
    given: Given,
) -> Result<(Slot<L>, Result<StepResult, NoMemory>), L>
    ensures joins { IfOk result (λ r. IfOk r.1 (λ d.
        JoinsFirst L.looks (login_of opts.now) number (L.looks link) r.0 d)) }
    ensures back { IfErr result (λ l. l ≡ link) }
{
    let conn = begin_on(alloc, opts, link, given)?;
    Ok(first_poll(alloc, conn, number, given.now))
}

// Makes the first call over the link of this number and polls it. Out of memory the link is handed back.
fn join_world<N: World>(
    alloc: Global,
    opts: &Opts,
    world: &mut N,
    link: N::L,
    number: u64,
    given: Given,
) -> (Slot<N::L>, Result<StepResult, NoMemory>)
    ensures joins { IfOk result.1 (λ d. JoinsFirst N.L.looks (login_of opts.now) number (N.L.looks link) result.0 d) }
    ensures world { OnOk result.1 (N.seen world.new ≡ N.seen world.old) }
    ensures tried { IsFresh (N.L.looks link).got → TriesDial (Some number) (N.seen world.old) (N.seen world.new) }
    ensures plans { SamePlans (N.seen world.old).plans (N.seen world.new).plans }
    ensures takes { (N.seen world.new).takes ≡ (N.seen world.old).takes }
    ensures chance { (N.seen world.new).chance ≡ (N.seen world.old).chance }
{
    match first_call(alloc, opts, link, number, given) {
        Ok(joined) => joined,
        Err(link) => {
            drop(world.hang_up(number, link));
            (Slot::Gone, Err(NoMemory))
        }
    }
}

// Dials the link of this number at this target, and connects over it.
fn dial_to<N: World>(
    alloc: Global,
    opts: &Opts,
    target: &Target,
    world: &mut N,
    number: u64,
    given: Given,
) -> (Slot<N::L>, Result<StepResult, NoMemory>)
    ensures others { SameBut number (N.seen world.old).plans (N.seen world.new).plans }
    ensures takes { (N.seen world.new).takes ≡ (N.seen world.old).takes }
    ensures chance { (N.seen world.new).chance ≡ (N.seen world.old).chance }
    ensures back { OnOk result.1 ((N.seen world.new).back ≡ (N.seen world.old).back) }
    ensures tried { TriesDial (Some number) (N.seen world.old) (N.seen world.new) }
    ensures counts { IfOk result.1 (λ d.
        DialsTo (N.seen world.old).dials (N.seen world.new).dials (dial_met true d.uses.items)) }
    ensures dialed { IfOk result.1 (λ d. Dialed N.L.looks (login_of opts.now) number
        (N.seen world.old).plans (N.seen world.new).plans result.0 d.outcome d.uses.items) }
{
    match world.dial(number, target) {
        DialStep::Link(link) => join_world(alloc, opts, world, link, number, given),
        DialStep::NotYet => {
            let met = Met {
                holds: 1,
                ..Met::nothing()
            };
            (
                Slot::Held,
                used_once(alloc, Outcome::Pending, Use { number, met }),
            )
        }
        DialStep::Failed => {
            let met = Met {
                faults: 1,
                ..Met::nothing()
            };
            (
                Slot::Gone,
                used_once(alloc, Outcome::Failed(dial_error()), Use { number, met }),
            )
        }
    }
}

/// Dials the link of this number where the options say, at this moment, and connects over it. Out of memory what is at the number
/// is returned, too.
pub(crate) fn dial_at<N: World>(
    alloc: Global,
    opts: &Opts,
    world: &mut N,
    number: u64,
    now: u64,
) -> (Slot<N::L>, Result<StepResult, NoMemory>)
    ensures others { SameBut number (N.seen world.old).plans (N.seen world.new).plans }
    ensures takes { (N.seen world.new).takes ≡ (N.seen world.old).takes }
    ensures chance { OnOk result.1 ((N.seen world.new).chance ≡ drawn (N.seen world.old).chance) }
    ensures back { OnOk result.1 ((N.seen world.new).back ≡ (N.seen world.old).back) }
    ensures tried { TriesDial (Some number) (N.seen world.old) (N.seen world.new) }
    ensures counts { IfOk result.1 (λ d.
        DialsTo (N.seen world.old).dials (N.seen world.new).dials (dial_met true d.uses.items)) }
    ensures dialed { IfOk result.1 (λ d. Dialed N.L.looks (login_of opts.now) number
        (N.seen world.old).plans (N.seen world.new).plans result.0 d.outcome d.uses.items) }
{
    let target = match opts.target(alloc) {
        Ok(target) => target,
        Err(error) => return (Slot::Gone, Err(error)),
    };
    let random = world.random();
    let dialed = dial_to(alloc, opts, &target, world, number, Given { now, random });
    drop(target);
    dialed
}

/// Dials the link of the next number, and connects over it.
pub(crate) fn connect<N: World>(
    alloc: Global,
    opts: &Opts,
    world: &mut N,
    slots: &mut Vec<Slot<N::L>>,
    now: u64,
) -> Result<StepResult, NoMemory>
    ensures takes { (N.seen world.new).takes ≡ (N.seen world.old).takes }
    ensures chance { OnOk result ((N.seen world.new).chance ≡ drawn (N.seen world.old).chance) }
    ensures back { OnOk result ((N.seen world.new).back ≡ (N.seen world.old).back) }
    ensures count { OnOk result (length slots.new.items ≡ suc (length slots.old.items)) }
    ensures midst { InMidst true (Some (length slots.old.items)) (N.seen world.old) (N.seen world.new)
        slots.old.items slots.new.items }
    ensures counts { IfOk result (λ d.
        DialsTo (N.seen world.old).dials (N.seen world.new).dials (dial_met true d.uses.items)) }
    ensures steps { IfOk result (λ d.
        StepsOn N.L.looks (login_of opts.now) (N.seen world.old).plans (N.seen world.new).plans
        slots.old.items slots.new.items
        (DialsNext (login_of opts.now)) d) }
{
    slots.reserve(1)?;
    let number = slots.len() as u64;
    let (slot, did) = dial_at(alloc, opts, world, number, now);
    slots.push_reserved(slot);
    did
}
