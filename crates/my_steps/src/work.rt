//! What a step does at a connection's number.
ghost use Rattle.std.specs.Prelude.{◌≡◌, length, Some, true, IfOk, OnOk};
ghost use Rattle.my_session.specs.Login.{login_of};
ghost use Rattle.my_link.specs.World.{SameBut};
ghost use Rattle.my_steps.specs.Dialing.{DialsTo, chance_dialed, dial_met};
ghost use Rattle.my_steps.specs.Did.{EachDid, DoesAt, MayWork, StepsOn, is_poll, redials};
ghost use Rattle.my_steps.specs.Slot.{handle_at, handle_of};
ghost use Rattle.my_steps.specs.Grows.{At, WorkAt};
ghost use Rattle.my_steps.specs.Midst.{InMidst, LinkStays, MayTry, is_linked};
ghost use Rattle.my_steps.specs.declared.slot.Slot.TheVariants.{Held as HeldAt, Connecting as ConnectingAt, There as ThereAt, Gathering as GatheringAt};

use crate::connect::dial_at;
use crate::connecting::{cancel_connect, poll_connect};
use crate::fields::tell;
use crate::gather::{cancel_gathering, resume_gathering};
use crate::outcome::{StepResult, unused};
use crate::polls::cancel_there;
use crate::resume::resume_there;
use crate::slot::{Slot, put};
use crate::stream::{begin_there, item_call, let_go, read_call};
use my_conn::{Conn, Connecting};
use my_frame::NoMemory;
use my_link::{Link, World};
use my_opts::Opts;
use my_script::{Outcome, Work};
use my_value::Row;
use std::alloc::Global;
use std::mem;

// On a connection that is there.
fn work_conn<L: Link>(
    alloc: Global,
    mut conn: Conn<L>,
    number: u64,
    now: u64,
    work: Work,
) -> (Slot<L>, Result<StepResult, NoMemory>)
    requires { MayWork work }
    ensures did { IfOk result.1 (λ d. EachDid L.looks number work (ThereAt conn) result.0 d) }
    ensures linked { is_linked result.0 ≡ true }
{
    match work {
        Work::Begin(call) => begin_there(alloc, conn, number, now, call),
        Work::Read(aim) => read_call(alloc, conn, number, now, aim),
        Work::Item => {
            let did = item_call(alloc, &mut conn, number, now);
            (Slot::There(conn), did)
        }
        Work::LetGo => {
            let did = let_go(alloc, &conn, number);
            (Slot::There(conn), Ok(did))
        }
        Work::Miss => (Slot::There(conn), Ok(unused(alloc, Outcome::NoSuchHandle))),
        Work::Fields => {
            let did = tell(alloc, &conn, number);
            (Slot::There(conn), did)
        }
        Work::Poll(aim) => resume_there(alloc, conn, number, now, aim),
        Work::Cancel => {
            let did = cancel_there(alloc, &mut conn, number);
            (Slot::There(conn), Ok(did))
        }
    }
}

// On a connection whose handshake is open.
fn work_connecting<L: Link>(
    alloc: Global,
    conn: Connecting<L>,
    number: u64,
    now: u64,
    work: &Work,
) -> (Slot<L>, Result<StepResult, NoMemory>)
    ensures did { IfOk result.1 (λ d. EachDid L.looks number work.now (ConnectingAt conn) result.0 d) }
    ensures linked { is_linked result.0 ≡ true }
{
    match work {
        Work::Poll(_) => poll_connect(alloc, conn, number, now),
        Work::Cancel => {
            let (slot, did) = cancel_connect(alloc, conn, number);
            (slot, Ok(did))
        }
        Work::Begin(_) | Work::Read(_) | Work::Item | Work::LetGo | Work::Miss | Work::Fields => (
            Slot::Connecting(conn),
            Ok(unused(alloc, Outcome::NoSuchHandle)),
        ),
    }
}

// On a connection that gathers rows.
fn work_gathering<L: Link>(
    alloc: Global,
    conn: Conn<L>,
    rows: Vec<Row>,
    number: u64,
    now: u64,
    work: &Work,
) -> (Slot<L>, Result<StepResult, NoMemory>)
    ensures did { IfOk result.1 (λ d. EachDid L.looks number work.now (GatheringAt conn rows) result.0 d) }
    ensures linked { is_linked result.0 ≡ true }
{
    match work {
        Work::Poll(_) => resume_gathering(alloc, conn, rows, number, now),
        Work::Cancel => {
            let (slot, did) = cancel_gathering(alloc, conn, rows, number);
            (slot, Ok(did))
        }
        Work::Begin(_) | Work::Read(_) | Work::Item | Work::LetGo | Work::Miss | Work::Fields => (
            Slot::Gathering(conn, rows),
            Ok(unused(alloc, Outcome::NoSuchHandle)),
        ),
    }
}

// Where the dial wasn't ready: it is tried again, or dropped.
fn work_held<N: World>(
    alloc: Global,
    opts: &Opts,
    world: &mut N,
    number: u64,
    now: u64,
    work: &Work,
) -> (Slot<N::L>, Result<StepResult, NoMemory>)
    ensures others { SameBut number (N.seen world.old).plans (N.seen world.new).plans }
    ensures takes { (N.seen world.new).takes ≡ (N.seen world.old).takes }
    ensures chance { OnOk result.1 (
        (N.seen world.new).chance ≡ chance_dialed (is_poll work.now) (N.seen world.old).chance) }
    ensures back { OnOk result.1 ((N.seen world.new).back ≡ (N.seen world.old).back) }
    ensures tried { MayTry (is_poll work.now) (Some number) (N.seen world.old) (N.seen world.new) }
    ensures links { LinkStays (is_poll work.now) HeldAt result.0 }
    ensures counts { IfOk result.1 (λ d. DialsTo (N.seen world.old).dials (N.seen world.new).dials
        (dial_met (is_poll work.now) d.uses.items)) }
    ensures did { IfOk result.1 (λ d. DoesAt N.L.looks (login_of opts.now)
        (N.seen world.old).plans (N.seen world.new).plans number work.now HeldAt result.0 d) }
{
    match work {
        Work::Poll(_) => dial_at(alloc, opts, world, number, now),
        Work::Cancel => (Slot::Gone, Ok(unused(alloc, Outcome::Done))),
        Work::Begin(_) | Work::Read(_) | Work::Item | Work::LetGo | Work::Miss | Work::Fields => (
            Slot::Held,
            Ok(unused(alloc, Outcome::NoSuchHandle)),
        ),
    }
}

fn work_on<N: World>(
    alloc: Global,
    opts: &Opts,
    world: &mut N,
    slot: Slot<N::L>,
    number: u64,
    now: u64,
    work: Work,
) -> (Slot<N::L>, Result<StepResult, NoMemory>)
    requires { MayWork work }
    ensures others { SameBut number (N.seen world.old).plans (N.seen world.new).plans }
    ensures takes { (N.seen world.new).takes ≡ (N.seen world.old).takes }
    ensures chance { OnOk result.1 ((N.seen world.new).chance ≡
        chance_dialed (redials (handle_of N.L.looks slot) work) (N.seen world.old).chance) }
    ensures back { OnOk result.1 ((N.seen world.new).back ≡ (N.seen world.old).back) }
    ensures tried { MayTry (redials (handle_of N.L.looks slot) work) (Some number)
        (N.seen world.old) (N.seen world.new) }
    ensures links { LinkStays (redials (handle_of N.L.looks slot) work) slot result.0 }
    ensures counts { IfOk result.1 (λ d. DialsTo (N.seen world.old).dials (N.seen world.new).dials
        (dial_met (redials (handle_of N.L.looks slot) work) d.uses.items)) }
    ensures did { IfOk result.1 (λ d. DoesAt N.L.looks (login_of opts.now)
        (N.seen world.old).plans (N.seen world.new).plans number work slot result.0 d) }
{
    match slot {
        Slot::There(conn) => work_conn(alloc, conn, number, now, work),
        Slot::Connecting(conn) => {
            let worked = work_connecting(alloc, conn, number, now, &work);
            drop(work);
            worked
        }
        Slot::Gathering(conn, rows) => {
            let worked = work_gathering(alloc, conn, rows, number, now, &work);
            drop(work);
            worked
        }
        Slot::Held => {
            let worked = work_held(alloc, opts, world, number, now, &work);
            drop(work);
            worked
        }
        Slot::Gone => {
            drop(work);
            return (Slot::Gone, Ok(unused(alloc, Outcome::NoSuchHandle)));
        }
        Slot::Ended(tape, link) => {
            drop(work);
            return (
                Slot::Ended(tape, link),
                Ok(unused(alloc, Outcome::NoSuchHandle)),
            );
        }
    }
}

/// Does a step's work at its number; where no connection has it the step is refused.
pub(crate) fn work_at<N: World>(
    alloc: Global,
    opts: &Opts,
    world: &mut N,
    slots: &mut Vec<Slot<N::L>>,
    number: u64,
    now: u64,
    work: Work,
) -> Result<StepResult, NoMemory>
    requires { MayWork work }
    ensures count { OnOk result (length slots.new.items ≡ length slots.old.items) }
    ensures midst { InMidst (redials (handle_at N.L.looks (N.seen world.old).plans slots.old.items number) work)
        (Some number) (N.seen world.old) (N.seen world.new) slots.old.items slots.new.items }
    ensures takes { (N.seen world.new).takes ≡ (N.seen world.old).takes }
    ensures back { OnOk result ((N.seen world.new).back ≡ (N.seen world.old).back) }
    ensures chance { OnOk result ((N.seen world.new).chance ≡ chance_dialed
        (redials (handle_at N.L.looks (N.seen world.old).plans slots.old.items number) work)
        (N.seen world.old).chance) }
    ensures counts { IfOk result (λ d. DialsTo (N.seen world.old).dials (N.seen world.new).dials
        (dial_met (redials (handle_at N.L.looks (N.seen world.old).plans slots.old.items number) work)
        d.uses.items)) }
    ensures steps { IfOk result (λ d.
        StepsOn N.L.looks (login_of opts.now) (N.seen world.old).plans (N.seen world.new).plans
        slots.old.items slots.new.items (λ plans. At number (WorkAt (login_of opts.now) plans number work)) d) }
{
    if number >= slots.len() as u64 {
        drop(work);
        return Ok(unused(alloc, Outcome::NoSuchHandle));
    }
    let slot = mem::replace(&mut slots[number as usize], Slot::Gone);
    let (slot, did) = work_on(alloc, opts, world, slot, number, now, work);
    put(&mut slots[number as usize], slot);
    did
}
