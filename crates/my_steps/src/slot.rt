//! What is at a connection's number.
ghost use Rattle.std.specs.Prelude.{◌≡◌};
ghost use Rattle.my_client.specs.Conn.{kept_in};
ghost use Rattle.my_steps.specs.Slot.{kept_of, kept_some};

use my_client::Tape;
use my_conn::{Conn, Connecting};
use my_value::Row;
use std::alloc::Global;
use std::mem;

/// What is at a number that a `conn` took.
#[derive(Drop)]
pub enum Slot<L> {
    /// Its dial failed.
    Gone,
    /// Its dial wasn't ready.
    Held,
    /// Its handshake is open.
    Connecting(Connecting<L>),
    There(Conn<L>),
    /// The rows of a set are gathered there, and these came so far.
    Gathering(Conn<L>, Vec<Row>),
    /// Its handshake failed, or was cancelled: what it kept, and its link.
    Ended(Tape, L),
}

// A tape of nothing where none is kept.
fn tape_or_new(alloc: Global, tape: Option<Tape>) -> Tape
    ensures { kept_in result ≡ kept_some tape }
{
    match tape {
        Some(tape) => tape,
        None => Tape::new(alloc),
    }
}

fn end_conn<L>(alloc: Global, mut conn: Conn<L>) -> (Tape, L)
    ensures tape { kept_in result.0 ≡ kept_of conn }
    ensures link { result.1 ≡ conn.link }
{
    let tape = conn.take_tape();
    let link = conn.into_link();
    (tape_or_new(alloc, tape), link)
}

fn end_connecting<L>(alloc: Global, mut conn: Connecting<L>) -> (Tape, L)
    ensures tape { kept_in result.0 ≡ kept_some conn.tape }
    ensures link { result.1 ≡ conn.link }
{
    let tape = conn.take_tape();
    let link = conn.into_link();
    (tape_or_new(alloc, tape), link)
}

impl<L> Slot<L> {
    ghost use Rattle.my_steps.specs.Slot.{parts_in, parts_of};

    /// The tape and the link of what is there, where it has a link.
    pub fn into_parts(self, alloc: Global) -> Option<(Tape, L)>
        ensures { parts_in result ≡ parts_of self }
    {
        match self {
            Slot::Gone => None,
            Slot::Held => None,
            Slot::Connecting(conn) => Some(end_connecting(alloc, conn)),
            Slot::There(conn) => Some(end_conn(alloc, conn)),
            Slot::Gathering(conn, rows) => {
                drop(rows);
                Some(end_conn(alloc, conn))
            }
            Slot::Ended(tape, link) => Some((tape, link)),
        }
    }
}

/// Puts this in the place of a number that has nothing.
pub(crate) fn put<L>(slot: &mut Slot<L>, new: Slot<L>)
    requires { slot.old ≡ Slot.Gone }
    ensures { slot.new ≡ new }
{
    match mem::replace(slot, new) {
        Slot::Gone => {}
        Slot::Held
        | Slot::Connecting(_)
        | Slot::There(_)
        | Slot::Gathering(_, _)
        | Slot::Ended(_, _) => unreachable!(),
    }
}
