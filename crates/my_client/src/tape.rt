//! What a connection keeps of its calls.
ghost use Rattle.std.specs.Prelude.{◌+◌, ◌≤◌, vec_capacity, vec_len};
ghost use Rattle.my_client.specs.Room.{open_count};

use crate::poll::After;
use my_frame::NoMemory;
use my_reading::{Answer, Call, Error};
use std::alloc::Global;
use std::mem;

/// How a call ended.
#[derive(Drop)]
pub enum Said {
    Answered(Answer),
    Failed(Error),
    /// It was cancelled, and whether that closed the session.
    Cancelled(bool),
}

/// A call that ended.
#[derive(Drop)]
pub struct DoneCall {
    pub call: Call,
    /// How many bytes were sent, and received, when it began.
    pub sent_from: u64,
    pub taken_from: u64,
    pub said: Said,
}

/// A call that hasn't returned yet.
#[derive(Drop)]
pub struct OpenCall {
    pub call: Call,
    /// How many bytes were sent, and received, when it began.
    pub sent_from: u64,
    pub taken_from: u64,
}

/// What a connection did. While a call is open there is room for how it ends.
#[derive(Drop)]
pub struct Tape {
    /// The bytes that were sent and taken.
    pub sent: Vec<u8>,
    pub taken: Vec<u8>,
    /// The calls that ended, the oldest first.
    pub calls: Vec<DoneCall>,
    pub pending: Option<OpenCall>,
    ghost room: { vec_len calls + open_count pending ≤ vec_capacity calls },
}

impl Tape {
    ghost use Rattle.std.specs.Prelude.{◌≡◌, None, OnErr, OnOk};
    ghost use Rattle.my_client.specs.Conn.{kept_in};
    ghost use Rattle.my_client.specs.Ends.{EndsBy, KeepsBy};
    ghost use Rattle.my_client.specs.Kept.{asking, nothing_kept};

    /// A tape of nothing.
    pub fn new(alloc: Global) -> Tape
        ensures { kept_in result ≡ nothing_kept }
    {
        Tape {
            sent: Vec::new(alloc),
            taken: Vec::new(alloc),
            calls: Vec::new(alloc),
            pending: None,
        }
    }

    /// Keeps that this call is open. It takes room for how the call ends.
    pub fn ask(&mut self, call: Call) -> Result<(), NoMemory>
        ensures kept { OnOk result (kept_in self.new ≡ asking (kept_in self.old) call None) }
        ensures same { OnErr result (kept_in self.new ≡ kept_in self.old) }
    {
        if self.calls.reserve(1).is_err() {
            drop(call);
            return Err(NoMemory);
        }
        let open = OpenCall {
            call,
            sent_from: self.sent.len() as u64,
            taken_from: self.taken.len() as u64,
        };
        drop(mem::replace(&mut self.pending, Some(open)));
        Ok(())
    }

    /// Keeps how the open call ended. It takes no memory.
    pub fn note(&mut self, said: Said)
        ensures kept { EndsBy (kept_in self.old) (kept_in self.new) said }
        ensures still { (kept_in self.old).pending ≡ None → kept_in self.new ≡ kept_in self.old }
    {
        match self.pending.take() {
            None => drop(said),
            Some(open) => self.calls.push_reserved(DoneCall {
                call: open.call,
                sent_from: open.sent_from,
                taken_from: open.taken_from,
                said,
            }),
        }
    }

    /// Keeps what a poll of the open call returned.
    pub fn keep(&mut self, alloc: Global, after: &After) -> Result<(), NoMemory>
        ensures kept { OnOk result (KeepsBy (kept_in self.old) (kept_in self.new) after.now) }
        ensures still { (kept_in self.old).pending ≡ None → kept_in self.new ≡ kept_in self.old }
    {
        match after {
            After::Pending => {}
            After::Answered(answer) => self.note(Said::Answered(answer.copy(alloc)?)),
            After::Failed(error) => self.note(Said::Failed(error.copy(alloc)?)),
        }
        Ok(())
    }
}
