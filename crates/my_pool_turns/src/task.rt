//! What a turn does with a connection.

ghost use Rattle.std.specs.Prelude.{◌≡◌, None, true, false};
ghost use Rattle.my_pool.specs.Fit.{IsFit, IsStill};
ghost use Rattle.my_pool_turns.specs.Tasks.{MayDo, call_for, call_where, kind_at, kind_for};
ghost use Rattle.my_pool_turns.specs.Works.{EndsBy, WorkIs, WorkLeaves, state_of};

use my_client::After;
use my_conn::Conn;
use my_link::Link;
use my_pool::Out;
use my_pool_parts::PlaceKind;
use my_reading::{Call, CallKind};
use std::alloc::Global;

/// The work of a turn on a connection.
#[derive(Clone, Copy)]
pub enum Task {
    /// What is left of its last use is read.
    Clean,
    /// Its session is reset.
    Reset,
    /// It is closed.
    Close,
}

/// What a poll of a task's call comes to.
#[derive(Clone, Copy)]
pub enum Worked {
    /// It isn't answered yet.
    Pending,
    /// It was answered. A connection that was reset is fit.
    Done,
    /// It failed, or the connection that was reset isn't fit.
    Failed,
}

impl Task {
    // The kind of its call.
    fn kind(self) -> CallKind
        ensures { result ≡ kind_for self }
    {
        match self {
            Task::Clean => CallKind::CleanForPool,
            Task::Reset => CallKind::ResetForPool,
            Task::Close => CallKind::Quit,
        }
    }

    // Its call.
    fn call(self) -> Call
        ensures { result ≡ call_for self }
    {
        match self {
            Task::Clean => Call::CleanForPool,
            Task::Reset => Call::ResetForPool,
            Task::Close => Call::Quit,
        }
    }

    /// The place at which it is done.
    pub fn place(self) -> PlaceKind
        ensures { result ≡ kind_at self }
    {
        match self {
            Task::Clean => PlaceKind::Cleaning,
            Task::Reset => PlaceKind::Resetting,
            Task::Close => PlaceKind::Closing,
        }
    }
}

// The call of a task, where no call is open.
fn next_call<L>(conn: &Conn<L>, task: Task) -> Option<Call>
    ensures { result ≡ call_where conn.now.pending task }
{
    match conn.open_call() {
        None => Some(task.call()),
        Some(_) => None,
    }
}

// A call that was answered is done; a reset only where the connection is fit.
fn ended<L>(conn: &Conn<L>, task: Task) -> Worked
    requires { IsStill conn.now }
    ensures { EndsBy task conn.now result }
{
    match task {
        Task::Clean | Task::Close => Worked::Done,
        Task::Reset => {
            if !conn.is_disconnected() && !conn.is_dirty() {
                Worked::Done
            } else {
                Worked::Failed
            }
        }
    }
}

// Whether a call isn't answered yet, was answered, or failed.
fn state_of(after: After) -> Worked
    ensures { result ≡ state_of after }
{
    match after {
        After::Pending => Worked::Pending,
        After::Answered(answer) => {
            drop(answer);
            Worked::Done
        }
        After::Failed(error) => {
            drop(error);
            Worked::Failed
        }
    }
}

/// Polls the call of a task once, at a moment. It begins where no call is open.
pub(crate) fn work<L: Link>(alloc: Global, out: &mut Out<L>, task: Task, now: u64) -> Worked
    requires { MayDo task out.old.conn }
    ensures works { WorkIs L.looks task now out.old.conn out.new.conn result }
    ensures leaves { WorkLeaves task out.new.conn result }
    ensures number { out.new.number ≡ out.old.number }
{
    let call = next_call(out.conn(), task);
    let (after, _met) = out.poll_call(alloc, task.kind(), call, now);
    match state_of(after) {
        Worked::Pending => Worked::Pending,
        Worked::Done => ended(out.conn(), task),
        Worked::Failed => Worked::Failed,
    }
}
