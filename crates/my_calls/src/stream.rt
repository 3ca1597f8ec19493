//! The taking of a set by a stream.
ghost use Rattle.std.specs.Prelude.{◌≡◌, None};
ghost use Rattle.my_link.specs.declared.poll.Poll.TheVariants as polls;
ghost use Rattle.my_client.specs.Calls.{MayPoll};
ghost use Rattle.my_calls.specs.Streams.{SkipsFrom, StreamCancels, StreamIs, TakesFrom, open_at};

use my_client::After;
use my_conn::{Conn, taken_answer};
use my_link::{Aid, Link, Poll};
use my_reading::{Call, CallKind, Error};
use std::alloc::Global;

/// Where the taking of a set is.
#[derive(Clone, Copy)]
pub(crate) enum Stage {
    /// It wasn't polled yet.
    First,
    /// The rest of a set that an earlier stream took is passed over.
    Skips,
    /// The set is taken.
    Takes,
}

/// The taking of a set by a stream. The rest of a set that an earlier stream took is passed over first.
#[derive(Drop)]
pub struct StreamCall {
    pub(crate) stage: Stage,
}

impl StreamCall {
    pub fn new() -> StreamCall
        ensures { result.stage ≡ Stage.First }
    {
        StreamCall {
            stage: Stage::First,
        }
    }

    // Polls the call that takes the set.
    fn take<L: Link>(
        &mut self,
        alloc: Global,
        conn: &mut Conn<L>,
        call: Option<Call>,
        now: u64,
    ) -> Poll<Result<bool, Error>>
        requires { MayPoll CallKind.TakeSet call conn.old.pending }
        ensures stage { self.new.stage ≡ Stage.Takes }
        ensures again { result ≡ polls.Pending → conn.new.pending ≡ open_at self.new.stage }
        ensures takes { TakesFrom L.looks now call conn.old conn.new result }
    {
        self.stage = Stage::Takes;
        let (after, _met) = conn.poll_call(alloc, CallKind::TakeSet, call, now);
        match after {
            After::Pending => return Poll::Pending,
            After::Answered(answer) => {
                let taken = taken_answer(&answer);
                drop(answer);
                return Poll::Ready(Ok(taken));
            }
            After::Failed(error) => return Poll::Ready(Err(error)),
        }
    }

    // Polls the call that passes over the rest of the earlier set, and then the one that takes the next.
    fn skip<L: Link>(
        &mut self,
        alloc: Global,
        conn: &mut Conn<L>,
        call: Option<Call>,
        now: u64,
    ) -> Poll<Result<bool, Error>>
        requires { MayPoll CallKind.SkipTaken call conn.old.pending }
        ensures again { result ≡ polls.Pending → conn.new.pending ≡ open_at self.new.stage }
        ensures skips { SkipsFrom L.looks now call conn.old conn.new result }
    {
        self.stage = Stage::Skips;
        let (after, _met) = conn.poll_call(alloc, CallKind::SkipTaken, call, now);
        match after {
            After::Pending => return Poll::Pending,
            After::Answered(answer) => {
                drop(answer);
                return self.take(alloc, conn, Some(Call::TakeSet), now);
            }
            After::Failed(error) => return Poll::Ready(Err(error)),
        }
    }

    /// Polls it once, at the moment `now`, in milliseconds: whether a set was there, of which the stream reads the
    /// rows, or nothing is left. After it returned it isn't polled again. The aid is asked for nothing.
    pub fn poll<L: Link, A: Aid>(
        &mut self,
        alloc: Global,
        conn: &mut Conn<L>,
        aid: &mut A,
        now: u64,
    ) -> Poll<Result<bool, Error>>
        requires { conn.old.pending ≡ open_at self.old.stage }
        ensures again { result ≡ polls.Pending → conn.new.pending ≡ open_at self.new.stage }
        ensures does { StreamIs L.looks now self.old.stage conn.old conn.new result }
        ensures aid { aid.new ≡ aid.old }
    {
        let _ = aid;
        match self.stage {
            Stage::First => {
                if conn.is_taken() {
                    return self.skip(alloc, conn, Some(Call::SkipTaken), now);
                }
                self.take(alloc, conn, Some(Call::TakeSet), now)
            }
            Stage::Skips => self.skip(alloc, conn, None, now),
            Stage::Takes => self.take(alloc, conn, None, now),
        }
    }

    /// Cancels it. That takes no memory. Before its first poll it is let go.
    pub fn cancel<L: Link>(self, conn: &mut Conn<L>)
        requires { conn.old.pending ≡ open_at self.stage }
        ensures { StreamCancels self.stage conn.old conn.new }
    {
        match self.stage {
            Stage::First => {}
            Stage::Skips => conn.cancel_call(CallKind::SkipTaken),
            Stage::Takes => conn.cancel_call(CallKind::TakeSet),
        }
    }
}
