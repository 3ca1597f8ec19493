//! A call that is polled by hand.
ghost use Rattle.std.specs.Prelude.{◌≡◌, Some, None, true};
ghost use Rattle.my_link.specs.declared.poll.Poll.TheVariants as polls;
ghost use Rattle.my_reading.specs.Told.{told};
ghost use Rattle.my_reading.specs.declared.answer.Answer.{Answer as AnswerOf};
ghost use Rattle.my_reading.specs.declared.answer.Answer.TheVariants as answers;
ghost use Rattle.my_reading.specs.declared.call.CallKind.{CallKind as KindOf};
ghost use Rattle.my_reading.specs.declared.call.CallKind.TheVariants as kinds;
ghost use Rattle.my_reading.specs.Calls.{kind_of};
ghost use Rattle.my_session.specs.Fits.{may_be};
ghost use Rattle.my_client.specs.Calls.{AfterFits, MayPoll};
ghost use Rattle.my_conn.specs.Answers.{done_of, next_of};
ghost use Rattle.my_calls.specs.States.{PollIs, ReturnedBy, StateCancels, first_state, is_for_pool};

use my_client::After;
use my_conn::{Conn, NextAnswer, flag_answer, next_answer, statement_answer};
use my_link::{Aid, Link, Poll};
use my_reading::{Answer, Call, CallKind, Error};
use my_statements::Statement;
use std::alloc::Global;
use std::marker::{Model, PhantomData};

/// What a caller gets of a call's answer.
pub trait Returns {
    /// The kinds of call whose answers give it.
    ghost takes: { KindOf → Type 0 };

    /// What an answer gives a caller.
    ghost gives: { AnswerOf → Self → Type 0 };

    fn from_answer(given: Answer) -> Self
        requires { (c : KindOf) × takes c × (may_be c (told given) ≡ true) }
        ensures { gives given result };
}

/// That the call is done.
impl Returns for () {
    ghost takes = { λ c. Unit {0} };

    ghost gives = { λ given done. done ≡ done_of given };

    fn from_answer(given: Answer) {
        drop(given);
    }
}

impl Returns for Statement {
    ghost takes = { λ c. c ≡ kinds.Prepare };

    ghost gives = { λ given statement. given ≡ answers.Stmt statement };

    fn from_answer(given: Answer) -> Statement {
        statement_answer(given)
    }
}

impl Returns for bool {
    ghost takes = { λ c. c ≡ kinds.Reset };

    ghost gives = { λ given flag. given ≡ answers.Flag flag };

    fn from_answer(given: Answer) -> bool {
        flag_answer(given)
    }
}

impl Returns for Answer {
    ghost takes = { λ c. is_for_pool c ≡ true };

    ghost gives = { λ given answer. answer ≡ given };

    fn from_answer(given: Answer) -> Answer {
        given
    }
}

impl Returns for NextAnswer {
    ghost takes = { λ c. c ≡ kinds.NextRow };

    ghost gives = { λ given next. next ≡ next_of given };

    fn from_answer(given: Answer) -> NextAnswer {
        next_answer(given)
    }
}

// What a caller's poll returns, by what the poll of a call of this kind came to.
fn returned<R: Returns>(kind: CallKind, after: After) -> Poll<Result<R, Error>>
    requires takes { R.takes kind }
    requires fits { AfterFits kind after }
    ensures { ReturnedBy R.gives after result }
{
    let _ = kind;
    match after {
        After::Pending => Poll::Pending,
        After::Answered(answer) => Poll::Ready(Ok(R::from_answer(answer))),
        After::Failed(error) => Poll::Ready(Err(error)),
    }
}

/// A call until it returns. `K` marks which call it is, and `R` is what it returns.
#[derive(Drop)]
pub struct CallState<K, R: Returns> {
    kind: CallKind,
    // The call that is to begin, or none once it began.
    call: Option<Call>,
    of: PhantomData<(K, R)>,
}

impl<K, R: Returns> Model for CallState<K, R> {
    ghost use Rattle.my_calls.specs.States.{StateSeen};

    ghost Value = { StateSeen };

    ghost view = { λ s. record { kind = s.kind; call = s.call } };

    ghost invariant = { λ s. R.takes s.kind };
}

impl<K, R: Returns> CallState<K, R> {
    // A call that didn't begin yet.
    pub(crate) fn first(call: Call) -> CallState<K, R>
        requires { R.takes (kind_of call) }
        ensures { result ≡ first_state call }
    {
        CallState {
            kind: call.kind(),
            call: Some(call),
            of: PhantomData,
        }
    }

    /// Polls it once, at the moment `now`, in milliseconds. The first poll begins the call; after it returned it
    /// isn't polled again. The aid is asked for nothing.
    pub fn poll<L: Link, A: Aid>(
        &mut self,
        alloc: Global,
        conn: &mut Conn<L>,
        aid: &mut A,
        now: u64,
    ) -> Poll<Result<R, Error>>
        requires { MayPoll self.old.kind self.old.call conn.old.pending }
        ensures state { self.new ≡ record self.old { call = None } }
        ensures again { result ≡ polls.Pending → MayPoll self.new.kind self.new.call conn.new.pending }
        ensures does { PollIs L.looks R.gives now self.old.kind self.old.call conn.old conn.new result }
        ensures aid { aid.new ≡ aid.old }
    {
        let _ = aid;
        let call = self.call.take();
        let (after, _met) = conn.poll_call(alloc, self.kind, call, now);
        returned::<R>(self.kind, after)
    }

    /// Cancels it. That takes no memory. A call that wasn't polled is let go.
    pub fn cancel<L: Link>(self, conn: &mut Conn<L>)
        requires { MayPoll self.kind self.call conn.old.pending }
        ensures { StateCancels self.call conn.old conn.new }
    {
        match self.call {
            None => conn.cancel_call(self.kind),
            Some(call) => drop(call),
        }
    }
}
