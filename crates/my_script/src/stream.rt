//! Streams of connections' sets, as they follow from the lines of a run.
ghost use Rattle.std.specs.Prelude.{◌≡◌};
ghost use Rattle.my_script.specs.Streams.{after_cancel, after_item, after_poll, after_taking, is_there, stream_after, target};

use crate::{Outcome, Step};

/// What the lines so far made of a stream at a connection.
#[derive(Clone, Copy, PartialEq, Eq)]
pub enum Stream {
    /// None is there.
    Without,
    /// A set is being taken.
    Taking,
    /// It is there, and reads nothing.
    There,
    /// It is there, and its next row is awaited.
    Reading,
}

/// The number of the connection that a step names; `conn` names none, nor do the steps of the world.
pub fn target(step: &Step) -> Option<u64>
    ensures { result ≡ target step.now }
{
    match step {
        Step::Conn | Step::Advance(_) | Step::Random(_) => None,
        Step::Query(number, _)
        | Step::Prepare(number, _)
        | Step::Execute(number, _, _)
        | Step::CloseStatement(number, _) => Some(*number),
        Step::Next(number)
        | Step::Collect(number)
        | Step::Stream(number)
        | Step::Item(number)
        | Step::Unstream(number)
        | Step::Drop(number)
        | Step::Ping(number)
        | Step::Reset(number)
        | Step::User(number, _)
        | Step::Begin(number, _)
        | Step::Commit(number)
        | Step::Rollback(number)
        | Step::ForgetTransaction(number)
        | Step::Quit(number)
        | Step::Fields(number)
        | Step::Poll(number)
        | Step::Cancel(number) => Some(*number),
    }
}

fn after_taking(outcome: &Outcome) -> Stream
    ensures { result ≡ after_taking outcome.now }
{
    match outcome {
        Outcome::Done => Stream::There,
        Outcome::Pending => Stream::Taking,
        _ => Stream::Without,
    }
}

fn after_item(outcome: &Outcome) -> Stream
    ensures { result ≡ after_item outcome.now }
{
    match outcome {
        Outcome::Pending => Stream::Reading,
        _ => Stream::There,
    }
}

fn after_poll(stream: Stream, outcome: &Outcome) -> Stream
    ensures { result ≡ after_poll stream outcome.now }
{
    match stream {
        Stream::Taking => after_taking(outcome),
        Stream::Reading => after_item(outcome),
        Stream::Without | Stream::There => stream,
    }
}

fn after_cancel(stream: Stream) -> Stream
    ensures { result ≡ after_cancel stream }
{
    match stream {
        Stream::Without | Stream::Taking => Stream::Without,
        Stream::There | Stream::Reading => Stream::There,
    }
}

/// What a step makes of a stream at the number that it names, where the step isn't refused.
pub fn stream_after(stream: Stream, step: &Step, outcome: &Outcome) -> Stream
    ensures { result ≡ stream_after stream step.now outcome.now }
{
    match step {
        Step::Stream(_) => after_taking(outcome),
        Step::Item(_) => after_item(outcome),
        Step::Unstream(_) => Stream::Without,
        Step::Poll(_) => after_poll(stream, outcome),
        Step::Cancel(_) => after_cancel(stream),
        _ => stream,
    }
}

/// Whether a stream is there that reads nothing.
pub fn is_there(stream: Stream) -> bool
    ensures { result ≡ is_there stream }
{
    match stream {
        Stream::There => true,
        Stream::Without | Stream::Taking | Stream::Reading => false,
    }
}
