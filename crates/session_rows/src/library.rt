//! A session used as a library: the caller carries the bytes.

use crate::given::{login, options, usual};
use my_frame::{MemSink, MemSource, NoMemory, Sink, SinkStep, Source, SourceStep};
use my_reading::{Answer, Call, Error};
use my_session::{LinkFault, Session, SessionStep};
use std::alloc::Global;
use std::test::Fail;

/// Steps the open call until it is done: sends what it owes, and hands it what the server says. `now` is in milliseconds.
fn carry<S: Source, K: Sink>(
    alloc: Global,
    session: &mut Session,
    server: &mut S,
    out: &mut K,
    now: u64,
) -> Result<Answer, Error> {
    let mut buf = [0u8; 4096];
    'steps: for _ in 0..u64::MAX {
        match session.step(alloc, now) {
            SessionStep::Send => {
                if session.owed().is_empty() {
                    return Err(Error::NoMemory);
                }
                match out.write(session.owed()) {
                    SinkStep::Took(count) => session.sent(count),
                    SinkStep::Failed => session.fail(LinkFault::Link),
                }
            }
            SessionStep::Need => match server.read(&mut buf) {
                SourceStep::Got(count) => session.take(&buf[..count])?,
                SourceStep::End => session.end(),
                SourceStep::Failed => session.fail(LinkFault::Link),
            },
            SessionStep::Done(answer) => return Ok(answer),
            SessionStep::Fault(error) => return Err(error),
        }
    }
    Err(Error::NoMemory)
}

/// Begins a call, where it may begin, and carries it to its end.
fn call<S: Source, K: Sink>(
    alloc: Global,
    session: &mut Session,
    call: Call,
    server: &mut S,
    out: &mut K,
    now: u64,
) -> Result<Option<Answer>, Error> {
    if session.is_open() || !session.may_begin(call.kind()) {
        return Ok(None);
    }
    session.begin(call)?;
    Ok(Some(carry(alloc, session, server, out, now)?))
}

// Whether the session connects and sends its response.
fn connects(alloc: Global, session: &mut Session) -> Result<bool, Error> {
    let mut server = MemSource::new(login(alloc, &usual("8.0.36"))?);
    let mut out = MemSink::new(alloc, 256)?;
    let answer = call(alloc, session, Call::Connect, &mut server, &mut out, 5)?;
    Ok(
        matches!(&answer, Some(Answer::Ready))
            && out.taken().starts_with(b"\x3c\x00\x00\x01".as_slice()),
    )
}

// It alone owns the session.
fn connects_new(alloc: Global) -> Result<bool, Error> {
    let opts = options(alloc, &usual("8.0.36"))?;
    let mut session = Session::new(alloc, opts, true, Some(900))?;
    let connected = connects(alloc, &mut session);
    drop(session);
    connected
}

#[test]
fn a_session_connects(rt: HostRuntime) -> Result<(), Fail> {
    assert!(rt; connects_new(rt.alloc())?);
    Ok(())
}
