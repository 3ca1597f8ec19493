//! The steps of an open call: they lead to what it asks for, or to its answer.

ghost use Rattle.std.specs.Prelude.{◌≡◌, ◌≤◌, length, true, false, OnOk, OnErr, IfOk, None, Some};
ghost use Rattle.my_reading.specs.Errors.{io_error};
ghost use Rattle.my_session.specs.LinkErrors.{link_error};
ghost use Rattle.my_session.specs.View.{lived};

use super::Session;
use crate::answer::{LinkFault, SessionStep};
use crate::running::run;
use my_frame::NoMemory;
use my_machine::{Ending, Stop, closes};
use my_reading::{Answer, CallKind, DriverError, Error, IoError, IoFault, IoKind};
use std::alloc::Global;

impl Session {
    ghost use Rattle.my_session.specs.declared.opened.Opened.{Opened};
    ghost use Rattle.my_session.specs.Sessions.{Halts, HaltsAwaiting, IsStep, Ran, fell};

    // The open call ends, and the session is closed.
    fn fall(&mut self)
        ensures seen { self.new.seen ≡ fell self.old.seen }
        ensures lifetime { self.new.lifetime ≡ self.old.lifetime }
    {
        self.end_call(true);
    }

    // An error of this kind where the reading stands.
    fn io_error(&self, kind: IoKind) -> Error
        ensures { result ≡ io_error kind self.now.seen.stand.facts.place }
    {
        Error::Io(IoError::Io(IoFault {
            kind,
            place: self.stand.facts.place,
        }))
    }

    // The open call fails by this fault.
    fn fail_by(&mut self, fault: LinkFault) -> SessionStep
        ensures seen { self.new.seen ≡ fell self.old.seen }
        ensures value { result ≡ SessionStep.Fault (link_error fault self.old.seen.stand.facts.place) }
        ensures lifetime { self.new.lifetime ≡ self.old.lifetime }
    {
        let error = match fault {
            LinkFault::Link => self.io_error(IoKind::Link),
            LinkFault::TooLong => Error::Driver(DriverError::TooLong),
            LinkFault::NoMemory => Error::NoMemory,
        };
        self.fall();
        SessionStep::Fault(error)
    }

    // Bytes are awaited.
    fn await_bytes(&mut self) -> SessionStep
        ensures halts { HaltsAwaiting self.old.seen.ended self.old.seen self.new.seen result }
        ensures login { self.new.seen.login ≡ self.old.seen.login }
        ensures stand { self.new.seen.stand ≡ self.old.seen.stand }
        ensures lifetime { self.new.lifetime ≡ self.old.lifetime }
    {
        if !self.ended {
            return SessionStep::Need;
        }
        let error = self.io_error(IoKind::UnexpectedEof);
        self.fall();
        SessionStep::Fault(error)
    }

    // The call of this kind stopped so, on an open session.
    fn stop_at(&mut self, kind: CallKind, stop: Stop) -> SessionStep
        requires { self.old.seen.closed ≡ false }
        ensures halts { Halts kind stop self.old.seen self.new.seen result }
        ensures login { self.new.seen.login ≡ self.old.seen.login }
        ensures stand { self.new.seen.stand ≡ self.old.seen.stand }
        ensures lifetime { self.new.lifetime ≡ self.old.lifetime }
    {
        match stop {
            Stop::Owes => SessionStep::Send,
            Stop::Awaits => self.await_bytes(),
            Stop::Returns(ending) => {
                self.end_call(closes(&ending, kind));
                match ending {
                    Ending::Answered(answer) => SessionStep::Done(answer),
                    Ending::Failed(error) => SessionStep::Fault(error),
                }
            }
        }
    }

    // Out of memory it isn't known where the reading stands: no more bytes are unread than before.
    fn lose_stand(&mut self, before: usize)
        requires { self.old.seen.closed ≡ true }
        ensures closed { self.new.seen.closed ≡ true }
        ensures idle { self.new.seen.opened ≡ None }
        ensures login { self.new.seen.login ≡ self.old.seen.login }
        ensures shorter { length self.new.seen.stand.unread ≤ before }
        ensures lifetime { self.new.lifetime ≡ self.old.lifetime }
    {
        let unread = self.stand.unread.len();
        if unread > before {
            self.stand.unread.skip(unread - before);
        }
        self.fall();
    }

    // The steps of the open call, on an open session. Out of memory the session is closed.
    fn run(&mut self, alloc: Global) -> Result<(CallKind, Stop), NoMemory>
        requires { self.old.seen.closed ≡ false }
        ensures ran { let old = self.old.seen in (o : Opened) → old.opened ≡ Some o
            → IfOk result (λ r. Ran o old self.new.seen r.0 r.1) }
        ensures alive { OnOk result (self.new.seen.closed ≡ false) }
        ensures closed { OnErr result (self.new.seen.closed ≡ true) }
        ensures idle { OnErr result (self.new.seen.opened ≡ None) }
        ensures login { self.new.seen.login ≡ self.old.seen.login }
        ensures shorter { length self.new.seen.stand.unread ≤ length self.old.seen.stand.unread }
        ensures lifetime { self.new.lifetime ≡ self.old.lifetime }
    {
        let before = self.stand.unread.len();
        let (kind, ran) = match &mut self.opened {
            None => return Ok((CallKind::Quit, Stop::Awaits)),
            Some(open) => {
                let kind = open.call.kind();
                let ran = run(alloc, &self.login, open, &mut self.stand, &mut self.opts);
                (kind, ran)
            }
        };
        match ran {
            Ok(stop) => Ok((kind, stop)),
            Err(NoMemory) => {
                self.closed = true;
                self.lose_stand(before);
                Err(NoMemory)
            }
        }
    }

    // The next step of the open call, on an open session.
    fn step_on(&mut self, alloc: Global) -> SessionStep
        requires alive { self.old.seen.closed ≡ false }
        requires sound { self.old.seen.fault ≡ None }
        ensures reads { (o : Opened) → self.old.seen.opened ≡ Some o → IsStep o self.old.seen self.new.seen result }
        ensures login { self.new.seen.login ≡ self.old.seen.login }
        ensures shorter { length self.new.seen.stand.unread ≤ length self.old.seen.stand.unread }
        ensures lifetime { self.new.lifetime ≡ self.old.lifetime }
    {
        match self.run(alloc) {
            Ok((kind, stop)) => self.stop_at(kind, stop),
            Err(NoMemory) => SessionStep::Fault(Error::NoMemory),
        }
    }

    // The next step of the open call.
    fn step_open(&mut self, alloc: Global) -> SessionStep
        ensures reads { (o : Opened) → self.old.seen.opened ≡ Some o → IsStep o self.old.seen self.new.seen result }
        ensures login { self.new.seen.login ≡ self.old.seen.login }
        ensures shorter { length self.new.seen.stand.unread ≤ length self.old.seen.stand.unread }
        ensures lifetime { self.new.lifetime ≡ self.old.lifetime }
    {
        if let Some(fault) = self.fault {
            return self.fail_by(fault);
        }
        if self.closed {
            self.fall();
            return SessionStep::Done(Answer::Ready);
        }
        self.step_on(alloc)
    }

    // The next step, whatever the moment.
    fn step_once(&mut self, alloc: Global) -> SessionStep
        ensures reads { (o : Opened) → self.old.seen.opened ≡ Some o → IsStep o self.old.seen self.new.seen result }
        ensures idle { self.old.seen.opened ≡ None → result ≡ SessionStep.Done Answer.Ready }
        ensures stays { self.old.seen.opened ≡ None → self.new.seen ≡ self.old.seen }
        ensures login { self.new.seen.login ≡ self.old.seen.login }
        ensures shorter { length self.new.seen.stand.unread ≤ length self.old.seen.stand.unread }
        ensures lifetime { self.new.lifetime ≡ self.old.lifetime }
    {
        match self.opened {
            None => SessionStep::Done(Answer::Ready),
            Some(_) => self.step_open(alloc),
        }
    }

    // At this moment payloads were read where fewer bytes are unread than before.
    fn mark_read(&mut self, before: usize, now: u64)
        ensures seen { self.new.seen ≡ self.old.seen }
        ensures lifetime { let unread = length self.old.seen.stand.unread in
            self.new.lifetime ≡ lived now 0 before unread self.old.lifetime }
    {
        if self.stand.unread.len() < before {
            self.last_io = now;
        }
    }

    /// The next step of the open call: steps of the reading lead from where it stands to a stop, which is the answer. A call that
    /// was made to fail fails, and one on a closed session is done. Out of memory the session is closed. Where no call is open,
    /// nothing changes, and there is nothing to do. `now`, in milliseconds, is the moment of the payloads that are read.
    pub fn step(&mut self, alloc: Global, now: u64) -> SessionStep
        ensures reads { (o : Opened) → self.old.seen.opened ≡ Some o → IsStep o self.old.seen self.new.seen result }
        ensures idle { self.old.seen.opened ≡ None → result ≡ SessionStep.Done Answer.Ready }
        ensures stays { self.old.seen.opened ≡ None → self.new.seen ≡ self.old.seen }
        ensures login { self.new.seen.login ≡ self.old.seen.login }
        ensures shorter { length self.new.seen.stand.unread ≤ length self.old.seen.stand.unread }
        ensures lifetime { let unread = length self.new.seen.stand.unread in
            self.new.lifetime ≡ lived now 0 (length self.old.seen.stand.unread) unread self.old.lifetime }
    {
        let before = self.stand.unread.len();
        let step = self.step_once(alloc);
        self.mark_read(before, now);
        step
    }
}
