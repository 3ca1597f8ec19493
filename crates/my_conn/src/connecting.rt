//! A connection that is being made.
ghost use Rattle.std.specs.Prelude.{◌≡◌, None, IfErr, IfOk, is_some};
ghost use Rattle.my_opts_parts.specs.Pool.{deadline_of};
ghost use Rattle.my_session.specs.Login.{login_of};
ghost use Rattle.my_session.specs.View.{first_lifetime};
ghost use Rattle.my_client.specs.Kept.{first_asked, first_kept};
ghost use Rattle.my_client.specs.Makes.{ConnectsFor};
ghost use Rattle.my_client.specs.declared.texts.Making.TheVariants.{Shakes};
ghost use Rattle.my_conn.specs.Cancels.{MakingCancels};
ghost use Rattle.my_conn.specs.Connected.{ConnectIs};
ghost use Rattle.my_conn.specs.News.{first_fixed};

use crate::conn::{Conn, Fixed};
use crate::unmade::Unmade;
use my_client::{MakeStep, Making, Tape, begin_session, cancel_open, make};
use my_frame::NoMemory;
use my_link::{Aid, Link, Met};
use my_opts::Opts;
use my_reading::Error;
use my_session::Session;
use std::alloc::Global;
use std::marker::Model;

/// A connection that is being made. It owns its link.
#[derive(Drop)]
pub struct Connecting<L> {
    session: Session,
    link: L,
    tape: Option<Tape>,
    // Which call is open.
    at: Making,
    fixed: Fixed,
}

impl<L> Model for Connecting<L> {
    ghost use Rattle.my_client.specs.Makes.{IsMaking};
    ghost use Rattle.my_conn.specs.Connects.{ConnectSeen};

    ghost Value = { ConnectSeen L };

    ghost view = { λ c. record {
      seen = c.session.seen;
      lifetime = c.session.lifetime;
      link = c.link;
      tape = c.tape;
      at = c.at;
      fixed = c.fixed;
    } };

    ghost invariant = { λ c. IsMaking c.at c.session.seen c.tape };
}

/// What a poll of a connection that is being made returns.
#[derive(Drop)]
pub enum Connected<L> {
    /// It isn't made yet.
    Pending(Connecting<L>),
    Made(Conn<L>),
    /// It failed: what is left of it.
    Failed(Unmade<L>),
}

impl<L> Connecting<L> {
    /// Hands out the tape, where one is kept. None is kept from here on.
    pub fn take_tape(&mut self) -> Option<Tape>
        ensures tape { result ≡ self.old.tape }
        ensures rest { self.new ≡ record self.old { tape = None } }
    {
        self.tape.take()
    }

    /// Gives the making up, and returns the link. Nothing is sent.
    pub fn into_link(self) -> L
        ensures { result ≡ self.link }
    {
        let Connecting {
            session,
            link,
            tape,
            at: _,
            fixed: _,
        } = self;
        drop(session);
        drop(tape);
        link
    }

    /// Cancels the open call, which gives the making up. Returns the tape, where one is kept, and the link. Nothing
    /// is sent, and it takes no memory.
    pub fn cancel(self) -> (Option<Tape>, L)
        ensures cancels { MakingCancels self.seen self.tape result.0 }
        ensures keeps { is_some result.0 ≡ is_some self.tape }
        ensures link { result.1 ≡ self.link }
    {
        let Connecting {
            mut session,
            link,
            mut tape,
            at: _,
            fixed: _,
        } = self;
        cancel_open(&mut session, &mut tape);
        drop(session);
        (tape, link)
    }
}

impl<L: Link> Connecting<L> {
    /// The handshake begins. Where `keep_tape` is set, the connection keeps all bytes and calls. Out of memory the
    /// link is returned.
    ///
    /// `now` is the moment, in milliseconds. Where the options say that a connection ends, `random` picks among the
    /// moments of its end.
    pub fn new(
        alloc: Global,
        opts: Opts,
        link: L,
        now: u64,
        random: u64,
        keep_tape: bool,
    ) -> Result<Connecting<L>, L>
        ensures begins { IfOk result (λ c. ConnectsFor (login_of opts) c.seen c.tape first_kept first_asked) }
        ensures lifetime { IfOk result (λ c. c.lifetime ≡
            first_lifetime opts (L.socket link) (deadline_of opts.pool_opts now random)) }
        ensures tape { IfOk result (λ c. is_some c.tape ≡ keep_tape) }
        ensures link { IfOk result (λ c. c.link ≡ link) }
        ensures at { IfOk result (λ c. c.at ≡ Shakes) }
        ensures fixed { IfOk result (λ c. c.fixed ≡ first_fixed opts now) }
        ensures back { IfErr result (λ l. l ≡ link) }
    {
        let fixed = Fixed::first(&opts, now);
        match begin_session(alloc, opts, link.is_socket(), now, random, keep_tape) {
            Ok((session, tape)) => Ok(Connecting {
                session,
                link,
                tape,
                at: Making::Shakes,
                fixed,
            }),
            Err(NoMemory) => Err(link),
        }
    }

    /// Continues the making of the connection: the handshake, and then each text that the aid tells, with its result
    /// read whole before the next. Where it isn't made yet, the connection that is being made is returned; where it
    /// failed, what is left of it. With it comes what was met.
    ///
    /// The queries of the options, `init` and `setup`, belong to the handshake, so they are sent before the aid's texts.
    ///
    /// `now` is the moment, in milliseconds. The aid is asked what follows, and for nothing else.
    pub fn poll<A: Aid>(self, alloc: Global, aid: &mut A, now: u64) -> (Connected<L>, Met)
        ensures connects { ConnectIs L.looks (A.texts aid.old) now self result.1 result.0 }
        ensures texts { A.texts aid.new ≡ A.texts aid.old }
    {
        let Connecting {
            mut session,
            mut link,
            mut tape,
            at,
            fixed,
        } = self;
        match make(alloc, &mut session, &mut link, &mut tape, at, aid, now) {
            Ok((step, met)) => match step {
                MakeStep::Pending(at) => (
                    Connected::Pending(Connecting {
                        session,
                        link,
                        tape,
                        at,
                        fixed,
                    }),
                    met,
                ),
                MakeStep::Made => {
                    let conn = Conn::made(alloc, session, link, tape, fixed);
                    (Connected::Made(conn), met)
                }
                MakeStep::Failed(error) => {
                    drop(session);
                    (Connected::Failed(Unmade { error, link, tape }), met)
                }
            },
            Err(NoMemory) => {
                drop(session);
                drop(tape);
                let left = Unmade::untaped(Error::NoMemory, link);
                (Connected::Failed(left), Met::nothing())
            }
        }
    }
}
