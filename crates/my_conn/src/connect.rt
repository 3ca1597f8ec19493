//! Connecting over a link that never holds.
ghost use Rattle.std.specs.Prelude.{◌≡◌, ◌≤◌, None, Ok, Err, IfErr, length};
ghost use Rattle.my_conn.specs.Drives.{EndIs};
ghost use Rattle.my_conn.specs.News.{FromUrlIs, NewIs, given_by};
ghost use Rattle.my_opts.specs.Url.{options_of};
ghost use Rattle.my_opts_parts.specs.declared.error.UrlError.{UrlError};
ghost use Rattle.my_opts_parts.specs.declared.limits.TheConstants.{LONGEST_URL};
ghost use Rattle.my_reading.specs.declared.error.Error.TheVariants as errors;

use crate::conn::{Conn, Fixed};
use crate::unmade::Unmade;
use my_client::{begin_session, shake_hands};
use my_frame::NoMemory;
use my_link::BlockingLink;
use my_opts::{Opts, UrlFault};
use my_reading::Error;
use std::alloc::Global;

impl<L: BlockingLink> Conn<L> {
    /// Connects over this link, and waits until the connection is made. It keeps no tape, and no text follows the
    /// login. Where it fails, the link is handed back with the cause.
    ///
    /// `now` is the moment, in milliseconds. Where the options say that a connection ends, `random` picks among the
    /// moments of its end.
    pub fn new(
        alloc: Global,
        opts: Opts,
        link: L,
        now: u64,
        random: u64,
    ) -> Result<Conn<L>, Unmade<L>>
        ensures { NewIs L.looks opts (given_by L.looks L.socket link now random) result }
    {
        let fixed = Fixed::first(&opts, now);
        let (mut session, mut tape) = match begin_session(
            alloc,
            opts,
            link.is_socket(),
            now,
            random,
            false,
        ) {
            Ok(begun) => begun,
            Err(NoMemory) => return Err(Unmade::untaped(Error::NoMemory, link)),
        };
        let mut link = link;
        match shake_hands(alloc, &mut session, &mut link, &mut tape, now) {
            Ok(()) => return Ok(Conn::made(alloc, session, link, tape, fixed)),
            Err(error) => {
                drop(session);
                drop(tape);
                return Err(Unmade::untaped(error, link));
            }
        }
    }

    /// Connects over this link with the options that a URL gives, as `new` does. A URL that gives none is refused, and
    /// the link isn't used. The text has at most `LONGEST_URL` bytes.
    pub fn from_url(
        alloc: Global,
        url: &str,
        link: L,
        now: u64,
        random: u64,
    ) -> Result<Conn<L>, Unmade<L>>
        requires { length url.now ≤ LONGEST_URL }
        ensures news { FromUrlIs L.looks (options_of url.now) (given_by L.looks L.socket link now random) link result }
        ensures refused { IfErr result (λ u. (e : UrlError) → u.error ≡ errors.Url e → options_of url.now ≡ Err e) }
    {
        match Opts::from_url(alloc, url) {
            Ok(opts) => Conn::new(alloc, opts, link, now, random),
            Err(UrlFault::Url(error)) => Err(Unmade::untaped(Error::Url(error), link)),
            Err(UrlFault::NoMemory) => Err(Unmade::untaped(Error::NoMemory, link)),
        }
    }

    /// Ends the connection, and returns its link, for its caller to let go. After the quit nothing is sent there.
    pub fn disconnect(self, alloc: Global) -> (Result<(), Error>, L)
        requires { self.pending ≡ None }
        ensures { EndIs L.looks self result }
    {
        let mut conn = self;
        let ended = conn.quit(alloc);
        (ended, conn.into_link())
    }
}
