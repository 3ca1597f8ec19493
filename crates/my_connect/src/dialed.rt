//! A client over a world.
ghost use Rattle.std.specs.Prelude.{◌≡◌};
ghost use Rattle.my_opts.specs.Url.{options_of};
ghost use Rattle.my_conn.specs.News.{given_by};
ghost use Rattle.my_connect.specs.Connected.{ConnectIs, LeftBy, MadeBy, OptionsAre, UrlConnectIs};
ghost use Rattle.my_connect.specs.Dialed.{DialIs, undialed};

use crate::client::Client;
use my_conn::{Conn, Unmade};
use my_frame::NoMemory;
use my_link::{BlockingLink, DialStep, Dialer, World};
use my_opts::{Opts, UrlFault};
use my_opts_parts::limits::LONGEST_URL;
use my_reading::{Error, IoError, IoFault, IoKind};
use std::alloc::Global;

// The options of a URL. One that is too long is refused as out of memory.
fn options(alloc: Global, url: &str) -> Result<Opts, Error>
    ensures { OptionsAre (options_of url.now) result }
{
    if url.len() > LONGEST_URL {
        return Err(Error::NoMemory);
    }
    match Opts::from_url(alloc, url) {
        Ok(opts) => Ok(opts),
        Err(UrlFault::Url(error)) => Err(Error::Url(error)),
        Err(UrlFault::NoMemory) => Err(Error::NoMemory),
    }
}

// The error of a dial that gave no link.
fn undialed() -> Error
    ensures { result ≡ undialed }
{
    Error::Io(IoError::Io(IoFault {
        kind: IoKind::Dial,
        place: 0,
    }))
}

// The link of the number 0, dialed at the target of the options.
fn dial<W: World>(alloc: Global, opts: &Opts, world: &mut W) -> Result<W::L, Error>
    ensures { DialIs W.L.looks (W.seen world.old) (W.seen world.new) result }
{
    let target = match opts.target(alloc) {
        Ok(target) => target,
        Err(NoMemory) => return Err(Error::NoMemory),
    };
    let step = world.dial(0, &target);
    drop(target);
    match step {
        DialStep::Link(link) => Ok(link),
        DialStep::NotYet => Err(undialed()),
        DialStep::Failed => Err(undialed()),
    }
}

// What is left of a connection that wasn't made: the world takes the link back.
fn give_up<W: World>(world: &mut W, left: Unmade<W::L>) -> Error
    ensures { LeftBy left.error (W.L.looks left.link) (W.seen world.old) (W.seen world.new) result }
{
    let Unmade { error, link, tape } = left;
    drop(tape);
    match world.hang_up(0, link) {
        Ok(()) => error,
        Err(NoMemory) => {
            drop(error);
            Error::NoMemory
        }
    }
}

// A connection over the link that was dialed.
fn make<W: World>(
    alloc: Global,
    opts: Opts,
    link: W::L,
    world: &mut W,
    now: u64,
    random: u64,
) -> Result<Client<W::L>, Error>
where
    W::L: BlockingLink,
    ensures { MadeBy W.L.looks opts (given_by W.L.looks W.L.socket link now random) (W.seen world.old) (W.seen world.new) result }
{
    match Conn::new(alloc, opts, link, now, random) {
        Ok(conn) => Ok(Client::of(conn)),
        Err(left) => Err(give_up(world, left)),
    }
}

/// Connects with these options, and waits until the connection is made. The world dials the link, and tells the
/// moment and a random word; a dial that gives none is an error of the kind `Dial`. Where the making fails, the world
/// takes the link back. It keeps no tape, and no text follows the login.
pub fn connect_with<W: World>(
    alloc: Global,
    opts: Opts,
    world: &mut W,
) -> Result<Client<W::L>, Error>
where
    W::L: BlockingLink,
    ensures { ConnectIs W.L.looks W.L.socket opts (W.seen world.old) (W.seen world.new) result }
{
    let now = world.now();
    let random = world.random();
    match dial(alloc, &opts, world) {
        Ok(link) => make(alloc, opts, link, world, now, random),
        Err(error) => {
            drop(opts);
            Err(error)
        }
    }
}

/// Connects to the server of this URL, as `connect_with` does with its options. A URL that gives none is refused, as
/// is one of more than `LONGEST_URL` bytes, which is out of memory.
pub fn connect<W: World>(alloc: Global, url: &str, world: &mut W) -> Result<Client<W::L>, Error>
where
    W::L: BlockingLink,
    ensures { UrlConnectIs W.L.looks W.L.socket (options_of url.now) (W.seen world.old) (W.seen world.new) result }
{
    match options(alloc, url) {
        Ok(opts) => connect_with(alloc, opts, world),
        Err(error) => Err(error),
    }
}
