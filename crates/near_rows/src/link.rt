//! A client of a server in memory, which plays packets.

use crate::parts::PARTS;
use my_connect::{Client, Conn, Error};
use my_frame::{Blob, NoMemory};
use my_link::{DialStep, Dialer, MemLink, MemWorld, ReadyLink, World, WorldLine};
use my_opts::Opts;
use my_opts_parts::limits::LONGEST_URL;
use std::alloc::Global;

/// A client over a link in memory.
pub type Near = Client<ReadyLink<MemLink>>;

const URL: &str = "mysql://root@localhost?max_allowed_packet=4194304&wait_timeout=28800";

fn part_of(name: &str) -> &'static str {
    for line in PARTS.lines() {
        let (found, digits) = line.split_once(' ').unwrap_or((line, ""));
        if found == name {
            return digits;
        }
    }
    ""
}

fn play(world: &mut MemWorld, line: WorldLine) -> Result<(), NoMemory> {
    let played = world.prepare(&line);
    drop(line);
    played
}

// The packets of these names come once the client has sent something; those after `turn` once it has sent more.
fn play_turn(alloc: Global, world: &mut MemWorld, names: &str) -> Result<(), NoMemory> {
    play(world, WorldLine::Turn(0))?;
    play_parts(alloc, world, names)
}

fn play_part(alloc: Global, world: &mut MemWorld, name: &str) -> Result<(), NoMemory> {
    if name == "turn" {
        return play(world, WorldLine::Turn(0));
    }
    match hex::decode(alloc, part_of(name)) {
        Ok(bytes) => {
            let bytes = Blob::from_slice(alloc, bytes.as_slice())?;
            play(world, WorldLine::Bytes(0, bytes))
        }
        Err(_) => Err(NoMemory),
    }
}

fn play_parts(alloc: Global, world: &mut MemWorld, names: &str) -> Result<(), NoMemory> {
    for name in names.split(' ') {
        play_part(alloc, world, name)?;
    }
    Ok(())
}

fn play_all(alloc: Global, world: &mut MemWorld, names: &str) -> Result<(), NoMemory> {
    play_parts(alloc, world, "greeting")?;
    play_turn(alloc, world, "login_ok")?;
    play_turn(alloc, world, names)?;
    play_turn(alloc, world, "ok")
}

fn opts_of(alloc: Global) -> Result<Opts, Error> {
    if URL.len() > LONGEST_URL {
        return Err(Error::NoMemory);
    }
    match Opts::from_url(alloc, URL) {
        Ok(opts) => Ok(opts),
        Err(_) => Err(Error::NoMemory),
    }
}

fn dial(alloc: Global, world: &mut MemWorld, opts: &Opts) -> Result<MemLink, Error> {
    let target = opts.target(alloc)?;
    let dialed = world.dial(0, &target);
    drop(target);
    match dialed {
        DialStep::Link(link) => Ok(link),
        DialStep::NotYet | DialStep::Failed => Err(Error::NoMemory),
    }
}

fn link_of(alloc: Global, opts: &Opts, names: &str) -> Result<MemLink, Error> {
    let mut world = MemWorld::new(alloc);
    let link = match play_all(alloc, &mut world, names) {
        Ok(()) => dial(alloc, &mut world, opts),
        Err(NoMemory) => Err(Error::NoMemory),
    };
    drop(world);
    link
}

fn conn_of(alloc: Global, names: &str) -> Result<Conn<ReadyLink<MemLink>>, Error> {
    let opts = opts_of(alloc)?;
    match link_of(alloc, &opts, names) {
        Ok(link) => match Conn::new(alloc, opts, ReadyLink::new(link), 5, 0) {
            Ok(conn) => Ok(conn),
            Err(left) => Err(left.into_error()),
        },
        Err(error) => {
            drop(opts);
            Err(error)
        }
    }
}

/// A client whose next command is answered by the packets of these names, and the one after it by an OK. None: it isn't
/// made.
pub fn client_of(alloc: Global, names: &str) -> Option<Near> {
    match conn_of(alloc, names) {
        Ok(conn) => match Client::new(conn) {
            Ok(client) => Some(client),
            Err(conn) => {
                drop(conn);
                None
            }
        },
        Err(error) => {
            drop(error);
            None
        }
    }
}
