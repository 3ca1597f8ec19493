//! The links of an exchange's rows, which play what their lines say.

use my_conn::{Connected, Connecting};
use my_frame::{Blob, NoMemory};
use my_link::{DialStep, Dialer, MemLink, MemWorld, NoAid, World, WorldLine};
use my_opts::Opts;
use my_opts_parts::limits::LONGEST_URL;
use my_pool::BoxedConn;
use pool_looks::first_word;
use std::alloc::Global;

// What words play: of a server its greeting, its OK for a login, and for a command; and a set of one row.
const PARTS: &str = "\
@greeting 4a0000000a382e302e333600070000006162636465666768008ba22d02001f011500000000000000000000696a6b6c6d6e6f7071727374006d7973716c5f6e61746976655f70617373776f726400
@login_ok 0700000200000002000000
@ok 0700000100000002000000
@set 010000010117000002036465660000000131000c3f000100000008810000000002000003013107000004fe000002000000";

// What options have beside those of the row.
const URL: &str =
    "mysql://root@localhost?max_allowed_packet=4194304&wait_timeout=28800&reset_connection=false&";

/// The options of a row's pool.
pub fn opts_of(alloc: Global, words: &str) -> Result<Opts, NoMemory> {
    let mut url = String::from_str(alloc, URL)?;
    url.push_str(words)?;
    if url.len() > LONGEST_URL {
        return Err(NoMemory);
    }
    match Opts::from_url(alloc, &url) {
        Ok(opts) => Ok(opts),
        Err(_) => Err(NoMemory),
    }
}

fn digits_of(word: &str) -> &str {
    for line in PARTS.lines() {
        let (name, digits) = first_word(line);
        if name == word {
            return digits;
        }
    }
    word
}

fn line_of(alloc: Global, number: u64, word: &str) -> Result<WorldLine, NoMemory> {
    match word {
        "turn" => Ok(WorldLine::Turn(number)),
        "wait" => Ok(WorldLine::Wait(number)),
        "fail" => Ok(WorldLine::Fail(number)),
        "end" => Ok(WorldLine::End(number)),
        "dwait" => Ok(WorldLine::DialWait(number)),
        "dfail" => Ok(WorldLine::DialFail(number)),
        _ => match hex::decode(alloc, digits_of(word)) {
            Ok(bytes) => {
                let copied = Blob::from_slice(alloc, bytes.as_slice());
                drop(bytes);
                Ok(WorldLine::Bytes(number, copied?))
            }
            Err(_) => Err(NoMemory),
        },
    }
}

/// The link of a number plays these words, too.
pub fn play(alloc: Global, world: &mut MemWorld, number: u64, words: &str) -> Result<(), NoMemory> {
    for word in words.split(' ') {
        let line = line_of(alloc, number, word)?;
        let played = world.prepare(&line);
        drop(line);
        played?;
    }
    Ok(())
}

// The link of a number.
fn dialed(
    alloc: Global,
    world: &mut MemWorld,
    opts: &Opts,
    number: u64,
) -> Result<Option<MemLink>, NoMemory> {
    let target = opts.target(alloc)?;
    let step = world.dial(number, &target);
    drop(target);
    match step {
        DialStep::Link(link) => Ok(Some(link)),
        DialStep::NotYet | DialStep::Failed => Ok(None),
    }
}

// A connection that is made by one poll.
fn made(
    alloc: Global,
    connecting: Connecting<MemLink>,
    now: u64,
) -> Result<Option<BoxedConn<MemLink>>, NoMemory> {
    let (connected, _met) = connecting.poll(alloc, &mut NoAid, now);
    match connected {
        Connected::Made(conn) => Ok(Some(BoxedConn::new(alloc, conn)?)),
        Connected::Pending(connecting) => {
            drop(connecting);
            Ok(None)
        }
        Connected::Failed(left) => {
            drop(left);
            Ok(None)
        }
    }
}

/// The connection of a number, made at a moment, where one poll makes it.
pub fn connected(
    alloc: Global,
    world: &mut MemWorld,
    opts: &Opts,
    number: u64,
    now: u64,
) -> Result<Option<BoxedConn<MemLink>>, NoMemory> {
    let Some(link) = dialed(alloc, world, opts, number)? else {
        return Ok(None);
    };
    match opts.copy(alloc) {
        Ok(opts) => match Connecting::new(alloc, opts, link, now, 0, true) {
            Ok(connecting) => made(alloc, connecting, now),
            Err(link) => {
                drop(link);
                Err(NoMemory)
            }
        },
        Err(error) => {
            drop(link);
            Err(error)
        }
    }
}
