//! The link of a talk, which plays what its lines say.

use crate::words::{digits_of, field};
use my_frame::{Blob, NoMemory};
use my_link::{DialStep, Dialer, MemLink, MemWorld, World, WorldLine};
use my_opts::Opts;
use my_opts_parts::limits::LONGEST_URL;
use std::alloc::Global;

// The options of a connection for which the row gives no URL.
const URL: &str = "mysql://root@localhost?max_allowed_packet=4194304&wait_timeout=28800";

// What a word without bytes plays; `unread` plays nothing.
fn line_of(word: &str) -> WorldLine {
    match word {
        "turn" => WorldLine::Turn(0),
        "wait" => WorldLine::Wait(0),
        "fail" => WorldLine::Fail(0),
        "end" => WorldLine::End(0),
        "wwait" => WorldLine::WriteWait(0),
        "wfail" => WorldLine::WriteFail(0),
        _ => {
            let count = word.strip_prefix("accept=").unwrap_or("");
            WorldLine::Accept(0, count.parse::<u64>().unwrap_or(0))
        }
    }
}

fn play(world: &mut MemWorld, line: WorldLine) -> Result<(), NoMemory> {
    let played = world.prepare(&line);
    drop(line);
    played
}

fn play_part(alloc: Global, world: &mut MemWorld, bytes: &[u8]) -> Result<(), NoMemory> {
    play(world, WorldLine::Bytes(0, Blob::from_slice(alloc, bytes)?))
}

// The link isn't ready once before the byte of the number `hold`, from these bytes on.
fn play_bytes(
    alloc: Global,
    world: &mut MemWorld,
    bytes: &[u8],
    hold: &mut usize,
) -> Result<(), NoMemory> {
    let before = *hold;
    if before >= bytes.len() {
        *hold = before - bytes.len();
        return play_part(alloc, world, bytes);
    }
    *hold = usize::MAX;
    play_part(alloc, world, &bytes[..before])?;
    play(world, WorldLine::Wait(0))?;
    play_part(alloc, world, &bytes[before..])
}

fn play_word(
    alloc: Global,
    world: &mut MemWorld,
    word: &str,
    hold: &mut usize,
) -> Result<(), NoMemory> {
    let digits = digits_of(word);
    if digits.is_empty() {
        return play(world, line_of(word));
    }
    match hex::decode(alloc, digits) {
        Ok(bytes) => play_bytes(alloc, world, bytes.as_slice(), hold),
        Err(_) => Err(NoMemory),
    }
}

fn play_all(alloc: Global, world: &mut MemWorld, talk: &str, hold: usize) -> Result<(), NoMemory> {
    let mut left = hold;
    for line in talk.lines() {
        for word in field(line, 1).split(' ') {
            play_word(alloc, world, word, &mut left)?;
        }
    }
    Ok(())
}

fn dial(alloc: Global, world: &mut MemWorld, opts: &Opts) -> Result<MemLink, NoMemory> {
    let target = opts.target(alloc)?;
    let dialed = world.dial(0, &target);
    drop(target);
    match dialed {
        DialStep::Link(link) => Ok(link),
        DialStep::NotYet | DialStep::Failed => Err(NoMemory),
    }
}

/// A world that plays what the lines of a talk say, on a link that isn't ready once before the byte of the number `hold`.
pub fn world_of(alloc: Global, talk: &str, hold: usize) -> Result<MemWorld, NoMemory> {
    let mut world = MemWorld::new(alloc);
    match play_all(alloc, &mut world, talk, hold) {
        Ok(()) => Ok(world),
        Err(NoMemory) => {
            drop(world);
            Err(NoMemory)
        }
    }
}

/// The link of such a world.
pub fn link_of(alloc: Global, opts: &Opts, talk: &str, hold: usize) -> Result<MemLink, NoMemory> {
    match world_of(alloc, talk, hold) {
        Ok(world) => {
            let mut world = world;
            let link = dial(alloc, &mut world, opts);
            drop(world);
            link
        }
        Err(NoMemory) => Err(NoMemory),
    }
}

/// The options of a connection for which the row gives no URL.
pub fn opts_of(alloc: Global) -> Result<Opts, NoMemory> {
    if URL.len() > LONGEST_URL {
        return Err(NoMemory);
    }
    match Opts::from_url(alloc, URL) {
        Ok(opts) => Ok(opts),
        Err(_) => Err(NoMemory),
    }
}
