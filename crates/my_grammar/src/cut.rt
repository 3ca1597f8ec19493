//! The exchanges that bytes hold, as a program finds them.

ghost use Rattle.std.specs.Prelude.{◌≡◌, [], ◌∷◌, ◌++◌, IfOk, OnOk, map};
ghost use Rattle.my_frame.specs.Front.{front_at};
ghost use Rattle.my_grammar.specs.Cut.{cut, is_idle, read_from};
ghost use Rattle.my_grammar.specs.Progress.{front_rest, IsFound, IsReadTo, talk_of};

use crate::login::Login;
use crate::progress::{Opening, Progress};
use crate::spot::Spot;
use my_frame::{CodecFault, NoMemory, scan_front};
use std::alloc::Global;

/// What follows the last payload that was read.
#[derive(Clone, Copy, PartialEq, Eq)]
pub enum CutRest {
    /// Bytes, perhaps none, after an exchange that is over.
    Trailing,
    /// No whole payload yet.
    Unfinished,
    /// A payload that fits no case there.
    Unfit,
    /// A header with a fault.
    Blamed(CodecFault),
}

/// The exchanges that bytes hold, and what follows them.
#[derive(Drop)]
pub struct Found {
    pub exchanges: Vec<Progress>,
    pub rest: CutRest,
}

fn is_idle(spot: Spot) -> bool
    ensures { result ≡ is_idle spot }
{
    match spot {
        Spot::Idle => true,
        _ => false,
    }
}

// What the bytes begin with, where no payload of them can be read.
fn rest_in_front(progress: &Progress, bytes: &[u8]) -> CutRest
    ensures { result ≡ front_rest (front_at progress.now.number progress.now.context.terms.limit bytes.now) }
{
    match scan_front(bytes, progress.number, progress.context.terms.limit) {
        Ok(None) => CutRest::Unfinished,
        Ok(Some(_)) => CutRest::Unfit,
        Err(fault) => CutRest::Blamed(fault),
    }
}

// An exchange as far as the bytes hold it, and the bytes after.
fn read_exchange<'a>(
    alloc: Global,
    login: &Login,
    opening: &Opening,
    bytes: &'a [u8],
) -> Result<(Progress, &'a [u8]), NoMemory>
    ensures { IfOk result (λ x. IsReadTo (read_from (talk_of login.now opening.now) bytes.now) x.0 x.1.now) }
{
    let mut progress = Progress::begin(alloc, login, opening)?;
    let mut rest = bytes;
    'payloads: loop {
        match progress.hear_one(alloc, login, rest)? {
            Some(len) => {
                let (_, after) = rest.split_at(len);
                rest = after;
            }
            None => return Ok((progress, rest)),
        }
    }
}

fn add(exchanges: &mut Vec<Progress>, progress: Progress) -> Result<(), NoMemory>
    ensures { OnOk result (exchanges.new.items ≡ exchanges.old.items ++ progress ∷ []) }
{
    exchanges.push(progress).map_err(|_| NoMemory)
}

/// The exchanges that began so, in order, as far as the bytes hold them: no more begins after one
/// that isn't over. The client logs in by `login`.
pub fn cut_bytes(
    alloc: Global,
    login: &Login,
    openings: &[Opening],
    bytes: &[u8],
) -> Result<Found, NoMemory>
    ensures { IfOk result (λ found. IsFound (cut (map (talk_of login.now) openings.now) bytes.now) found) }
{
    let mut exchanges = Vec::new(alloc);
    let mut rest = bytes;
    for opening in openings {
        let (progress, after) = read_exchange(alloc, login, opening, rest)?;
        rest = after;
        let over = is_idle(progress.context.spot);
        let following = rest_in_front(&progress, rest);
        add(&mut exchanges, progress)?;
        if !over {
            return Ok(Found {
                exchanges,
                rest: following,
            });
        }
    }
    Ok(Found {
        exchanges,
        rest: CutRest::Trailing,
    })
}
