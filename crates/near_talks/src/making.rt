//! Connections that are made with what a talk plays.

use crate::aid::Script;
use crate::link::{link_of, opts_of};
use crate::words::field;
use my_conn::{Conn, Connected, Connecting};
use my_frame::NoMemory;
use my_link::{MemLink, Met, ReadyLink};
use my_opts::Opts;
use my_opts_parts::limits::LONGEST_URL;
use my_reading::Error;
use std::alloc::Global;

/// A connection that is being made, with options.
pub fn begun(alloc: Global, talk: &str, hold: usize) -> Result<Connecting<MemLink>, NoMemory> {
    let opts = opts_of(alloc)?;
    match link_of(alloc, &opts, talk, hold) {
        Ok(link) => {
            let keep = field(talk, 0) != "connect_untaped";
            match Connecting::new(alloc, opts, link, 3, 0, keep) {
                Ok(connecting) => Ok(connecting),
                Err(link) => {
                    drop(link);
                    Err(NoMemory)
                }
            }
        }
        Err(NoMemory) => {
            drop(opts);
            Err(NoMemory)
        }
    }
}

/// Polls the making of a connection while it is pending, at most `polls` times, at the moment 5. With it comes what the last poll met.
pub fn made(
    alloc: Global,
    connecting: Connecting<MemLink>,
    polls: u64,
    texts: &str,
) -> (Connected<MemLink>, Met) {
    let mut aid = Script { texts };
    let mut connecting = connecting;
    let mut last = Met::nothing();
    'polls: for _ in 0..polls {
        let (connected, met) = connecting.poll(alloc, &mut aid, 5);
        match connected {
            Connected::Pending(next) => connecting = next,
            done => return (done, met),
        }
        last = met;
    }
    (Connected::Pending(connecting), last)
}

/// A connection whose calls wait.
pub type Waiting = Conn<ReadyLink<MemLink>>;

fn new_by_url(alloc: Global, url: &str, link: ReadyLink<MemLink>) -> Result<Waiting, Error> {
    if url.len() > LONGEST_URL {
        drop(link);
        return Err(Error::NoMemory);
    }
    match Conn::from_url(alloc, url, link, 5, 0) {
        Ok(conn) => Ok(conn),
        Err(left) => Err(left.into_error()),
    }
}

fn new_by_opts(alloc: Global, opts: Opts, link: ReadyLink<MemLink>) -> Result<Waiting, Error> {
    match Conn::new(alloc, opts, link, 5, 0) {
        Ok(conn) => Ok(conn),
        Err(left) => Err(left.into_error()),
    }
}

/// Connects with options, or by the URL of the row.
pub fn new_by(alloc: Global, talk: &str) -> Result<Waiting, Error> {
    let opts = opts_of(alloc)?;
    match link_of(alloc, &opts, talk, usize::MAX) {
        Ok(link) => match field(talk, 0).strip_prefix("connect ") {
            Some(url) => {
                drop(opts);
                new_by_url(alloc, url, ReadyLink::new(link))
            }
            None => new_by_opts(alloc, opts, ReadyLink::new(link)),
        },
        Err(NoMemory) => {
            drop(opts);
            Err(Error::NoMemory)
        }
    }
}
