//! Rounds of one call, timed.

use crate::rounds::{meetings, rounds};
use crate::times::Times;
use my_query::{BlockingLink, QueryError, World, connect};
use std::alloc::Global;
use std::rt::{Clock, Files};

// What rounds came to: their times, and the sum of what each gave.
#[derive(Clone, Copy)]
struct Ran {
    times: Times,
    check: u64,
}

// The rounds over one client, which is made before and ended after.
fn run_connected<R: Clock + Files + AllocGlobal, W: World>(
    rt: &R,
    mode: &str,
    url: &str,
    count: u64,
    world: &mut W,
) -> Result<Ran, QueryError>
where
    W::L: BlockingLink + Drop,
{
    let mut client = connect(rt.alloc(), url, world)?;
    let start = Times::now(rt);
    let check = rounds(rt.alloc(), &mut client, mode, count);
    let times = Times::now(rt).since(start);
    drop(client.quit(rt.alloc()));
    Ok(Ran {
        times,
        check: check?,
    })
}

// The rounds that make a client each.
fn run_connecting<R: Clock + Files + AllocGlobal, W: World>(
    rt: &R,
    url: &str,
    count: u64,
    world: &mut W,
) -> Result<Ran, QueryError>
where
    W::L: BlockingLink + Drop,
{
    let start = Times::now(rt);
    let check = meetings(rt.alloc(), url, world, count)?;
    let times = Times::now(rt).since(start);
    Ok(Ran { times, check })
}

// The line that is printed.
fn line(alloc: Global, mode: &str, count: u64, ran: &Ran) -> Result<String, QueryError> {
    let Ran { times, check } = ran;
    Ok(format!(in alloc;
        "{mode} {count} {} {} {} {check}",
        times.wall, times.user, times.system
    )?)
}

/// Does rounds of this mode at the server of this URL: what they came to, in a line. None: there is no such mode,
/// or no such number.
pub fn run<R: Clock + Files + AllocGlobal, W: World>(
    rt: &R,
    mode: &str,
    url: &str,
    count: &str,
    world: &mut W,
) -> Option<Result<String, QueryError>>
where
    W::L: BlockingLink + Drop,
{
    let count = count.parse::<u64>().ok()?;
    let ran = match mode {
        "text" | "prep" | "rows" | "rowsuse" => run_connected(rt, mode, url, count, world),
        "conn" => run_connecting(rt, url, count, world),
        _ => return None,
    };
    match ran {
        Ok(ran) => Some(line(rt.alloc(), mode, count, &ran)),
        Err(error) => Some(Err(error)),
    }
}
