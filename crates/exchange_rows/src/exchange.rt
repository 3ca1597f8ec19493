//! Plays the rows of exchanges.

ghost use Rattle.std.specs.Prelude.{◌≡◌, None};

use crate::asked::{holds, is_free, is_leased};
use crate::exchanges::EXCHANGES;
use crate::links::connected;
use crate::queries::queried;
use crate::table::{Pool, Table};
use crate::views::view_of;
use my_client::Tape;
use my_frame::NoMemory;
use my_link::MemLink;
use my_pool::BoxedConn;
use my_pool_core::{Answer, PollAnswer, PoolEvent};
use my_pool_store::Shelf;
use pool_looks::{count_rows, event_of, first_word, is_wanted, numbers_of, sides, told};
use std::alloc::Global;
use std::test::Fail;

// The connections in a caller's hand.
type Hand = Shelf<BoxedConn<MemLink>>;

// A connection comes into a hand.
fn hold(hand: &mut Hand, number: u64, conn: Option<BoxedConn<MemLink>>) -> Result<(), NoMemory> {
    let Some(conn) = conn else {
        return Ok(());
    };
    match hand.make_more_room(1) {
        Ok(()) => {
            hand.put(number, conn);
            Ok(())
        }
        Err(error) => {
            drop(conn);
            Err(error)
        }
    }
}

// The connection of a number is let go: its tape.
fn let_go(hand: &mut Hand, number: u64) -> Option<Tape> {
    let mut conn = hand.take(number)?;
    let tape = conn.take_tape();
    drop(conn);
    tape
}

// A request is polled. Where it is to make a connection, that is made at once.
fn poll(
    alloc: Global,
    table: &mut Table,
    hand: &mut Hand,
    age: u64,
    now: u64,
) -> Result<Option<Answer>, NoMemory> {
    if !is_free(table.pool.core(), age) {
        return Ok(None);
    }
    let bell = table.bell(age);
    let (answer, conn, rest) = table.pool.poll_request(age, now, bell);
    drop(rest);
    match answer {
        PollAnswer::Take(number) => hold(hand, number, conn)?,
        PollAnswer::Dial(number) => {
            drop(conn);
            let conn = connected(alloc, &mut table.world, table.pool.opts(), number, now)?;
            hold(hand, number, conn)?;
        }
        _ => drop(conn),
    }
    Ok(Some(Answer::Poll(answer)))
}

// A request's connection is good, or isn't.
fn settle(pool: &mut Pool, hand: &mut Hand, age: u64, number: u64, good: bool) -> Option<Answer> {
    if !holds(pool.core(), age, number) {
        return None;
    }
    if good {
        pool.ready(age, number);
    } else {
        let tape = let_go(hand, number);
        pool.failed(age, number, tape);
    }
    Some(Answer::Done)
}

fn give_still(pool: &mut Pool, number: u64, conn: BoxedConn<MemLink>) -> Option<Answer>
    requires { conn.pending ≡ None }
{
    if !is_leased(pool.core(), number) {
        drop(conn);
        return None;
    }
    pool.give_back(number, conn);
    Some(Answer::Done)
}

fn give(pool: &mut Pool, hand: &mut Hand, number: u64) -> Option<Answer> {
    let conn = hand.take(number)?;
    match conn.open_call() {
        None => give_still(pool, number, conn),
        Some(_) => {
            drop(conn);
            None
        }
    }
}

fn detach(pool: &mut Pool, hand: &mut Hand, number: u64) -> Option<Answer> {
    if !is_leased(pool.core(), number) {
        return None;
    }
    pool.detach(number);
    drop(hand.take(number));
    Some(Answer::Done)
}

fn cancel(pool: &mut Pool, age: u64) -> Option<Answer> {
    if !pool.core().may(&PoolEvent::Cancel { age }) {
        return None;
    }
    pool.cancel(age, None);
    Some(Answer::Done)
}

// What an event returns, where it may happen.
fn happen(
    alloc: Global,
    table: &mut Table,
    hand: &mut Hand,
    event: PoolEvent,
) -> Result<Option<Answer>, NoMemory> {
    match event {
        PoolEvent::Request => Ok(Some(Answer::Age(table.pool.request()?))),
        PoolEvent::PollRequest { age, now } => poll(alloc, table, hand, age, now),
        PoolEvent::Cancel { age } => Ok(cancel(&mut table.pool, age)),
        PoolEvent::Ready { age, conn } => Ok(settle(&mut table.pool, hand, age, conn, true)),
        PoolEvent::Failed { age, conn } => Ok(settle(&mut table.pool, hand, age, conn, false)),
        PoolEvent::GiveBack { conn } => Ok(give(&mut table.pool, hand, conn)),
        PoolEvent::Detach { conn } => Ok(detach(&mut table.pool, hand, conn)),
        PoolEvent::CheckTtl { now } => Ok(Some(Answer::Moved(table.pool.check_ttl(now)))),
        PoolEvent::Close => {
            table.pool.close();
            Ok(Some(Answer::Done))
        }
        PoolEvent::PollDisconnect => Ok(Some(Answer::Gone(table.pool.poll_disconnect()))),
        PoolEvent::TakeReturned | PoolEvent::Decide { .. } | PoolEvent::Done { .. } => Ok(None),
    }
}

// The next connection is decided on at once: the verdict, and its number.
fn next(pool: &mut Pool, now: u64) -> (&'static str, u64) {
    match pool.take_returned() {
        Some(out) => {
            let number = out.number();
            let (word, _, _) = told(Answer::Verdict(pool.decide(out, now)));
            (word, number)
        }
        None => ("none", 0),
    }
}

// What a query of a connection in a hand returns, of which nothing is read.
fn query(alloc: Global, hand: &mut Hand, number: u64) -> Result<&'static str, NoMemory> {
    let Some(conn) = hand.take(number) else {
        return Ok("none");
    };
    let mut conn = conn;
    let word = queried(alloc, &mut conn);
    hold(hand, number, Some(conn))?;
    Ok(word)
}

// Whether what is no event, or is decided on at once, is as a row wants.
fn shows(
    alloc: Global,
    table: &mut Table,
    hand: &mut Hand,
    given: &str,
    want: &str,
) -> Result<bool, NoMemory> {
    let [number, ..] = numbers_of(given);
    let (word, _) = first_word(given);
    match word {
        "link" => table.links(alloc, given),
        "next" => {
            let (word, number) = next(&mut table.pool, number);
            Ok(is_wanted(want, word, &[number], 0))
        }
        "query" => Ok(query(alloc, hand, number)? == want),
        "view" => {
            let shown = view_of(alloc, table.pool.core())?;
            Ok(is_wanted(want, "shows", &shown, 0))
        }
        _ => table.tells(alloc, given, want),
    }
}

fn goes(alloc: Global, table: &mut Table, hand: &mut Hand, row: &str) -> Result<bool, NoMemory> {
    let (given, want) = sides(row);
    match event_of(given) {
        None | Some(PoolEvent::TakeReturned) => shows(alloc, table, hand, given, want),
        Some(event) => match happen(alloc, table, hand, event)? {
            Some(answer) => {
                let (word, first, second) = told(answer);
                Ok(is_wanted(want, word, &[first, second], 0))
            }
            None => Ok(want == "no"),
        },
    }
}

// How many rows of a block go, up to the first one that doesn't.
fn count_going(alloc: Global, table: &mut Table, hand: &mut Hand, block: &str) -> u64 {
    let mut count = 0u64;
    for row in block.lines().skip(1) {
        match goes(alloc, table, hand, row) {
            Ok(true) => count = count.saturating_add(1),
            Ok(false) => break,
            Err(NoMemory) => break,
        }
    }
    count
}

// The same over a new pool.
fn count_right(alloc: Global, block: &str) -> Result<u64, NoMemory> {
    let (words, _) = first_word(block);
    let mut table = Table::new(alloc, words)?;
    let mut hand = Hand::new(alloc);
    let count = count_going(alloc, &mut table, &mut hand, block);
    drop(hand);
    drop(table);
    Ok(count)
}

#[test]
fn ample_pool(rt: HostRuntime) -> Result<(), Fail> {
    let mut ran = 0u64;
    for block in EXCHANGES.split("# ").skip(1) {
        let count = count_right(rt.alloc(), block)?;
        assert!(rt; count == count_rows(block), "row {count} of {block}");
        ran = ran.saturating_add(count);
    }
    println!(rt; "{ran} rows of exchanges")?;
    Ok(())
}
