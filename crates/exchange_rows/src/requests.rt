//! Plays the rows of requests.

use crate::queries::queried;
use crate::request_rows::REQUESTS;
use crate::table::{Pool, Table, Told};
use my_frame::NoMemory;
use my_link::MemLink;
use my_pool_requests::{AskTurn, Asking, Held, Moment, ask, cancel_ask, detach, give, poll_ask};
use my_reading::{DriverError, Error, IoError, IoKind};
use pool_looks::{count_rows, first_word, is_wanted, looks, numbers_of, sides};
use std::alloc::Global;
use std::process::Abort;
use std::test::Fail;

/// Requests and leases: four of each, by the remainders of their ages and numbers.
pub struct Hands {
    asks: [Option<Asking<MemLink>>; 4],
    leases: [Option<Held<MemLink>>; 4],
}

// What an error says.
fn error_of(error: Error) -> Told {
    let told = match &error {
        Error::Driver(DriverError::PoolDisconnected) => ("closed", 0, 0),
        Error::Driver(DriverError::PoolFull { waiting, limit }) => ("full", *waiting, *limit),
        Error::Io(IoError::Io(fault)) => (
            if fault.kind == IoKind::Dial {
                "dial"
            } else {
                "failed"
            },
            0,
            0,
        ),
        _ => ("failed", 0, 0),
    };
    drop(error);
    told
}

// A request that isn't done is given up.
fn end_ask(rt: &impl Abort, pool: &mut Pool, asking: Option<Asking<MemLink>>) -> bool {
    match asking {
        Some(asking) => {
            assert!(rt; asking.is_of(pool.core()), "a request of this pool");
            cancel_ask(pool, asking);
            true
        }
        None => false,
    }
}

// A lease that isn't over comes back.
fn end_lease(rt: &impl Abort, pool: &mut Pool, held: Option<Held<MemLink>>) -> bool {
    match held {
        Some(held) => {
            assert!(rt; held.is_of(pool.core()), "a lease of this pool");
            give(pool, held);
            true
        }
        None => false,
    }
}

// A lease that isn't over ends, and its connection is let go.
fn end_detached(rt: &impl Abort, pool: &mut Pool, held: Option<Held<MemLink>>) -> bool {
    match held {
        Some(held) => {
            assert!(rt; held.is_of(pool.core()), "a lease of this pool");
            drop(detach(pool, held));
            true
        }
        None => false,
    }
}

impl Hands {
    /// None.
    pub fn new() -> Hands {
        Hands {
            asks: [None, None, None, None],
            leases: [None, None, None, None],
        }
    }

    fn take_ask(&mut self, age: u64) -> Option<Asking<MemLink>> {
        self.asks.get_mut((age % 4) as usize)?.take()
    }

    fn take_lease(&mut self, number: u64) -> Option<Held<MemLink>> {
        self.leases.get_mut((number % 4) as usize)?.take()
    }

    // A request comes into its caller's hand; one that was there is given up.
    fn hold(&mut self, rt: &impl Abort, pool: &mut Pool, age: u64, asking: Asking<MemLink>) {
        let before = match self.asks.get_mut((age % 4) as usize) {
            Some(slot) => slot.replace(asking),
            None => Some(asking),
        };
        end_ask(rt, pool, before);
    }

    fn hold_lease(&mut self, rt: &impl Abort, pool: &mut Pool, number: u64, held: Held<MemLink>) {
        let before = match self.leases.get_mut((number % 4) as usize) {
            Some(slot) => slot.replace(held),
            None => Some(held),
        };
        end_lease(rt, pool, before);
    }

    fn turned(&mut self, rt: &impl Abort, pool: &mut Pool, turn: AskTurn<MemLink>) -> Told {
        match turn {
            AskTurn::Pending(asking) => {
                let age = asking.age();
                self.hold(rt, pool, age, asking);
                ("pending", 0, 0)
            }
            AskTurn::Held(held) => {
                let number = held.number();
                self.hold_lease(rt, pool, number, held);
                ("lease", number, 0)
            }
            AskTurn::Failed(error) => error_of(error),
        }
    }

    // A request is polled.
    fn poll(
        &mut self,
        rt: &impl Abort,
        alloc: Global,
        table: &mut Table,
        asking: Option<Asking<MemLink>>,
        now: u64,
    ) -> Told {
        let Some(asking) = asking else {
            return ("no", 0, 0);
        };
        assert!(rt; asking.is_of(table.pool.core()), "a request of this pool");
        let age = asking.age();
        let bell = table.bell(age);
        let moment = Moment {
            now,
            random: 0,
            keep_tape: true,
        };
        let turn = poll_ask(
            alloc,
            &mut table.pool,
            asking,
            &mut table.world,
            bell,
            moment,
        );
        self.turned(rt, &mut table.pool, turn)
    }

    // A leased connection asks for a set.
    fn query(
        &mut self,
        rt: &impl Abort,
        alloc: Global,
        pool: &mut Pool,
        number: u64,
    ) -> &'static str {
        match self.take_lease(number) {
            Some(held) => {
                let (place, conn) = held.part();
                let mut conn = conn;
                let word = queried(alloc, &mut conn);
                self.hold_lease(rt, pool, number, place.join(conn));
                word
            }
            None => "no",
        }
    }

    /// All are given up and given back.
    pub fn end(self, rt: &impl Abort, pool: &mut Pool) {
        let Hands { asks, leases } = self;
        let [first, second, third, fourth] = asks;
        end_ask(rt, pool, first);
        end_ask(rt, pool, second);
        end_ask(rt, pool, third);
        end_ask(rt, pool, fourth);
        let [first, second, third, fourth] = leases;
        end_lease(rt, pool, first);
        end_lease(rt, pool, second);
        end_lease(rt, pool, third);
        end_lease(rt, pool, fourth);
    }
}

// Whether something was there to be done.
fn done(done: bool) -> Told {
    (if done { "done" } else { "no" }, 0, 0)
}

/// What a call of a word returns; none where it is no call.
pub fn called(
    rt: &impl Abort,
    alloc: Global,
    table: &mut Table,
    hands: &mut Hands,
    word: &str,
    first: u64,
    second: u64,
) -> Result<Option<Told>, NoMemory> {
    let told = match word {
        "get" => {
            let asking = ask(&mut table.pool)?;
            hands.poll(rt, alloc, table, Some(asking), first)
        }
        "again" => {
            let asking = hands.take_ask(first);
            hands.poll(rt, alloc, table, asking, second)
        }
        "drop" => done(end_ask(rt, &mut table.pool, hands.take_ask(first))),
        "give" => done(end_lease(rt, &mut table.pool, hands.take_lease(first))),
        "detach" => done(end_detached(rt, &mut table.pool, hands.take_lease(first))),
        "query" => (hands.query(rt, alloc, &mut table.pool, first), 0, 0),
        _ => return table.own(alloc, word, first),
    };
    Ok(Some(told))
}

fn goes(
    rt: &impl Abort,
    alloc: Global,
    table: &mut Table,
    hands: &mut Hands,
    row: &str,
) -> Result<bool, NoMemory> {
    let (given, want) = sides(row);
    if table.links(alloc, given)? {
        return Ok(true);
    }
    let [first, second, ..] = numbers_of(given);
    let (word, _) = first_word(given);
    match called(rt, alloc, table, hands, word, first, second)? {
        Some((word, first, second)) => Ok(is_wanted(want, word, &[first, second], 0)),
        None => Ok(looks(table.pool.core(), given, want)),
    }
}

// How many rows of a block go, up to the first one that doesn't.
fn count_going(
    rt: &impl Abort,
    alloc: Global,
    table: &mut Table,
    hands: &mut Hands,
    block: &str,
) -> u64 {
    let mut count = 0u64;
    for row in block.lines().skip(1) {
        match goes(rt, alloc, table, hands, row) {
            Ok(true) => count = count.saturating_add(1),
            Ok(false) => break,
            Err(NoMemory) => break,
        }
    }
    count
}

// The same over a new pool.
fn count_right(rt: &impl Abort, alloc: Global, block: &str) -> Result<u64, NoMemory> {
    let (words, _) = first_word(block);
    let mut table = Table::new(alloc, words)?;
    let mut hands = Hands::new();
    let count = count_going(rt, alloc, &mut table, &mut hands, block);
    hands.end(rt, &mut table.pool);
    drop(table);
    Ok(count)
}

#[test]
fn requests(rt: HostRuntime) -> Result<(), Fail> {
    let mut ran = 0u64;
    for block in REQUESTS.split("# ").skip(1) {
        let count = count_right(&rt, rt.alloc(), block)?;
        assert!(rt; count == count_rows(block), "row {count} of {block}");
        ran = ran.saturating_add(count);
    }
    println!(rt; "{ran} rows of requests")?;
    Ok(())
}
