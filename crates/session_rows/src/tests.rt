//! The tests of talks.

use crate::play::fault_of_talk;
use crate::rows::changes::CHANGES;
use crate::rows::connects::CONNECTS;
use crate::rows::logins::LOGINS;
use crate::rows::resets::RESETS;
use crate::rows::statements::STATEMENTS;
use crate::rows::talks::TALKS;
use crate::rows::transactions::TRANSACTIONS;
use my_frame::NoMemory;
use std::alloc::Global;
use std::process::Abort;
use std::test::Fail;

// Plays each talk, and returns how many there are.
fn played(rt: &impl Abort, alloc: Global, talks: &str) -> Result<u64, NoMemory> {
    let mut count = 0u64;
    for talk in talks.split("\n\n") {
        let fault = fault_of_talk(alloc, talk)?;
        assert!(rt; fault.is_empty(), "{talk}\n{fault}");
        count = count.wrapping_add(1);
    }
    Ok(count)
}

#[test]
fn talks(rt: HostRuntime) -> Result<(), Fail> {
    let talks = played(&rt, rt.alloc(), TALKS)?;
    let connects = played(&rt, rt.alloc(), CONNECTS)?;
    let resets = played(&rt, rt.alloc(), RESETS)?;
    let statements = played(&rt, rt.alloc(), STATEMENTS)?;
    let transactions = played(&rt, rt.alloc(), TRANSACTIONS)?;
    let changes = played(&rt, rt.alloc(), CHANGES)?;
    let logins = played(&rt, rt.alloc(), LOGINS)?;
    println!(rt;
        "{talks} talks, {connects} connections, {resets} resets, {statements} of statements"
    )?;
    println!(rt; "{transactions} of transactions, {changes} of changes of user and of a pool")?;
    println!(rt; "{logins} of logins that go on")?;
    assert!(rt; talks == 14 && connects == 17 && resets == 23);
    assert!(rt; statements == 12 && transactions == 50 && changes == 27 && logins == 29);
    Ok(())
}
