//! Runs the rows.

use crate::play::fault_in_memory;
use crate::rows::authentication::AUTHENTICATION;
use crate::rows::connecting::CONNECTING;
use crate::rows::lines::LINES;
use crate::rows::sessions::SESSIONS;
use crate::rows::sets::SETS;
use crate::rows::statements::STATEMENTS;
use crate::rows::transactions::TRANSACTIONS;
use crate::rows::words::WORDS;
use crate::text::{cut, number};
use my_frame::NoMemory;
use std::alloc::{AllocError, Global};
use std::process::Abort;
use std::test::Fail;

// Runs each row, and returns how many there are.
fn ran(rt: &impl Abort, alloc: Global, rows: &str) -> Result<u64, NoMemory> {
    let mut ran = 0_u64;
    for row in rows.split("\n\n") {
        let fault = fault_in_memory(alloc, row)?;
        assert!(rt; fault.is_empty(), "{row}\n{fault}");
        ran = ran.wrapping_add(1);
    }
    Ok(ran)
}

// A line of scripts as a row.
fn row_of(alloc: Global, line: &str) -> Result<String, AllocError> {
    let (at, script) = cut(line);
    let mut left = number(at);
    for text in script.split('|') {
        if left == 1 {
            return format!(in alloc; "> {script}\nstatus 3\ncause {at} {text}\nwhole");
        }
        left = left.wrapping_sub(1);
    }
    format!(in alloc; "> {script}\nuncounted")
}

#[test]
fn words_and_lines(rt: HostRuntime) -> Result<(), Fail> {
    let words = ran(&rt, rt.alloc(), WORDS)?;
    let mut lines = 0_u64;
    for line in LINES.lines() {
        let row = row_of(rt.alloc(), line)?;
        lines = lines.wrapping_add(ran(&rt, rt.alloc(), row.as_str())?);
    }
    println!(rt; "{words} rows of words, {lines} of lines")?;
    assert!(rt; words == 28 && lines == 72);
    Ok(())
}

#[test]
fn authentication(rt: HostRuntime) -> Result<(), Fail> {
    let rows = ran(&rt, rt.alloc(), AUTHENTICATION)?;
    println!(rt; "{rows} rows of authentication")?;
    assert!(rt; rows == 23);
    Ok(())
}

#[test]
fn connecting(rt: HostRuntime) -> Result<(), Fail> {
    let rows = ran(&rt, rt.alloc(), CONNECTING)?;
    println!(rt; "{rows} rows of connecting")?;
    assert!(rt; rows == 32);
    Ok(())
}

#[test]
fn sets(rt: HostRuntime) -> Result<(), Fail> {
    let rows = ran(&rt, rt.alloc(), SETS)?;
    println!(rt; "{rows} rows of sets")?;
    assert!(rt; rows == 53);
    Ok(())
}

#[test]
fn statements(rt: HostRuntime) -> Result<(), Fail> {
    let rows = ran(&rt, rt.alloc(), STATEMENTS)?;
    println!(rt; "{rows} rows of statements")?;
    assert!(rt; rows == 30);
    Ok(())
}

#[test]
fn sessions(rt: HostRuntime) -> Result<(), Fail> {
    let rows = ran(&rt, rt.alloc(), SESSIONS)?;
    println!(rt; "{rows} rows of sessions")?;
    assert!(rt; rows == 25);
    Ok(())
}

#[test]
fn transactions(rt: HostRuntime) -> Result<(), Fail> {
    let rows = ran(&rt, rt.alloc(), TRANSACTIONS)?;
    println!(rt; "{rows} rows of transactions")?;
    assert!(rt; rows == 68);
    Ok(())
}
