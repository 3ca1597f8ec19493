//! What is found of each tape of the rows, and of changes of it.

use crate::changes::Change;
use crate::lines::{cut, field, place, spelled};
use crate::renewals::RENEWALS;
use crate::spans::{judged, span_of, spans_of};
use crate::tapes::TAPES;
use crate::transactions::TRANSACTIONS;
use crate::trials::{Count, all, allow, named, refute, who};
use crate::wrong_tapes::WRONG_TAPES;
use my_frame::NoMemory;
use my_judge::Verdict;
use std::alloc::Global;
use std::test::Fail;

fn change_of(words: &str) -> Change<'_> {
    if let Some(told) = words.strip_prefix("ending ") {
        return Change {
            name: "ending",
            place: 0,
            told,
        };
    }
    match words.rsplit_once(' ') {
        Some((name, number)) if name.ends_with("byte") => Change {
            name,
            place: place(number),
            told: "",
        },
        _ => named(words),
    }
}

// A line with a call, a change of it, and the call at which it is refuted, or that it is accepted.
fn check(alloc: Global, row: &str, count: &mut Count, line: &str) -> Result<(), NoMemory> {
    let at = place(field(line, 0));
    let change = change_of(field(line, 1));
    match field(line, 2) {
        "accepted" => allow(alloc, row, count, at, change),
        by => refute(alloc, row, count, at, change, place(by)),
    }
}

fn checks(alloc: Global, row: &str, count: &mut Count) -> Result<(), NoMemory> {
    for line in row.lines() {
        if let Some(line) = line.strip_prefix("~ ") {
            check(alloc, row, count, line)?;
        }
    }
    Ok(())
}

// How many changes are refuted; none where a verdict isn't what it should be.
fn counted(alloc: Global, row: &str, from: usize) -> Result<Option<usize>, NoMemory> {
    let mut count = Count {
        refuted: 0,
        is_right: true,
    };
    allow(alloc, row, &mut count, 0, named("nothing"))?;
    checks(alloc, row, &mut count)?;
    all(alloc, row, &mut count, from)?;
    if count.is_right {
        Ok(Some(count.refuted))
    } else {
        Ok(None)
    }
}

// Whether the row's tape with this call at its end is refuted at the call whose number stands before it.
fn is_refuted(alloc: Global, row: &str, line: &str) -> Result<bool, NoMemory> {
    let (by, line) = cut(line);
    let mut spans = spans_of(alloc, row)?;
    spans.push(span_of(alloc, line)?)?;
    Ok(judged(alloc, who(row), spans)? == Verdict::Refuted(place(by)))
}

// Whether this line, which says what is found, is right.
fn is_right(alloc: Global, row: &str, line: &str) -> Result<bool, NoMemory> {
    if let Some(call) = line.strip_prefix("-") {
        return is_refuted(alloc, row, call);
    }
    let words = line.strip_prefix("= from ").unwrap_or("");
    let (from, refuted) = words.split_once(" refuted ").unwrap_or(("", ""));
    Ok(counted(alloc, row, place(from))? == Some(place(refuted)))
}

// Whether a line says what is found.
fn is_finding(line: &str) -> bool {
    line.starts_with('-') || line.starts_with('=')
}

// How many findings of a row are right before the first one that isn't.
fn right_of(alloc: Global, row: &str) -> Result<usize, NoMemory> {
    let mut right = 0usize;
    for line in row.lines() {
        if is_finding(line) {
            if !is_right(alloc, row, line.trim())? {
                return Ok(right);
            }
            right = right.wrapping_add(1);
        }
    }
    Ok(right)
}

fn findings(row: &str) -> usize {
    let mut findings = 0usize;
    for line in row.lines() {
        if is_finding(line) {
            findings = findings.wrapping_add(1);
        }
    }
    findings
}

// How many findings are right before the first one that isn't.
fn right_in(alloc: Global, rows: &str) -> Result<usize, NoMemory> {
    let mut right = 0usize;
    for row in rows.split("\n\n") {
        let text = spelled(alloc, row)?;
        let found = right_of(alloc, text.as_str())?;
        right = right.wrapping_add(found);
        if found < findings(row) {
            return Ok(right);
        }
    }
    Ok(right)
}

#[test]
fn tapes_are_judged(rt: HostRuntime) -> Result<(), Fail> {
    let right = right_in(rt.alloc(), TAPES)?;
    assert!(rt; right == 17, "{right}");
    Ok(())
}

#[test]
fn transactions_are_judged(rt: HostRuntime) -> Result<(), Fail> {
    let right = right_in(rt.alloc(), TRANSACTIONS)?;
    assert!(rt; right == 14, "{right}");
    Ok(())
}

#[test]
fn renewals_are_judged(rt: HostRuntime) -> Result<(), Fail> {
    let right = right_in(rt.alloc(), RENEWALS)?;
    assert!(rt; right == 20, "{right}");
    Ok(())
}

#[test]
fn wrong_tapes_are_judged(rt: HostRuntime) -> Result<(), Fail> {
    let right = right_in(rt.alloc(), WRONG_TAPES)?;
    assert!(rt; right == 61, "{right}");
    Ok(())
}
