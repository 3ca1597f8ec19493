//! The text of a query or of a statement, held in each way that is one.

use my_frame::{Blob, NoMemory, Text};
use my_rows::{AsQuery, StatementLike, ToStatementResult};
use std::alloc::Global;
use std::borrow::{CowSlice, CowStr};
use std::sync::{ArcSlice, ArcStr};
use std::test::Fail;

const TEXT: &str = "SELECT n, t FROM people";

/// How the text is held.
const HOLDERS: &str = "\
text str
text lent
text string
text cow
text cow owned
text box
text arc
text record
bytes slice
bytes lent
bytes vec
bytes cow
bytes cow owned
bytes box
bytes arc
bytes record";

// Whether this is the text, as a query and as a statement.
fn is_text<H: AsQuery + StatementLike>(alloc: Global, held: &H) -> bool {
    let named = match held.to_statement(alloc) {
        Ok(ToStatementResult::Mediate(text)) => text.as_slice() == TEXT.as_bytes(),
        Ok(ToStatementResult::Immediate(statement)) => {
            drop(statement);
            false
        }
        Err(NoMemory) => false,
    };
    named && held.as_query() == TEXT.as_bytes()
}

fn owned_text(alloc: Global) -> Result<String, NoMemory> {
    Ok(String::from_str(alloc, TEXT)?)
}

fn owned_bytes(alloc: Global) -> Result<Vec<u8>, NoMemory> {
    Ok(Vec::from_slice(alloc, TEXT.as_bytes())?)
}

fn as_cow(alloc: Global, how: &str) -> Result<bool, NoMemory> {
    let held: CowStr<'_> = match how {
        "text cow" => CowStr::Borrowed(TEXT),
        _ => CowStr::Owned(owned_text(alloc)?),
    };
    Ok(is_text(alloc, &held))
}

fn as_cow_bytes(alloc: Global, how: &str) -> Result<bool, NoMemory> {
    let held: CowSlice<'_, u8> = match how {
        "bytes cow" => CowSlice::Borrowed(TEXT.as_bytes()),
        _ => CowSlice::Owned(owned_bytes(alloc)?),
    };
    Ok(is_text(alloc, &held))
}

// Whether what holds it in this way is the text.
fn by_way(alloc: Global, how: &str) -> Result<bool, NoMemory> {
    match how {
        "text str" => Ok(is_text(alloc, &TEXT)),
        "text lent" => Ok(is_text(alloc, &&owned_text(alloc)?)),
        "text string" => Ok(is_text(alloc, &owned_text(alloc)?)),
        "text cow" | "text cow owned" => as_cow(alloc, how),
        "text box" => Ok(is_text(alloc, &owned_text(alloc)?.into_boxed_str())),
        "text arc" => Ok(is_text(alloc, &ArcStr::from_string(owned_text(alloc)?)?)),
        "text record" => Ok(is_text(alloc, &Text::from_str(alloc, TEXT)?)),
        "bytes slice" => Ok(is_text(alloc, &TEXT.as_bytes())),
        "bytes lent" => Ok(is_text(alloc, &&owned_bytes(alloc)?)),
        "bytes vec" => Ok(is_text(alloc, &owned_bytes(alloc)?)),
        "bytes cow" | "bytes cow owned" => as_cow_bytes(alloc, how),
        "bytes box" => Ok(is_text(alloc, &owned_bytes(alloc)?.into_boxed_slice())),
        "bytes arc" => Ok(is_text(alloc, &ArcSlice::from_vec(owned_bytes(alloc)?)?)),
        _ => Ok(is_text(alloc, &Blob::from_slice(alloc, TEXT.as_bytes())?)),
    }
}

fn is_held(alloc: Global, how: &str) -> bool {
    by_way(alloc, how).unwrap_or(false)
}

#[test]
fn texts_are_held(rt: HostRuntime) -> Result<(), Fail> {
    let mut ran = 0u64;
    for row in HOLDERS.lines() {
        assert!(rt; is_held(rt.alloc(), row), "{row}");
        ran = ran.wrapping_add(1);
    }
    assert!(rt; ran == 16);
    Ok(())
}
