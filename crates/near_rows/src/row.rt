//! What a row says.

use crate::link::{Near, client_of};
use my_connect::{Calls, NextAnswer};
use near_talks::failed;
use std::alloc::{AllocError, Global};

// A row: how an answer is read, the packets of the server, what the reads return, and what one more read returns.
#[derive(Clone, Copy)]
struct Row<'a> {
    how: &'a str,
    names: &'a str,
    wanted: &'a str,
    more: &'a str,
}

// The row of a line, whose fields are separated by `|`.
fn row_of(line: &str) -> Row<'_> {
    let mut fields = line.split(" | ");
    let how = fields.next().unwrap_or("");
    let names = fields.next().unwrap_or("");
    let wanted = fields.next().unwrap_or("");
    let more = fields.next().unwrap_or("");
    Row {
        how,
        names,
        wanted,
        more,
    }
}

// One more read, of what is left at the client.
fn left(alloc: Global, client: &mut Near) -> &'static str {
    match client.next_row(alloc) {
        Ok(NextAnswer::Row(row)) => {
            let is_person = row.len() == 2;
            drop(row);
            if is_person { "2" } else { "1" }
        }
        Ok(NextAnswer::SetEnd) => "end",
        Ok(NextAnswer::NoSet) => "end",
        Err(error) => failed(error),
    }
}

/// What reads the answers of rows.
pub trait Reads {
    /// What the reads of a row return.
    fn read(alloc: Global, client: &mut Near, how: &str) -> Result<String, AllocError>;
}

// Whether the reads of a row and one more return what they should, and a ping is answered then.
fn reads_so<R: Reads>(alloc: Global, client: &mut Near, row: &Row<'_>) -> bool {
    let right = match R::read(alloc, client, row.how) {
        Ok(text) => text.as_str() == row.wanted,
        Err(_) => false,
    };
    let rest = left(alloc, client) == row.more;
    client.send_ping(alloc).is_ok() && right && rest
}

fn is_right<R: Reads>(alloc: Global, line: &str) -> bool {
    let row = row_of(line);
    let Some(mut client) = client_of(alloc, row.names) else {
        return false;
    };
    let right = reads_so::<R>(alloc, &mut client, &row);
    drop(client);
    right
}

/// How many rows there are, where each is right; else the first one that isn't.
pub fn rows_read<R: Reads>(alloc: Global, rows: &str) -> Result<u64, &str> {
    let mut ran = 0u64;
    for line in rows.lines() {
        if !is_right::<R>(alloc, line) {
            return Err(line);
        }
        ran = ran.wrapping_add(1);
    }
    Ok(ran)
}
