//! Rows that are run.

use crate::owned::{executed, owned, queried, taken};
use crate::queries::{asked, batched, given};
use crate::rows::ROWS;
use crate::unread::unread;
use near_rows::{Near, Reads, rows_read};
use std::alloc::{AllocError, Global};
use std::test::Fail;

struct SetReads;

impl Reads for SetReads {
    fn read(alloc: Global, client: &mut Near, how: &str) -> Result<String, AllocError> {
        match how.split_once(' ') {
            Some(("own", how)) => owned(alloc, client, how),
            Some(("query_stream", how)) => queried(alloc, client, how),
            Some(("text", how)) => asked(alloc, client, how),
            Some(("with", how)) => given(alloc, client, how),
            _ => match how {
                "exec_stream" => executed(alloc, client),
                "batch" => batched(alloc, client),
                "taken" => taken(alloc, client),
                _ => unread(alloc, client),
            },
        }
    }
}

#[test]
fn answers_are_read(rt: HostRuntime) -> Result<(), Fail> {
    let ran = rows_read::<SetReads>(rt.alloc(), ROWS);
    assert!(rt; ran == Ok(40), "{ran:?}");
    Ok(())
}
