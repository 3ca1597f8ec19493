//! Servers of scripts that are text.

use crate::bytes::{bytes_of, counted};
use my_flags::StatusFlags;
use my_frame::{Blob, Listed, NoMemory, Text};
use my_reply::{ErrPacket, OkPacket};
use my_server::{Reply, ReplyAnswer, ScriptFault, ServerCore, ServerScript, ServerSet};
use std::alloc::Global;

// SHA1(SHA1("password")).
const KNOWN: [u8; 20] =
    *b"\x24\x70\xc0\xc0\x6d\xee\x42\xfd\x16\x18\xbb\x99\x00\x5a\xdc\xa2\xec\x9d\x1e\x19";

// The bytes of a name or a cell: `-` has none, `#300` has 300 bytes `x`, and others are text.
fn blob_of(alloc: Global, token: &str) -> Result<Blob, NoMemory> {
    if token == "-" || token.starts_with('#') {
        return Ok(Blob::from(bytes_of(alloc, token)?));
    }
    Blob::from_slice(alloc, token.as_bytes())
}

fn add_names(alloc: Global, names: &mut Listed<Blob>, text: &str) -> Result<(), NoMemory> {
    for token in text.split(',') {
        let (name, count) = counted(token, '@');
        for _ in 0..count {
            names.push(blob_of(alloc, name)?)?;
        }
    }
    Ok(())
}

fn add_cells(alloc: Global, cells: &mut Listed<Option<Blob>>, text: &str) -> Result<(), NoMemory> {
    for token in text.split(',') {
        let (cell, count) = counted(token, '@');
        for _ in 0..count {
            if cell == "~" {
                cells.push(None)?;
            } else {
                cells.push(Some(blob_of(alloc, cell)?))?;
            }
        }
    }
    Ok(())
}

fn add_row(
    alloc: Global,
    rows: &mut Listed<Listed<Option<Blob>>>,
    text: &str,
) -> Result<(), NoMemory> {
    let mut cells = Listed::new(alloc);
    add_cells(alloc, &mut cells, text)?;
    rows.push(cells)
}

fn add_set(alloc: Global, sets: &mut Listed<ServerSet>, text: &str) -> Result<(), NoMemory> {
    let mut names = Listed::new(alloc);
    let mut rows = Listed::new(alloc);
    for (index, part) in text.split('/').enumerate() {
        if index == 0 {
            add_names(alloc, &mut names, part)?;
        } else {
            let (row, count) = counted(part, '*');
            for _ in 0..count {
                add_row(alloc, &mut rows, row)?;
            }
        }
    }
    sets.push(ServerSet { names, rows })
}

fn add_sets(alloc: Global, sets: &mut Listed<ServerSet>, text: &str) -> Result<(), NoMemory> {
    if text != "none" {
        for set in text.split('|') {
            add_set(alloc, sets, set)?;
        }
    }
    Ok(())
}

fn answer_of(alloc: Global, text: &str) -> Result<ReplyAnswer, NoMemory> {
    if let Some(status) = text.strip_prefix("ok") {
        return Ok(ReplyAnswer::Fine(OkPacket {
            affected: 1,
            insert: 300,
            status: StatusFlags(status.parse::<u16>().unwrap_or(0)),
            warnings: 2,
            info: Blob::new(alloc),
        }));
    }
    if text == "err" {
        return Ok(ReplyAnswer::Refuse(ErrPacket {
            code: 1_146,
            state: *b"42S02",
            message: Text::from_str(alloc, "no table")?,
        }));
    }
    let mut sets = Listed::new(alloc);
    add_sets(alloc, &mut sets, text)?;
    Ok(ReplyAnswer::Sets(sets))
}

fn add_replies(alloc: Global, replies: &mut Listed<Reply>, text: &str) -> Result<(), NoMemory> {
    for reply in text.split(';') {
        let (query, answer) = reply.split_once('=').unwrap_or((reply, ""));
        let text = Blob::from_slice(alloc, query.as_bytes())?;
        let answer = answer_of(alloc, answer)?;
        replies.push(Reply { text, answer })?;
    }
    Ok(())
}

/// A server of a script: the words of its version, whether it has a password, and its replies.
pub fn server_of(alloc: Global, text: &str) -> Result<ServerCore, ScriptFault> {
    let (version, rest) = text.split_once(' ').unwrap_or((text, ""));
    let (password, replies) = rest.split_once(' ').unwrap_or((rest, ""));
    let version = Blob::from(bytes_of(alloc, version)?);
    let user = Blob::from_slice(alloc, b"root")?;
    let mut list = Listed::new(alloc);
    add_replies(alloc, &mut list, replies)?;
    ServerCore::new(
        alloc,
        ServerScript {
            version,
            id: 7,
            nonce: *b"abcdefghijklmnopqrst",
            user,
            stored: if password == "known" {
                Some(KNOWN)
            } else {
                None
            },
            replies: list,
        },
    )
}
