//! Who logs in.

use my_auth::AuthRules;
use my_flags::CapabilityFlags;
use my_frame::{Blob, Listed, NoMemory};
use my_grammar::Login;
use my_handshake::Attributes;
use std::alloc::Global;

fn password_of(alloc: Global, who: &str) -> Result<Option<Blob>, NoMemory> {
    if who == "secret" {
        Ok(Some(Blob::from_slice(alloc, b"pw")?))
    } else {
        Ok(None)
    }
}

// The texts that stand in `all`, each after a comma but the first.
fn listed(alloc: Global, all: &str) -> Result<Listed<Blob>, NoMemory> {
    let mut texts = Listed::new(alloc);
    for text in all.split(',') {
        if !text.is_empty() {
            texts.push(Blob::from_slice(alloc, text.as_bytes())?)?;
        }
    }
    Ok(texts)
}

/// A user `root`. `plain`: no password, and nothing is sent once the connection is made. `secret`: the password `pw`.
/// `asking`: the longest packet is asked for, and `DO 1` is sent. `twice`: `DO 2` and `DO 1` are sent, also when the
/// connection is reset.
pub fn login(alloc: Global, who: &str) -> Result<Login, NoMemory> {
    let asking = who == "asking";
    let init = if asking { "DO 1" } else { "" };
    let setup = if who == "twice" { "DO 1,DO 2" } else { "" };
    Ok(Login {
        user: Some(Blob::from_slice(alloc, b"root")?),
        password: password_of(alloc, who)?,
        database: None,
        max_packet: 4_194_304,
        attributes: Attributes::new(alloc),
        capabilities: CapabilityFlags(0x10f_a281),
        packet_limit: if asking { None } else { Some(4_194_304) },
        wait_timeout: Some(28_800),
        init: listed(alloc, init)?,
        setup: listed(alloc, setup)?,
        statements: 32,
        rules: AuthRules {
            cleartext: false,
            secure: true,
            local: false,
        },
    })
}
