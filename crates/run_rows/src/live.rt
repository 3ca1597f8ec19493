//! Runs against a server on this machine that a thread plays, and over a network that leads nowhere.

use crate::play::fault_with;
use crate::rows::network::NETWORK;
use crate::text::marked;
use my_net::TcpWorld;
use std::alloc::{AllocError, Global};
use std::io::{Read, Write};
use std::net::{TcpListener, TcpStream};
use std::test::Fail;
use std::{io, thread};

// The greeting, the login's OK, and what the server sends to the query.
const PARTS: &[&[u8]] = &[
    b"\x4a\0\0\0\x0a8.0.36\0\x07\0\0\0abcdefgh\0\x8b\xa2\x2d\x02\0\x1f\x01\x15\0\0\0\0\0\0\0\0\0\0ijklmnopqrst\0mysql_native_password\0",
    b"\x07\0\0\x02\0\0\0\x02\0\0\0",
    b"\x01\0\0\x01\x01\x17\0\0\x02\x03def\0\0\0\x011\0\x0c\x3f\0\x01\0\0\0\x08\x81\0\0\0\0\x02\0\0\x03\x011\x07\0\0\x04\xfe\0\0\x02\0\0\0",
];

// Plays a server, which sends these parts, and waits after each until the client sends something or leaves.
fn serve(mut stream: TcpStream) -> io::Result<()> {
    let mut buf = [0u8; 4096];
    for part in PARTS {
        stream.write_all(part)?;
        stream.read(&mut buf)?;
    }
    Ok(())
}

// The words, where `PORT` is this port.
fn words_at(alloc: Global, words: &str, port: u16) -> Result<String, AllocError> {
    match words.split_once("PORT") {
        Some((before, after)) => format!(in alloc; "{before}{port}{after}"),
        None => String::from_str(alloc, words),
    }
}

// The rows of a network that leads nowhere, and the row of a server on loopback.
#[test]
fn rows_over_the_network(rt: HostRuntime) -> Result<(), Fail> {
    let alloc = rt.alloc();
    let listener = TcpListener::bind(&rt, "127.0.0.1:0")?;
    let port = listener.local_addr()?.port();
    let server = thread::spawn(&rt, move || match listener.accept() {
        Ok((stream, _)) => serve(stream).is_ok(),
        Err(_) => false,
    })?;
    let mut rows = 0_u64;
    for row in NETWORK.split("\n\n") {
        let words = marked(alloc, row, '$')?;
        let words = words_at(alloc, words.as_str(), port)?;
        let fault = fault_with(alloc, words.as_str(), row, &mut TcpWorld::new(&rt))?;
        assert!(rt; fault.is_empty(), "{row}\n{fault}");
        rows = rows.wrapping_add(1);
    }
    println!(rt; "{rows} rows of the network")?;
    assert!(rt; rows == 5 && server.join(&rt));
    Ok(())
}
