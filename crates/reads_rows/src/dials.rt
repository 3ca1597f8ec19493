//! Clients that a world in memory connects.

use crate::near::NearWorld;
use my_connect::{Client, connect};
use my_frame::NoMemory;
use my_link::{MemLink, ReadyLink};
use my_reading::Error;
use near_talks::{answer_of, failed, field, word_of, world_of};
use std::alloc::Global;
use std::test::Fail;

// The client that connects to a URL while the server of the talk is at the host `localhost`.
fn connected(alloc: Global, talk: &str, url: &str) -> Result<Client<ReadyLink<MemLink>>, Error> {
    match world_of(alloc, talk, usize::MAX) {
        Ok(inner) => {
            let mut world = NearWorld::new(inner, "localhost", 3306);
            let client = connect(alloc, url, &mut world);
            drop(world);
            client
        }
        Err(NoMemory) => Err(Error::NoMemory),
    }
}

// What connecting to a URL returns.
fn dialed(alloc: Global, talk: &str, url: &str) -> &'static str {
    match connected(alloc, talk, url) {
        Ok(client) => {
            let (ended, link) = client.disconnect(alloc);
            drop(link);
            word_of(ended, &mut None)
        }
        Err(error) => failed(error),
    }
}

/// A line is a URL, what the link plays, and what connecting returns, where the server is at `localhost`.
const DIALS: &str = "\
mysql://root@localhost?max_allowed_packet=4194304&wait_timeout=28800 | @greeting turn @login_ok | ok
mysql://root@localhost?max_allowed_packet=4194304&wait_timeout=28800 | @greeting turn @login_err | error 1045
mysql://root@elsewhere?max_allowed_packet=4194304&wait_timeout=28800 | @greeting turn @login_ok | error outside
mysql://root@localhost:3307?max_allowed_packet=4194304&wait_timeout=28800 | @greeting turn @login_ok | error outside
mysql://root@localhost?socket=%2Ftmp%2Fmysql.sock | @greeting turn @login_ok | error outside
mysql://root@localhost?speed=1 | @greeting turn @login_ok | error speed";

#[test]
fn clients_dial(rt: HostRuntime) -> Result<(), Fail> {
    for line in DIALS.lines() {
        let word = dialed(rt.alloc(), line, field(line, 0));
        assert!(rt; word == answer_of(line), "{line}: {word}");
    }
    Ok(())
}
