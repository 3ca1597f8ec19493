//! A stream of the system as a link.
ghost use Rattle.std.specs.Prelude.{◌≡◌, None};

use crate::stream::{Stream, WatchedStream};
use my_link::{BlockingLink, CheckStep, Link, ReadStep, WriteStep};
use std::io;
use std::io::ErrorKind;
use std::net::TcpStream;
use std::os::unix::net::UnixStream;

/// A stream as a link that waits until it is ready. It counts each call that fails, and tells nothing of bytes. A write
/// that takes nothing is a fault, too.
#[derive(Drop)]
pub struct StreamLink<S> {
    stream: S,
    socket: bool,
    faults: u64,
    ends: u64,
    deaths: u64,
}

pub type TcpLink = StreamLink<TcpStream>;

pub type SocketLink = StreamLink<UnixStream>;

pub type RealLink = StreamLink<WatchedStream>;

impl<S: Stream> StreamLink<S> {
    /// A link over a stream whose reads and writes wait.
    pub fn new(stream: S) -> StreamLink<S>
        ensures socket { result.socket ≡ S.local stream }
        ensures faults { result.faults ≡ 0 }
        ensures ends { result.ends ≡ 0 }
        ensures deaths { result.deaths ≡ 0 }
    {
        let socket = stream.is_local();
        StreamLink {
            stream,
            socket,
            faults: 0,
            ends: 0,
            deaths: 0,
        }
    }
}

// Whether a byte, or the end, can be read at once. A byte that is read so is lost: nobody may have sent one.
fn has_news<S: Stream>(stream: &mut S) -> io::Result<bool> {
    stream.set_waits(false)?;
    let mut byte = [0u8; 1];
    let read = stream.read(&mut byte);
    stream.set_waits(true)?;
    match read {
        Ok(_) => Ok(true),
        Err(error) => {
            if error.kind() == ErrorKind::WouldBlock {
                Ok(false)
            } else {
                Err(error)
            }
        }
    }
}

impl<S: Stream> Link for StreamLink<S> {
    ghost looks = { λ l. record {
      items = None;
      writes = None;
      got = None;
      counts = record { faults = l.faults; holds = 0; ends = l.ends; deaths = l.deaths };
    } };

    ghost socket = { λ l. l.socket };

    fn read(&mut self, buf: &mut [u8]) -> ReadStep {
        match self.stream.read(buf) {
            Ok(0) => {
                self.ends = self.ends.saturating_add(1);
                ReadStep::End
            }
            Ok(count) => ReadStep::Got(count),
            Err(_) => {
                self.faults = self.faults.saturating_add(1);
                ReadStep::Failed
            }
        }
    }

    fn write(&mut self, bytes: &[u8]) -> WriteStep {
        match self.stream.write(bytes) {
            Ok(count) if count > 0 => WriteStep::Took(count),
            _ => {
                self.faults = self.faults.saturating_add(1);
                WriteStep::Failed
            }
        }
    }

    fn check(&mut self) -> CheckStep {
        match has_news(&mut self.stream) {
            Ok(false) => CheckStep::Alive,
            Ok(true) => {
                self.deaths = self.deaths.saturating_add(1);
                CheckStep::Dead
            }
            Err(_) => {
                self.faults = self.faults.saturating_add(1);
                CheckStep::Failed
            }
        }
    }

    fn is_socket(&self) -> bool {
        self.socket
    }
}

impl<S: Stream> BlockingLink for StreamLink<S> {
    ghost use Rattle.std.specs.Prelude.{refl};

    ghost never_holds = { λ l. refl };
}
