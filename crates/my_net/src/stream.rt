//! Streams of the system.
ghost use Rattle.std.specs.Prelude.{◌≡◌, Bool, true, false};

use crate::fault::LastFault;
use std::io;
use std::io::{ErrorKind, Read, Write};
use std::net::TcpStream;
use std::os::unix::net::UnixStream;

/// A stream to a peer, which waits until it is ready or is told not to wait.
pub trait Stream: Read + Write {
    /// Whether it is a local socket.
    ghost local: { Self → Bool };

    /// Says whether reads and writes wait.
    fn set_waits(&self, waits: bool) -> io::Result<()>;

    /// Whether it is a local socket.
    fn is_local(&self) -> bool
        ensures { result ≡ local self.now };
}

impl Stream for TcpStream {
    ghost local = { λ s. false };

    fn set_waits(&self, waits: bool) -> io::Result<()> {
        self.set_nonblocking(!waits)
    }

    fn is_local(&self) -> bool {
        false
    }
}

impl Stream for UnixStream {
    ghost local = { λ s. true };

    fn set_waits(&self, waits: bool) -> io::Result<()> {
        self.set_nonblocking(!waits)
    }

    fn is_local(&self) -> bool {
        true
    }
}

/// A stream over TCP, or over a local socket.
#[derive(Drop)]
pub enum RealStream {
    Tcp(TcpStream),
    Socket(UnixStream),
}

impl Read for RealStream {
    fn read(&mut self, buf: &mut [u8]) -> io::Result<usize> {
        match self {
            RealStream::Tcp(stream) => stream.read(buf),
            RealStream::Socket(stream) => stream.read(buf),
        }
    }
}

impl Write for RealStream {
    fn write(&mut self, buf: &[u8]) -> io::Result<usize> {
        match self {
            RealStream::Tcp(stream) => stream.write(buf),
            RealStream::Socket(stream) => stream.write(buf),
        }
    }

    fn flush(&mut self) -> io::Result<()> {
        match self {
            RealStream::Tcp(stream) => stream.flush(),
            RealStream::Socket(stream) => stream.flush(),
        }
    }
}

impl Stream for RealStream {
    ghost use Rattle.my_net.specs.Streams.{is_local};

    ghost local = { is_local };

    fn set_waits(&self, waits: bool) -> io::Result<()> {
        match self {
            RealStream::Tcp(stream) => stream.set_waits(waits),
            RealStream::Socket(stream) => stream.set_waits(waits),
        }
    }

    fn is_local(&self) -> bool {
        match self {
            RealStream::Tcp(stream) => stream.is_local(),
            RealStream::Socket(stream) => stream.is_local(),
        }
    }
}

/// A stream of a world that keeps the kind of its streams' last fault.
#[derive(Drop)]
pub struct WatchedStream {
    stream: RealStream,
    last: LastFault,
}

impl WatchedStream {
    pub(crate) fn new(stream: RealStream, last: LastFault) -> WatchedStream
        ensures { result.stream ≡ stream }
    {
        WatchedStream { stream, last }
    }

    // That a stream which doesn't wait has nothing yet is no fault.
    fn note(&self, error: &io::Error) {
        let kind = error.kind();
        if kind != ErrorKind::WouldBlock {
            self.last.keep(kind);
        }
    }
}

impl Read for WatchedStream {
    fn read(&mut self, buf: &mut [u8]) -> io::Result<usize> {
        let read = self.stream.read(buf);
        if let Err(error) = &read {
            self.note(error);
        }
        read
    }
}

impl Write for WatchedStream {
    fn write(&mut self, buf: &[u8]) -> io::Result<usize> {
        let written = self.stream.write(buf);
        if let Err(error) = &written {
            self.note(error);
        }
        written
    }

    fn flush(&mut self) -> io::Result<()> {
        self.stream.flush()
    }
}

impl Stream for WatchedStream {
    ghost use Rattle.my_net.specs.Streams.{is_local};

    ghost local = { λ s. is_local s.stream };

    fn set_waits(&self, waits: bool) -> io::Result<()> {
        self.stream.set_waits(waits)
    }

    fn is_local(&self) -> bool {
        self.stream.is_local()
    }
}
