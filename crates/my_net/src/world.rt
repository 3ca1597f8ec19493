//! A world of real links.
ghost use Rattle.std.specs.Prelude.{◌≡◌, None, IfOk, false};
ghost use Rattle.my_net.specs.Streams.{is_local, at_socket};
ghost use Rattle.my_net.specs.Untold.{nothing_told};

use crate::fault::LastFault;
use crate::link::{RealLink, StreamLink};
use crate::stream::{RealStream, WatchedStream};
use my_frame::{NoMemory, SourceStep};
use my_link::{
    AfterConnect, AfterStep, Aid, DialStep, Dialer, GlobalHandler, Opening, World, WorldLine,
};
use my_opts_parts::Target;
use std::alloc::Global;
use std::io;
use std::io::ErrorKind;
use std::net::{IpAddr, Net, SocketAddr, TcpStream};
use std::os::unix::net::UnixStream;
use std::random::RandomSource;
use std::rt::Clock;

/// A world that dials where it is told to. It takes no plan, and tells nothing of its links.
#[derive(Drop)]
pub struct TcpWorld<R> {
    rt: R,
    // Whether lines of a plan are handed to it: not to one that `new` makes. They would change nothing.
    plans: bool,
    faults: u64,
    moment: u64,
    last: LastFault,
}

impl<R: AllocGlobal> TcpWorld<R> {
    /// A world over this system.
    pub fn new(rt: R) -> TcpWorld<R>
        ensures faults { result.faults ≡ 0 }
        ensures plans { result.plans ≡ false }
    {
        let last = LastFault::new(rt.alloc());
        TcpWorld {
            rt,
            plans: false,
            faults: 0,
            moment: 0,
            last,
        }
    }
}

impl<R> TcpWorld<R> {
    /// The kind of the last fault of a dial, or of a link's read or write; none where none failed yet, or where there was
    /// no memory to keep it. The name of a host that isn't known is `Uncategorized`.
    pub fn last_fault(&self) -> Option<ErrorKind> {
        self.last.kind()
    }
}

// The first of these addresses that answers, or the error of the last one.
fn connect_first<R: Net>(rt: &R, ips: &[IpAddr], port: u16) -> io::Result<R::Stream> {
    let mut last = io::Error::from(ErrorKind::AddrNotAvailable);
    for ip in ips {
        match rt.connect(SocketAddr::new(*ip, port)) {
            Ok(stream) => return Ok(stream),
            Err(error) => last = error,
        }
    }
    Err(last)
}

// What is written is sent at once. Else a command that follows another without an answer, as the close of a statement,
// would wait until the server acknowledges the first: some 40 ms. A system that can't do it is slower, and no less right.
fn connect_tcp<R: Net<Stream = TcpStream>>(
    rt: &R,
    host: &str,
    port: u16,
    ips: Option<&[IpAddr]>,
) -> io::Result<TcpStream> {
    let stream = match ips {
        Some(ips) => connect_first(rt, ips, port)?,
        None => TcpStream::connect(rt, (host, port))?,
    };
    let _ = stream.set_nodelay(true);
    Ok(stream)
}

// The stream to a target: to its addresses in order where they are known, else to those that its host's name has.
fn open<R: Net<Stream = TcpStream>>(rt: &R, target: &Target) -> io::Result<RealStream>
    ensures { IfOk result (λ s. is_local s ≡ at_socket target.now) }
{
    match target {
        Target::Socket(path) => Ok(RealStream::Socket(UnixStream::connect(rt, path.as_str())?)),
        Target::Tcp { host, port, ips } => {
            let ips = match ips {
                Some(ips) => Some(ips.as_slice()),
                None => None,
            };
            Ok(RealStream::Tcp(connect_tcp(rt, host.as_str(), *port, ips)?))
        }
    }
}

// The time since some start, in milliseconds.
fn milliseconds<R: Clock>(rt: &R) -> io::Result<u64> {
    Ok(rt.monotonic()?.as_millis().min(u64::MAX as u128) as u64)
}

fn random_word<R: RandomSource>(rt: &R) -> io::Result<u64> {
    let mut bytes = [0u8; 8];
    rt.fill_bytes(&mut bytes)?;
    Ok(u64::from_le_bytes(bytes))
}

impl<R: Net<Stream = TcpStream>> Dialer for TcpWorld<R> {
    ghost use Rattle.std.specs.Prelude.{None};
    ghost use Rattle.my_link.specs.Dials.{no_chance};

    type L = RealLink;

    ghost seen = { λ w. record {
      takes = w.plans;
      plans = nothing_told;
      dials = record { faults = w.faults; holds = 0 };
      chance = no_chance;
      back = None;
    } };

    fn dial(&mut self, _number: u64, target: &Target) -> DialStep<RealLink> {
        match open(&self.rt, target) {
            Ok(stream) => {
                DialStep::Link(StreamLink::new(WatchedStream::new(stream, self.last.share())))
            }
            Err(error) => {
                self.last.keep(error.kind());
                self.faults = self.faults.saturating_add(1);
                DialStep::Failed
            }
        }
    }

    // The stream is closed.
    fn hang_up(&mut self, _number: u64, link: RealLink) -> Result<(), NoMemory> {
        drop(link);
        Ok(())
    }
}

// No file is lent.
impl<R> GlobalHandler for TcpWorld<R> {
    ghost use Rattle.std.specs.Prelude.{[], Some};

    ghost file = { λ w. record { left = Some []; faults = 0 } };

    fn open_file(&mut self, _name: &[u8]) -> Opening
        ensures absent { result ≡ Opening.Absent }
        ensures same { self.new ≡ self.old }
    {
        Opening::Absent
    }

    fn read(&mut self, _buf: &mut [u8]) -> SourceStep
        ensures end { result ≡ SourceStep.End }
        ensures same { self.new ≡ self.old }
    {
        SourceStep::End
    }
}

// No text follows a login.
impl<R> AfterConnect for TcpWorld<R> {
    ghost use Rattle.my_link.specs.Aid.{no_texts};

    ghost texts = { λ w. no_texts };

    fn next(&mut self, _alloc: Global, _n: u64) -> Result<AfterStep, NoMemory>
        ensures done { result ≡ Ok AfterStep.Done }
        ensures same { self.new ≡ self.old }
    {
        Ok(AfterStep::Done)
    }
}

impl<R> Aid for TcpWorld<R> {}

impl<R: Net<Stream = TcpStream> + Clock + RandomSource> World for TcpWorld<R> {
    fn plans(&self) -> bool {
        self.plans
    }

    // What a link does isn't planned here.
    fn prepare(&mut self, _line: &WorldLine) -> Result<(), NoMemory> {
        Ok(())
    }

    // The last moment, where the clock can't be read.
    fn now(&mut self) -> u64 {
        if let Ok(moment) = milliseconds(&self.rt) {
            self.moment = moment;
        }
        self.moment
    }

    // 0, where no random bytes can be had.
    fn random(&mut self) -> u64 {
        random_word(&self.rt).unwrap_or(0)
    }
}
