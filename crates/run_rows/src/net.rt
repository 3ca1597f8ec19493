//! Links over sockets of this machine. The test plays the peer itself: what it sends waits in the system until it is read.

use my_frame::{Blob, Listed, NoMemory, SourceStep, Text};
use my_link::{
    AfterStep, Aid, CheckStep, DialStep, Dialer, Link, MemLink, MemWorld, Opening, ReadItem,
    ReadStep, ReadyLink, World, WriteItem, WriteStep, Writes, read_blocking,
};
use my_net::{Stream, StreamLink, TcpWorld};
use my_opts_parts::Target;
use std::alloc::{AllocError, Global};
use std::io::{ErrorKind, Read, Write};
use std::net::{IpAddr, Ipv4Addr, TcpListener};
use std::os::unix::net::UnixListener;
use std::test::Fail;
use std::time::Duration;
use std::{env, fs, io, process, thread};

// A stream of which every call fails.
#[derive(Drop)]
struct Broken;

impl Read for Broken {
    fn read(&mut self, _buf: &mut [u8]) -> io::Result<usize> {
        Err(io::Error::from(ErrorKind::ConnectionReset))
    }
}

impl Write for Broken {
    fn write(&mut self, _buf: &[u8]) -> io::Result<usize> {
        Err(io::Error::from(ErrorKind::BrokenPipe))
    }

    fn flush(&mut self) -> io::Result<()> {
        Ok(())
    }
}

impl Stream for Broken {
    ghost use Rattle.std.specs.Prelude.{false};

    ghost local = { λ s. false };

    fn set_waits(&self, _waits: bool) -> io::Result<()> {
        Ok(())
    }

    fn is_local(&self) -> bool {
        false
    }
}

fn linked<L: Drop>(step: DialStep<L>) -> Option<L> {
    match step {
        DialStep::Link(link) => Some(link),
        DialStep::NotYet | DialStep::Failed => None,
    }
}

// A target at these addresses, or at the host of this name.
fn target(
    alloc: Global,
    host: &str,
    port: u16,
    ips: Option<&[IpAddr]>,
) -> Result<Target, NoMemory> {
    let ips = match ips {
        Some(ips) => Some(Listed::from(Vec::from_slice(alloc, ips)?)),
        None => None,
    };
    Ok(Target::Tcp {
        host: Text::from_str(alloc, host)?,
        port,
        ips,
    })
}

// Whether a dial has a link, which is handed back, or fails; nothing where it isn't done.
fn dial<W: World>(world: &mut W, target: &Target) -> Option<bool> {
    match world.dial(0, target) {
        DialStep::Link(link) => {
            drop(world.hang_up(0, link));
            Some(true)
        }
        DialStep::NotYet => None,
        DialStep::Failed => Some(false),
    }
}

fn dial_at<W: World>(
    alloc: Global,
    world: &mut W,
    host: &str,
    port: u16,
    ips: &[IpAddr],
) -> Result<Option<bool>, NoMemory> {
    let target = target(alloc, host, port, Some(ips))?;
    Ok(dial(world, &target))
}

// Two bytes there, and three bytes back, of which one is left when the link is checked.
fn passes<L: Link, P: Read + Write>(link: &mut L, peer: &mut P) -> io::Result<bool> {
    let mut buf = [0u8; 4];
    let is_sent = link.check() == CheckStep::Alive && link.write(b"ab") == WriteStep::Took(2);
    let asked = peer.read(&mut buf)?;
    peer.write_all(b"xyz")?;
    let got = link.read(&mut buf[2..]);
    let is_received = asked == 2 && got == ReadStep::Got(2) && buf == *b"abxy";
    Ok(is_sent && is_received && link.check() == CheckStep::Dead)
}

// Whether nothing more comes once the peer is gone.
fn is_over<L: Link>(link: &mut L) -> bool {
    let mut buf = [0u8; 1];
    link.read(&mut buf) == ReadStep::End
        && link.read(&mut buf) == ReadStep::End
        && link.check() == CheckStep::Dead
}

fn talks<L: Link, P: Read + Write + Drop>(link: &mut L, mut peer: P) -> io::Result<bool> {
    let is_passed = passes(link, &mut peer)?;
    drop(peer);
    Ok(is_passed && is_over(link))
}

// A host's name is looked up, and its addresses are tried in turn.
#[test]
fn a_link_over_tcp(rt: HostRuntime) -> Result<(), Fail> {
    let listener = TcpListener::bind(&rt, "127.0.0.1:0")?;
    let port = listener.local_addr()?.port();
    let target = target(rt.alloc(), "localhost", port, None)?;
    let step = TcpWorld::new(&rt).dial(0, &target);
    let mut link = linked(step).ok_or("no link")?;
    let (peer, _) = listener.accept()?;
    assert!(rt; !link.is_socket() && talks(&mut link, peer)?);
    Ok(())
}

// Where addresses are given the host's name isn't looked up, and the first one that answers is taken.
#[test]
fn addresses_in_order(rt: HostRuntime) -> Result<(), Fail> {
    let alloc = rt.alloc();
    let listener = TcpListener::bind(&rt, "127.0.0.1:0")?;
    let port = listener.local_addr()?.port();
    let silent = IpAddr::V4(Ipv4Addr::new(127, 0, 0, 2));
    let there = IpAddr::V4(Ipv4Addr::LOCALHOST);
    let mut world = TcpWorld::new(&rt);
    assert!(rt;
        dial_at(alloc, &mut world, "nowhere.invalid", port, &[silent, there])? == Some(true)
            && dial_at(alloc, &mut world, "localhost", port, &[silent])? == Some(false)
            && dial_at(alloc, &mut world, "localhost", port, &[])? == Some(false)
            && !world.plans()
    );
    Ok(())
}

#[test]
fn a_link_over_a_local_socket(rt: HostRuntime) -> Result<(), Fail> {
    let id = process::id(rt.process());
    let path = format!(in rt.alloc(); "{}/run_rows.{id}.socket", env::temp_dir(&rt)?.display())?;
    let place = Target::Socket(Text::from_str(rt.alloc(), path.as_str())?);
    let listener = UnixListener::bind(&rt, path.as_str())?;
    let mut world = TcpWorld::new(&rt);
    let dialed = linked(world.dial(0, &place));
    fs::remove_file(&rt, path.as_str())?;
    let mut link = dialed.ok_or("no link")?;
    let (peer, _) = listener.accept()?;
    assert!(rt;
        link.is_socket() && talks(&mut link, peer)? && dial(&mut world, &place) == Some(false)
    );
    Ok(())
}

// After a check a read waits again, here for a byte that is sent a while after it began.
#[test]
fn a_read_waits_after_a_check(rt: HostRuntime) -> Result<(), Fail> {
    let listener = TcpListener::bind(&rt, "127.0.0.1:0")?;
    let port = listener.local_addr()?.port();
    let target = target(rt.alloc(), "localhost", port, None)?;
    let step = TcpWorld::new(&rt).dial(0, &target);
    let mut link = linked(step).ok_or("no link")?;
    let (mut peer, _) = listener.accept()?;
    let is_alive = link.check() == CheckStep::Alive;
    let sender = thread::spawn(&rt, move || {
        thread::sleep(&rt, Duration::from_millis(50));
        peer.write_all(b"a").is_ok()
    })?;
    let is_read = link.read(&mut [0u8; 1]) == ReadStep::Got(1);
    assert!(rt; sender.join(&rt) && is_alive && is_read);
    Ok(())
}

#[test]
fn a_stream_that_fails(rt: HostRuntime) {
    let mut link = StreamLink::new(Broken);
    assert!(rt;
        link.read(&mut [0u8; 1]) == ReadStep::Failed
            && link.write(b"a") == WriteStep::Failed
            && link.check() == CheckStep::Failed
    );
}

// The clock goes on by milliseconds, and random words differ.
#[test]
fn moments_and_random_words(rt: HostRuntime) {
    let mut world = TcpWorld::new(&rt);
    let first = world.now();
    thread::sleep(&rt, Duration::from_millis(20));
    let passed = world.now().saturating_sub(first);
    assert!(rt; first > 0 && passed >= 20 && passed < 20_000 && world.random() != world.random());
}

// No file is lent, and no text follows a login.
fn lends_nothing<A: Aid>(alloc: Global, aid: &mut A) -> Result<bool, NoMemory> {
    Ok(
        aid.open_file(b"a") == Opening::Absent
            && aid.read(&mut [0u8; 1]) == SourceStep::End
            && matches!(&aid.next(alloc, 0)?, AfterStep::Done),
    )
}

#[test]
fn worlds_lend_nothing(rt: HostRuntime) -> Result<(), Fail> {
    let alloc = rt.alloc();
    assert!(rt;
        lends_nothing(alloc, &mut MemWorld::new(alloc))?
            && lends_nothing(alloc, &mut TcpWorld::new(&rt))?
    );
    Ok(())
}

// A link in memory has nothing to be read yet, which is a fault where a link is to be ready.
fn is_ready(alloc: Global) -> Result<bool, AllocError> {
    let items = vec![in alloc; ReadItem::Wait, ReadItem::End]?;
    let mut link = ReadyLink::new(MemLink::new(alloc, items, Writes::new(alloc)));
    let mut buf = [0u8; 1];
    Ok(
        link.check() == CheckStep::Alive
            && link.write(b"a") == WriteStep::Took(1)
            && read_blocking(&mut link, &mut buf) == SourceStep::Failed
            && read_blocking(&mut link, &mut buf) == SourceStep::End
            && link.check() == CheckStep::Dead,
    )
}

// The byte comes once the other link was sent one; a write that isn't ready, or fails, is a fault.
fn is_asked(alloc: Global) -> Result<bool, NoMemory> {
    let byte = ReadItem::Bytes(Blob::from_slice(alloc, b"z")?);
    let items = vec![in alloc; ReadItem::Turn, byte]?;
    let mut writes = Writes::new(alloc);
    writes.push(WriteItem::Wait)?;
    writes.push(WriteItem::Fail)?;
    let mut link = ReadyLink::new(MemLink::new(alloc, items, writes));
    let mut buf = [0u8; 1];
    let is_held = link.write(b"a") == WriteStep::Failed
        && link.write(b"a") == WriteStep::Failed
        && link.read(&mut buf) == ReadStep::Failed;
    let is_sent = link.write(b"a") == WriteStep::Took(1);
    Ok(is_held && is_sent && link.read(&mut buf) == ReadStep::Got(1) && buf == *b"z")
}

#[test]
fn a_ready_link(rt: HostRuntime) -> Result<(), Fail> {
    assert!(rt; is_ready(rt.alloc())? && is_asked(rt.alloc())?);
    Ok(())
}
