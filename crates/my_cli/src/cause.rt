//! What failed answers say of the server, beyond their own text.
ghost use Rattle.std.specs.Prelude.{◌≡◌};
ghost use Rattle.my_cli.specs.Cause.{outside_text};

use crate::message::printable_char;
use my_frame::numbers::{take_bytes, take_u8, take_u16};
use my_frame::{CodecFault, FULL_LENGTH};
use my_handshake::greeting_offer;
use my_reading::{CallKind, DriverError, Error, IoError, IoFault, IoKind};
use my_script::{Outcome, StepAnswer, Tape};
use std::fmt;
use std::io::ErrorKind;

/// What an answer that failed says of the server.
#[derive(Clone, Copy)]
pub enum Cause<'a> {
    /// The connection was closed.
    Closed,
    /// The first header that came has this number.
    OtherProtocol(u8),
    /// The first packet is no greeting.
    NoGreeting,
    /// Sets of rows would end by EOF packets.
    NoDeprecateEof,
    /// This authentication plugin is asked for, and not there.
    Plugin(&'a [u8]),
    /// The password is asked for as it is, and the options don't allow it.
    Clear,
    /// The password is asked for as it is, over a link that others may read.
    Whole,
    /// A local file is asked for.
    LocalFile,
}

// A text, and a name after a blank.
fn write_named<W: fmt::Write>(f: &mut fmt::Formatter<W>, text: &str, name: &[u8]) -> fmt::Result {
    f.write_str(text)?;
    f.write_char(' ')?;
    for byte in name {
        f.write_char(printable_char(*byte))?;
    }
    Ok(())
}

impl fmt::Display for Cause<'_> {
    fn fmt<W: fmt::Write>(&self, f: &mut fmt::Formatter<W>) -> fmt::Result {
        match self {
            Cause::Closed => f.write_str("the server closed the connection"),
            Cause::OtherProtocol(number) => {
                write!(
                    f,
                    "no MySQL server: its first packet has the number {number}"
                )
            }
            Cause::NoGreeting => f.write_str("no MySQL server: its first packet is no greeting"),
            Cause::NoDeprecateEof => {
                f.write_str("the server lacks DEPRECATE_EOF, as MySQL 5.6 does")
            }
            Cause::Plugin(name) => write_named(
                f,
                "this client lacks the authentication plugin",
                name,
            ),
            Cause::Clear => f.write_str(
                "the server asks for the password in clear, which enable_cleartext_plugin=true allows",
            ),
            Cause::Whole => f.write_str(
                "the server asks for the password itself, which this client doesn't send by caching_sha2_password",
            ),
            Cause::LocalFile => {
                f.write_str("the server asks for a local file, which this client doesn't send")
            }
        }
    }
}

/// What the system told by a fault of this kind, of a dial or a link.
pub fn outside_text(kind: ErrorKind) -> &'static str
    ensures { result.now ≡ outside_text kind }
{
    match kind {
        ErrorKind::ConnectionRefused => "the server refused the connection",
        ErrorKind::ConnectionReset => "the server reset the connection",
        ErrorKind::ConnectionAborted => "the connection was aborted",
        ErrorKind::BrokenPipe => "the server closed the connection",
        ErrorKind::TimedOut => "the server didn't answer in time",
        ErrorKind::HostUnreachable => "the host can't be reached",
        ErrorKind::NetworkUnreachable => "the network can't be reached",
        ErrorKind::NotFound => "there is no such socket",
        ErrorKind::PermissionDenied => "the socket may not be used",
        ErrorKind::Uncategorized => "the host isn't known",
        _ => "the network failed",
    }
}

// The chunk that the bytes begin with, without its header, and the bytes after it.
fn chunk_in_front(bytes: &[u8]) -> Option<(&[u8], &[u8])> {
    let (low, rest) = take_u16(bytes)?;
    let (high, rest) = take_u8(rest)?;
    let (_number, rest) = take_u8(rest)?;
    take_bytes(rest, low as usize + high as usize * 65_536)
}

// The first chunk of the payload that comes after this many.
fn payload_at(taken: &[u8], place: u64) -> Option<&[u8]> {
    let mut rest = taken;
    let mut before = place;
    for _ in 0..taken.len() {
        let (chunk, after) = chunk_in_front(rest)?;
        if before == 0 {
            return Some(chunk);
        }
        if chunk.len() < FULL_LENGTH {
            before -= 1;
        }
        rest = after;
    }
    None
}

// Why a first packet is no greeting for this client.
fn of_greeting(payload: &[u8]) -> Cause<'_> {
    match greeting_offer(payload) {
        Some((capabilities, _plugin)) if !capabilities.deprecates_eof() => Cause::NoDeprecateEof,
        _ => Cause::NoGreeting,
    }
}

// Why a packet may not stand where this call reads it: a server asks for a file.
fn of_answer(kind: CallKind, payload: &[u8]) -> Option<Cause<'_>> {
    match (kind, payload) {
        (CallKind::Query | CallKind::Execute, [0xFB, _name @ ..]) => Some(Cause::LocalFile),
        _ => None,
    }
}

// The call that failed so.
fn failed_call(tape: &Tape, fault: IoFault) -> Option<CallKind> {
    for call in &tape.calls {
        if let Some(Err(Error::Io(IoError::Io(found)))) = &call.answer
            && *found == fault
        {
            return Some(call.call.kind());
        }
    }
    None
}

fn of_data(tape: &Tape, fault: IoFault) -> Option<Cause<'_>> {
    let payload = payload_at(tape.taken.as_slice(), fault.place)?;
    if fault.place == 0 {
        Some(of_greeting(payload))
    } else {
        of_answer(failed_call(tape, fault)?, payload)
    }
}

// Only a first header is awaited with 0 before a command was sent.
fn of_header(tape: &Tape, fault: CodecFault) -> Option<Cause<'_>> {
    match (fault, tape.taken.as_slice()) {
        (CodecFault::OutOfOrder { expected: 0, found }, [_, _, _, number, ..])
            if *number == found => { Some(Cause::OtherProtocol(found)) }
        _ => None,
    }
}

fn tape_of(tapes: &[Tape], number: u64) -> Option<&Tape> {
    for tape in tapes {
        if tape.number == number {
            return Some(tape);
        }
    }
    None
}

// What the client refused where it shows who it is.
fn of_refusal(refusal: &DriverError) -> Option<Cause<'_>> {
    match refusal {
        DriverError::UnknownAuthPlugin { name } => Some(Cause::Plugin(name.as_slice())),
        DriverError::CleartextPluginDisabled => Some(Cause::Clear),
        DriverError::FullAuthRefused => Some(Cause::Whole),
        _ => None,
    }
}

/// What this answer says of the server, where these are the tapes of its run.
pub fn cause_of<'a>(answer: &'a StepAnswer, tapes: &'a [Tape]) -> Option<Cause<'a>> {
    let Outcome::Failed(failure) = &answer.outcome else {
        return None;
    };
    match failure {
        Error::Driver(refusal) => of_refusal(refusal),
        Error::Io(error) => of_link(*error, tape_of(tapes, answer.uses.last()?.number)?),
        _ => None,
    }
}

// What a link told of the server.
fn of_link(error: IoError, tape: &Tape) -> Option<Cause<'_>> {
    match error {
        IoError::Codec(fault) => of_header(tape, fault),
        IoError::Io(fault) => match fault.kind {
            IoKind::UnexpectedEof => Some(Cause::Closed),
            IoKind::InvalidData => of_data(tape, fault),
            IoKind::Link | IoKind::Dial => None,
        },
    }
}

fn is_outside(answer: &StepAnswer) -> bool {
    match &answer.outcome {
        Outcome::Failed(Error::Io(IoError::Io(fault))) => {
            fault.kind == IoKind::Link || fault.kind == IoKind::Dial
        }
        _ => false,
    }
}

/// The number of the last answer that a dial or a link failed.
pub fn last_outside(answers: &[StepAnswer]) -> Option<u64> {
    let mut last = None;
    for answer in answers {
        if is_outside(answer) {
            last = Some(answer.number);
        }
    }
    last
}
