//! Errors as text.
ghost use Rattle.std.specs.Prelude.{◌≡◌, ◌++◌, ◌∷◌, [], OnOk};
ghost use Rattle.my_script.specs.ErrorText.{params_text, driver_text, fault_text, two_text, codec_text, io_text, server_text, one_text, both_text, url_text, error_text};

use super::parts::{push_bytes, push_decimal, push_marked};
use my_frame::{CodecFault, Text};
use my_opts::UrlError;
use my_params::ParamsError;
use my_reading::{DriverError, Error, IoError, IoFault, IoKind, ServerError};
use std::alloc::{AllocError, Global};

// A word and two numbers.
fn push_two(
    alloc: Global,
    out: &mut Vec<u8>,
    word: &[u8],
    first: u64,
    second: u64,
) -> Result<(), AllocError>
    ensures { OnOk result (out.new.items ≡ out.old.items ++ two_text word.now first second) }
{
    out.extend_from_slice(word)?;
    push_marked(alloc, out, b' ', first)?;
    push_marked(alloc, out, b' ', second)
}

// A word and bytes.
fn push_one(alloc: Global, out: &mut Vec<u8>, word: &[u8], bytes: &[u8]) -> Result<(), AllocError>
    ensures { OnOk result (out.new.items ≡ out.old.items ++ one_text word.now bytes.now) }
{
    out.extend_from_slice(word)?;
    out.push(b' ')?;
    push_bytes(alloc, out, bytes)
}

// A word and two texts.
fn push_both(
    alloc: Global,
    out: &mut Vec<u8>,
    word: &[u8],
    first: &Text,
    second: &Text,
) -> Result<(), AllocError>
    ensures { OnOk result (out.new.items ≡ out.old.items ++ both_text word.now first.now second.now) }
{
    push_one(alloc, out, word, first.as_str().as_bytes())?;
    out.push(b' ')?;
    push_bytes(alloc, out, second.as_str().as_bytes())
}

// Why parameters aren't sent.
fn push_params(alloc: Global, out: &mut Vec<u8>, error: &ParamsError) -> Result<(), AllocError>
    ensures { OnOk result (out.new.items ≡ out.old.items ++ params_text error.now) }
{
    match error {
        ParamsError::Missing(name) => {
            push_one(alloc, out, b"Driver Params Missing", name.as_slice())
        }
        ParamsError::Kind => out.extend_from_slice(b"Driver Params Kind"),
        ParamsError::NoMemory => out.extend_from_slice(b"Driver Params NoMemory"),
    }
}

fn push_driver(alloc: Global, out: &mut Vec<u8>, error: &DriverError) -> Result<(), AllocError>
    ensures { OnOk result (out.new.items ≡ out.old.items ++ driver_text error.now) }
{
    match error {
        DriverError::ConnectionClosed => out.extend_from_slice(b"Driver ConnectionClosed"),
        DriverError::MixedParams => out.extend_from_slice(b"Driver MixedParams"),
        DriverError::NestedTransaction => out.extend_from_slice(b"Driver NestedTransaction"),
        DriverError::PoolDisconnected => out.extend_from_slice(b"Driver PoolDisconnected"),
        DriverError::PoolFull { waiting, limit } => {
            push_two(alloc, out, b"Driver PoolFull", *waiting, *limit)
        }
        DriverError::ReadOnlyTransNotSupported => {
            out.extend_from_slice(b"Driver ReadOnlyTransNotSupported")
        }
        DriverError::Params(error) => push_params(alloc, out, error),
        DriverError::StmtParamsMismatch { required, supplied } => {
            push_two(
                alloc,
                out,
                b"Driver StmtParamsMismatch",
                *required as u64,
                *supplied,
            )
        }
        DriverError::StmtParamsNumberExceedsLimit { supplied } => {
            out.extend_from_slice(b"Driver StmtParamsNumberExceedsLimit")?;
            push_marked(alloc, out, b' ', *supplied)
        }
        DriverError::TooLong => out.extend_from_slice(b"Driver TooLong"),
        DriverError::UnexpectedPacket { payload } => {
            push_one(alloc, out, b"Driver UnexpectedPacket", payload.as_slice())
        }
        DriverError::UnknownAuthPlugin { name } => {
            push_one(alloc, out, b"Driver UnknownAuthPlugin", name.as_slice())
        }
        DriverError::CleartextPluginDisabled => {
            out.extend_from_slice(b"Driver CleartextPluginDisabled")
        }
        DriverError::MysqlOldPasswordDisabled => {
            out.extend_from_slice(b"Driver MysqlOldPasswordDisabled")
        }
        DriverError::FullAuthRefused => out.extend_from_slice(b"Driver FullAuthRefused"),
        DriverError::CantParseServerVersion => {
            out.extend_from_slice(b"Driver CantParseServerVersion")
        }
        DriverError::PacketOutOfOrder => out.extend_from_slice(b"Driver PacketOutOfOrder"),
        DriverError::PacketTooLarge => out.extend_from_slice(b"Driver PacketTooLarge"),
        DriverError::BadCompressedPacketHeader => {
            out.extend_from_slice(b"Driver BadCompressedPacketHeader")
        }
        DriverError::NoKeyFound => out.extend_from_slice(b"Driver NoKeyFound"),
        DriverError::NamedPipesDisabled => out.extend_from_slice(b"Driver NamedPipesDisabled"),
        DriverError::InvalidParsecSalt => out.extend_from_slice(b"Driver InvalidParsecSalt"),
        DriverError::NoClientSslFlagFromServer => {
            out.extend_from_slice(b"Driver NoClientSslFlagFromServer")
        }
    }
}

fn push_fault(alloc: Global, out: &mut Vec<u8>, fault: IoFault) -> Result<(), AllocError>
    ensures { OnOk result (out.new.items ≡ out.old.items ++ fault_text fault.kind fault.place) }
{
    match fault.kind {
        IoKind::Link => out.extend_from_slice(b"Io Link"),
        IoKind::Dial => out.extend_from_slice(b"Io Dial"),
        IoKind::UnexpectedEof => {
            out.extend_from_slice(b"Io UnexpectedEof")?;
            push_marked(alloc, out, b' ', fault.place)
        }
        IoKind::InvalidData => {
            out.extend_from_slice(b"Io InvalidData")?;
            push_marked(alloc, out, b' ', fault.place)
        }
    }
}

fn push_codec(alloc: Global, out: &mut Vec<u8>, fault: CodecFault) -> Result<(), AllocError>
    ensures { OnOk result (out.new.items ≡ out.old.items ++ codec_text fault) }
{
    match fault {
        CodecFault::OutOfOrder { expected, found } => {
            push_two(
                alloc,
                out,
                b"Io Codec OutOfOrder",
                expected as u64,
                found as u64,
            )
        }
        CodecFault::TooLarge { length, limit } => {
            push_two(alloc, out, b"Io Codec TooLarge", length, limit)
        }
    }
}

fn push_io(alloc: Global, out: &mut Vec<u8>, error: IoError) -> Result<(), AllocError>
    ensures { OnOk result (out.new.items ≡ out.old.items ++ io_text error) }
{
    match error {
        IoError::Io(fault) => push_fault(alloc, out, fault),
        IoError::Codec(fault) => push_codec(alloc, out, fault),
    }
}

#[tactic(auto, unfolding(crate::specs::ErrorText::server_text))]
fn push_server(alloc: Global, out: &mut Vec<u8>, error: &ServerError) -> Result<(), AllocError>
    ensures { OnOk result (out.new.items ≡ out.old.items ++ server_text error.now) }
{
    out.extend_from_slice(b"Server ")?;
    push_decimal(alloc, out, error.code as u64)?;
    out.push(b' ')?;
    out.extend_from_slice(error.state.as_str().as_bytes())?;
    out.push(b' ')?;
    push_bytes(alloc, out, error.message.as_str().as_bytes())
}

fn push_url(alloc: Global, out: &mut Vec<u8>, error: &UrlError) -> Result<(), AllocError>
    ensures { OnOk result (out.new.items ≡ out.old.items ++ url_text error.now) }
{
    match error {
        UrlError::FeatureRequired { feature, param } => {
            push_both(alloc, out, b"Url FeatureRequired", feature, param)
        }
        UrlError::Invalid => out.extend_from_slice(b"Url Invalid"),
        UrlError::InvalidParamValue { param, value } => {
            push_both(alloc, out, b"Url InvalidParamValue", param, value)
        }
        UrlError::InvalidPoolConstraints { min, max } => {
            push_two(alloc, out, b"Url InvalidPoolConstraints", *min, *max)
        }
        UrlError::Parse => out.extend_from_slice(b"Url Parse"),
        UrlError::UnknownParameter { param } => {
            push_one(
                alloc,
                out,
                b"Url UnknownParameter",
                param.as_str().as_bytes(),
            )
        }
        UrlError::UnsupportedScheme { scheme } => {
            push_one(
                alloc,
                out,
                b"Url UnsupportedScheme",
                scheme.as_str().as_bytes(),
            )
        }
    }
}

/// An error as text, without the word `error`.
pub fn push_error(alloc: Global, out: &mut Vec<u8>, error: &Error) -> Result<(), AllocError>
    ensures { OnOk result (out.new.items ≡ out.old.items ++ error_text error.now) }
{
    match error {
        Error::Driver(error) => push_driver(alloc, out, error),
        Error::Io(error) => push_io(alloc, out, *error),
        Error::Server(error) => push_server(alloc, out, error),
        Error::Url(error) => push_url(alloc, out, error),
        Error::Other(error) => push_one(alloc, out, b"Other", error.text.as_str().as_bytes()),
        Error::NoMemory => out.extend_from_slice(b"NoMemory"),
    }
}
