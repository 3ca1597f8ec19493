//! The packet by which a server greets.

ghost use Rattle.std.specs.Prelude.{◌≡◌, ◌++◌, IfOk, List, ℕ, Some};
ghost use Rattle.std.specs.Option.{option_map};
ghost use Rattle.my_frame.specs.Reading.{Gives, ReadsExactly};
ghost use Rattle.my_handshake.specs.Greeting.{IsGreeting, first_at, greeting_at, greeting_from, second_at, settings_at};

use my_flags::{CapabilityFlags, MariadbCapabilities, StatusFlags};
use my_frame::numbers::{
    before_zero, take_bytes, take_head, take_text0, take_u8, take_u16, take_u32,
};
use my_frame::{Blob, NoMemory, ReadError};
use std::alloc::Global;

/// The capabilities that a server must have: without them its greeting is malformed.
pub const NEEDED_CAPABILITIES: CapabilityFlags = CapabilityFlags(
    CapabilityFlags::CLIENT_PROTOCOL_41.0
        | CapabilityFlags::CLIENT_SECURE_CONNECTION.0
        | CapabilityFlags::CLIENT_PLUGIN_AUTH.0,
);

/// The first packet of a server.
#[derive(Drop)]
pub struct Greeting {
    /// The server's version as text.
    pub version: Blob,
    /// The connection id.
    pub id: u32,
    /// 20 random bytes.
    pub nonce: Blob,
    pub capabilities: CapabilityFlags,
    pub status: StatusFlags,
    /// The name of the authentication plugin.
    pub plugin: Blob,
    /// MariaDB's further capabilities.
    pub extended: MariadbCapabilities,
}

impl Greeting {
    /// A second value of the same greeting.
    pub fn copy(&self, alloc: Global) -> Result<Greeting, NoMemory>
        ensures { IfOk result (λ copy. copy ≡ self.now) }
    {
        let settings = Settings {
            capabilities: self.capabilities,
            status: self.status,
            nonce_length: 0,
            extended: self.extended,
        };
        let none: &[u8] = &[];
        let begun = (self.version.as_slice(), self.id, none);
        let ended = (self.nonce.as_slice(), self.plugin.as_slice());
        greeting_from(alloc, begun, settings, ended)
    }
}

// What is between the two parts of the nonce.
#[derive(Clone, Copy)]
struct Settings {
    capabilities: CapabilityFlags,
    status: StatusFlags,
    nonce_length: u8,
    extended: MariadbCapabilities,
}

// Version, number and the nonce's first part.
fn first_of(payload: &[u8]) -> Option<((&[u8], u32, &[u8]), &[u8])>
    ensures { option_map (λ x. ((x.0.0.now, x.0.1, x.0.2.now), x.1.now)) result ≡ first_at payload.now }
{
    let rest = take_head(payload, 10)?;
    let (version, rest) = take_text0(rest)?;
    let (id, rest) = take_u32(rest)?;
    let (first, rest) = take_bytes(rest, 8)?;
    let rest = take_head(rest, 0)?;
    Some(((version, id, first), rest))
}

#[tactic(auto, unfolding(crate::specs::Greeting::settings_at))]
fn settings_of(bytes: &[u8]) -> Option<(Settings, &[u8])>
    ensures { option_map (λ x. (x.0, x.1.now)) result ≡ settings_at bytes.now }
{
    let (low, rest) = take_u16(bytes)?;
    let (_charset, rest) = take_u8(rest)?;
    let (status, rest) = take_u16(rest)?;
    let (high, rest) = take_u16(rest)?;
    let (nonce_length, rest) = take_u8(rest)?;
    let (_reserved, rest) = take_bytes(rest, 6)?;
    let (extended, rest) = take_u32(rest)?;
    let settings = Settings {
        capabilities: CapabilityFlags(u32::from(low) + 65_536 * u32::from(high)),
        status: StatusFlags(status),
        nonce_length,
        extended: MariadbCapabilities(extended),
    };
    Some((settings, rest))
}

// The nonce's second part, of which 12 bytes count, and the plugin's name.
fn second_of(nonce_length: u8, bytes: &[u8]) -> Option<(&[u8], &[u8])>
    ensures { option_map (λ x. (x.0.now, x.1.now)) result ≡ second_at nonce_length bytes.now }
{
    let count = usize::from(nonce_length.saturating_sub(8)).max(13);
    let (second, rest) = take_bytes(bytes, count)?;
    Some((&second[..12], before_zero(rest)))
}

fn joined(alloc: Global, first: &[u8], second: &[u8]) -> Result<Blob, NoMemory>
    ensures { IfOk result (λ b. b ≡ first.now ++ second.now) }
{
    let mut bytes = Vec::from_slice(alloc, first)?;
    bytes.extend_from_slice(second)?;
    Ok(Blob::from(bytes))
}

// The parts of a greeting, which are still in the payload.
fn parts_of(payload: &[u8]) -> Option<((&[u8], u32, &[u8]), Settings, (&[u8], &[u8]))>
    ensures { option_map (λ x. greeting_from (x.0.0.now, x.0.1, x.0.2.now) x.1 (x.2.0.now, x.2.1.now)) result
        ≡ greeting_at payload.now }
{
    let (begun, rest) = first_of(payload)?;
    let (settings, rest) = settings_of(rest)?;
    let ended = second_of(settings.nonce_length, rest)?;
    if !settings.capabilities.contains(NEEDED_CAPABILITIES) {
        return None;
    }
    Some((begun, settings, ended))
}

// The greeting of these parts.
fn greeting_from(
    alloc: Global,
    begun: (&[u8], u32, &[u8]),
    settings: Settings,
    ended: (&[u8], &[u8]),
) -> Result<Greeting, NoMemory>
    ensures { IfOk result (λ g. g ≡ greeting_from (begun.entry.0.now, begun.entry.1, begun.entry.2.now) settings
        (ended.entry.0.now, ended.entry.1.now)) }
{
    let version = Blob::from_slice(alloc, begun.0)?;
    let nonce = joined(alloc, begun.2, ended.0)?;
    let plugin = Blob::from_slice(alloc, ended.1)?;
    Ok(Greeting {
        version,
        id: begun.1,
        nonce,
        capabilities: settings.capabilities,
        status: settings.status,
        plugin,
        extended: settings.extended,
    })
}

fn greeting_of(alloc: Global, payload: &[u8]) -> Result<Greeting, ReadError>
    ensures { Gives result (greeting_at payload.now) }
{
    match parts_of(payload) {
        None => Err(ReadError::Malformed),
        Some((begun, settings, ended)) => Ok(greeting_from(alloc, begun, settings, ended)?),
    }
}

/// Reads a server's greeting. One without `NEEDED_CAPABILITIES` is malformed.
pub fn read_greeting(alloc: Global, payload: &[u8]) -> Result<Greeting, ReadError>
    ensures gives { Gives result (greeting_at payload.now) }
    ensures exact { ReadsExactly (IsGreeting payload.now) result }
{
    greeting_of(alloc, payload)
}

/// The capability bits that a server offers and the name of the way to log in, if it is a greeting.
pub fn greeting_offer(payload: &[u8]) -> Option<(CapabilityFlags, &[u8])>
    ensures { option_map (λ x. (x.0, x.1.now)) result
        ≡ option_map {U = CapabilityFlags × List ℕ} (λ g. (g.capabilities, g.plugin)) (greeting_at payload.now) }
{
    let (_begun, settings, (_second, plugin)) = parts_of(payload)?;
    Some((settings.capabilities, plugin))
}
