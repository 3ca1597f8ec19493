//! The packets by which a server asks for more while a client logs in.

ghost use Rattle.std.specs.Prelude.{◌≡◌, IfOk, Some};
ghost use Rattle.std.specs.Option.{ok_or, option_map};
ghost use Rattle.my_frame.specs.Reading.{Gives, ReadsExactly};
ghost use Rattle.my_handshake.specs.SwitchRequest.{IsMoreData, IsSwitch, request_at, more_data_at, switch_at, without_last_zero};

use my_frame::numbers::{take_head, take_text0, take_u8};
use my_frame::{Blob, NoMemory, ReadError};
use std::alloc::Global;

/// The server asks for another authentication plugin.
#[derive(Drop)]
pub struct SwitchRequest {
    /// The plugin's name.
    pub plugin: Blob,
    /// The nonce, empty where the server sent none.
    pub nonce: Blob,
}

impl SwitchRequest {
    /// A second value of the same request.
    pub fn copy(&self, alloc: Global) -> Result<SwitchRequest, NoMemory>
        ensures { IfOk result (λ copy. copy ≡ self.now) }
    {
        Ok(SwitchRequest {
            plugin: self.plugin.copy(alloc)?,
            nonce: self.nonce.copy(alloc)?,
        })
    }
}

/// Data of the authentication plugin.
#[derive(Clone, Copy, PartialEq, Eq)]
pub struct MoreData {
    /// Its first byte.
    pub kind: u8,
}

fn without_last_zero(left: &[u8]) -> &[u8]
    ensures { result.now ≡ without_last_zero left.now }
{
    match left {
        [front @ .., 0] => front,
        _ => left,
    }
}

// The name and the nonce; the bare head asks for the oldest plugin.
fn request_of(rest: &[u8]) -> Option<(&[u8], &[u8])>
    ensures { option_map (λ x. (x.0.now, x.1.now)) result ≡ request_at rest.now }
{
    if rest.is_empty() {
        return Some((b"mysql_old_password", rest));
    }
    let (plugin, left) = take_text0(rest)?;
    Some((plugin, without_last_zero(left)))
}

/// The name of the plugin and the nonce of a request to switch the authentication plugin, if the payload is one.
pub fn switch_parts(payload: &[u8]) -> Option<(&[u8], &[u8])>
    ensures { option_map (λ x. record { plugin = x.0.now; nonce = x.1.now }) result ≡ switch_at payload.now }
{
    let rest = take_head(payload, 0xFE)?;
    request_of(rest)
}

fn switch_of(alloc: Global, payload: &[u8]) -> Result<SwitchRequest, ReadError>
    ensures { Gives result (switch_at payload.now) }
{
    let (plugin, nonce) = switch_parts(payload).ok_or(ReadError::Malformed)?;
    Ok(SwitchRequest {
        plugin: Blob::from_slice(alloc, plugin)?,
        nonce: Blob::from_slice(alloc, nonce)?,
    })
}

/// Reads a request to switch the authentication plugin. The bare head asks for `mysql_old_password`.
pub fn read_switch(alloc: Global, payload: &[u8]) -> Result<SwitchRequest, ReadError>
    ensures gives { Gives result (switch_at payload.now) }
    ensures exact { ReadsExactly (IsSwitch payload.now) result }
{
    switch_of(alloc, payload)
}

fn more_data_of(payload: &[u8]) -> Option<MoreData>
    ensures { result ≡ more_data_at payload.now }
{
    let rest = take_head(payload, 0x01)?;
    let (kind, _) = take_u8(rest)?;
    Some(MoreData { kind })
}

/// Reads data of the authentication plugin. What follows its first byte is ignored.
pub fn read_more_data(payload: &[u8]) -> Result<MoreData, ReadError>
    ensures gives { result ≡ ok_or (more_data_at payload.now) ReadError.Malformed }
    ensures exact { ReadsExactly (IsMoreData payload.now) result }
{
    more_data_of(payload).ok_or(ReadError::Malformed)
}
