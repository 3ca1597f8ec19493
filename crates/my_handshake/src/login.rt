//! The packets by which a client logs in.

ghost use Rattle.std.specs.Prelude.{◌≡◌, ◌<◌, ◌++◌, IfOk, OnOk, length};
ghost use Rattle.std.specs.List.{flat_map};
ghost use Rattle.my_handshake.specs.Attributes.{attributes_bytes, pair_bytes};
ghost use Rattle.my_handshake.specs.Login.{change_user_bytes, kept_bytes, maybe_attributes, names_bytes, response_bytes, settings_bytes};

use crate::attributes::{Attribute, Attributes};
use my_flags::{CapabilityFlags, MariadbCapabilities};
use my_frame::writing::{put_short, put_text, put_text0, put_u8, put_u16, put_u32};
use my_frame::{Blob, Copied, NoMemory};
use std::alloc::Global;

/// The client's response to the server's greeting.
#[derive(Drop)]
pub struct HandshakeResponse {
    /// The capabilities that both sides have.
    pub capabilities: CapabilityFlags,
    /// The longest payload that the client accepts, in bytes.
    pub max_packet: u32,
    /// The number of the collation.
    pub charset: u8,
    /// MariaDB's further capabilities that both sides have.
    pub extended: MariadbCapabilities,
    /// Cut before its first zero byte, as the other names are.
    pub user: Blob,
    /// The response to the nonce, of at most 255 bytes.
    pub scramble: Blob,
    /// Sent with the capability `CLIENT_CONNECT_WITH_DB`.
    pub database: Blob,
    /// The name of the authentication plugin.
    pub plugin: Blob,
    /// Sent with the capability `CLIENT_CONNECT_ATTRS`.
    pub attributes: Attributes,
}

/// A new login on an open connection.
#[derive(Drop)]
pub struct ChangeUser {
    /// Cut before its first zero byte, as the other names are.
    pub user: Blob,
    /// The response to the nonce, of at most 255 bytes.
    pub scramble: Blob,
    pub database: Blob,
    /// The number of the collation.
    pub charset: u16,
    /// The name of the authentication plugin.
    pub plugin: Blob,
    /// Given where the connection has the capability `CLIENT_CONNECT_ATTRS`.
    pub attributes: Option<Attributes>,
}

impl HandshakeResponse {
    /// A second value of the same response.
    pub fn copy(&self, alloc: Global) -> Result<HandshakeResponse, NoMemory>
        ensures { IfOk result (λ copy. copy ≡ self.now) }
    {
        Ok(HandshakeResponse {
            capabilities: self.capabilities,
            max_packet: self.max_packet,
            charset: self.charset,
            extended: self.extended,
            user: self.user.copy(alloc)?,
            scramble: self.scramble.copy(alloc)?,
            database: self.database.copy(alloc)?,
            plugin: self.plugin.copy(alloc)?,
            attributes: self.attributes.copy(alloc)?,
        })
    }
}

impl ChangeUser {
    /// A second value of the same login.
    pub fn copy(&self, alloc: Global) -> Result<ChangeUser, NoMemory>
        ensures { IfOk result (λ copy. copy ≡ self.now) }
    {
        Ok(ChangeUser {
            user: self.user.copy(alloc)?,
            scramble: self.scramble.copy(alloc)?,
            database: self.database.copy(alloc)?,
            charset: self.charset,
            plugin: self.plugin.copy(alloc)?,
            attributes: self.attributes.copy(alloc)?,
        })
    }
}

fn put_pair(out: &mut Vec<u8>, pair: &Attribute) -> Result<(), NoMemory>
    ensures { OnOk result (out.new.items ≡ out.old.items ++ pair_bytes pair.now) }
{
    put_text(out, pair.key.as_slice())?;
    put_text(out, pair.value.as_slice())
}

fn put_pairs(out: &mut Vec<u8>, pairs: &[Attribute]) -> Result<(), NoMemory>
    ensures { OnOk result (out.new.items ≡ out.old.items ++ flat_map pair_bytes pairs.now) }
{
    for pair in pairs {
        put_pair(out, pair)?;
    }
    Ok(())
}

fn put_attributes(alloc: Global, out: &mut Vec<u8>, attributes: &Attributes) -> Result<(), NoMemory>
    ensures { OnOk result (out.new.items ≡ out.old.items ++ attributes_bytes attributes.now) }
{
    let mut pairs = Vec::new(alloc);
    put_pairs(&mut pairs, attributes.as_slice())?;
    put_text(out, pairs.as_slice())
}

fn put_settings(out: &mut Vec<u8>, response: &HandshakeResponse) -> Result<(), NoMemory>
    ensures { OnOk result (out.new.items ≡ out.old.items ++ settings_bytes response.now) }
{
    put_u32(out, response.capabilities.0)?;
    put_u32(out, response.max_packet)?;
    put_u8(out, response.charset)?;
    out.extend_from_slice(&[0; 19])?;
    put_u32(out, response.extended.0)
}

fn put_names(out: &mut Vec<u8>, user: &[u8], scramble: &[u8]) -> Result<(), NoMemory>
    requires { length scramble.now < 256 }
    ensures { OnOk result (out.new.items ≡ out.old.items ++ names_bytes user.now scramble.now) }
{
    put_text0(out, user)?;
    put_short(out, scramble)
}

fn put_kept(alloc: Global, out: &mut Vec<u8>, response: &HandshakeResponse) -> Result<(), NoMemory>
    ensures { OnOk result (out.new.items ≡ out.old.items ++ kept_bytes response.now) }
{
    if response.capabilities.connects_with_db() {
        put_text0(out, response.database.as_slice())?;
    }
    put_text0(out, response.plugin.as_slice())?;
    if response.capabilities.sends_connect_attrs() {
        put_attributes(alloc, out, &response.attributes)?;
    }
    Ok(())
}

/// Adds the response to a greeting at the end of `out`.
pub fn put_response(
    alloc: Global,
    out: &mut Vec<u8>,
    response: &HandshakeResponse,
) -> Result<(), NoMemory>
    requires { length response.now.scramble < 256 }
    ensures { OnOk result (out.new.items ≡ out.old.items ++ response_bytes response.now) }
{
    put_settings(out, response)?;
    put_names(out, response.user.as_slice(), response.scramble.as_slice())?;
    put_kept(alloc, out, response)
}

fn put_maybe(
    alloc: Global,
    out: &mut Vec<u8>,
    attributes: &Option<Attributes>,
) -> Result<(), NoMemory>
    ensures { OnOk result (out.new.items ≡ out.old.items ++ maybe_attributes attributes.now) }
{
    match attributes {
        None => Ok(()),
        Some(attributes) => put_attributes(alloc, out, attributes),
    }
}

/// Adds a new login at the end of `out`.
pub fn put_change_user(
    alloc: Global,
    out: &mut Vec<u8>,
    change: &ChangeUser,
) -> Result<(), NoMemory>
    requires { length change.now.scramble < 256 }
    ensures { OnOk result (out.new.items ≡ out.old.items ++ change_user_bytes change.now) }
{
    put_u8(out, 0x11)?;
    put_names(out, change.user.as_slice(), change.scramble.as_slice())?;
    put_text0(out, change.database.as_slice())?;
    put_u16(out, change.charset)?;
    put_text0(out, change.plugin.as_slice())?;
    put_maybe(alloc, out, &change.attributes)
}
