//! What a client sends of itself when a connection is made.

ghost use Rattle.std.specs.Prelude.{◌≡◌, ◌≤◌, [], IfOk, length, unwrap_or};
ghost use Rattle.my_handshake.specs.Login.{response_bytes};
ghost use Rattle.my_grammar.specs.Response.{charset_of, response, response_to};

use crate::kinds::is_caching;
use crate::scramble::password_answer;
use my_auth::{AuthPlugin, AuthRules};
use my_command::{ClientPacket, write_client};
use my_flags::{CapabilityFlags, MariadbCapabilities};
use my_frame::{Blob, Copied, Listed, NoMemory, ReadError};
use my_handshake::{
    Attributes, Greeting, HandshakeResponse, ServerVersion, read_greeting, server_version,
};
use std::alloc::Global;

/// What of the options a client needs to log in and to set its connection up.
#[derive(Drop)]
pub struct Login {
    pub user: Option<Blob>,
    pub password: Option<Blob>,
    pub database: Option<Blob>,
    /// The longest payload that the client reads, as it sends it to the server, in bytes.
    pub max_packet: u32,
    /// Names and values that the server keeps for its statistics.
    pub attributes: Attributes,
    /// What the client can do.
    pub capabilities: CapabilityFlags,
    /// The longest payload after the login, in bytes. Where none is set, the server is asked.
    pub packet_limit: Option<u64>,
    /// After this many seconds without a command the server ends the connection. Where none is set, the server is asked.
    pub wait_timeout: Option<u64>,
    /// Queries that set a connection up when it is made, from the last to the first.
    pub init: Listed<Blob>,
    /// Queries that set a connection up when it is made and whenever it is reset, after the others, from the last to the first.
    pub setup: Listed<Blob>,
    /// How many prepared statements are kept, at most 65,535.
    pub statements: u64,
    /// What the client may answer where a server asks for more than its response.
    pub rules: AuthRules,
}

impl Login {
    /// A second value of the same login.
    pub fn copy(&self, alloc: Global) -> Result<Login, NoMemory>
        ensures { IfOk result (λ copy. copy ≡ self.now) }
    {
        Ok(Login {
            user: self.user.copy(alloc)?,
            password: self.password.copy(alloc)?,
            database: self.database.copy(alloc)?,
            max_packet: self.max_packet,
            attributes: self.attributes.copy(alloc)?,
            capabilities: self.capabilities,
            packet_limit: self.packet_limit,
            wait_timeout: self.wait_timeout,
            init: self.init.copy(alloc)?,
            setup: self.setup.copy(alloc)?,
            statements: self.statements,
            rules: self.rules,
        })
    }
}

/// The number of the character set: utf8mb4 where the server knows it.
pub(crate) fn charset_for(version: ServerVersion) -> u8
    ensures { result ≡ charset_of version }
{
    let new_major = version.major > 5;
    let new_minor = version.major == 5 && version.minor > 5;
    let new_patch = version.major == 5 && version.minor == 5 && version.patch >= 3;
    if new_major || new_minor || new_patch {
        45
    } else {
        33
    }
}

/// The text, or an empty one.
pub(crate) fn text_or_none(alloc: Global, text: &Option<Blob>) -> Result<Blob, NoMemory>
    ensures { IfOk result (λ copy. copy ≡ unwrap_or text.now []) }
{
    match text {
        Some(text) => text.copy(alloc),
        None => Ok(Blob::new(alloc)),
    }
}

// What the client answers to this greeting.
fn response_to(
    alloc: Global,
    login: &Login,
    greeting: &Greeting,
) -> Result<HandshakeResponse, NoMemory>
    ensures value { IfOk result (λ packet. packet ≡ response_to login.now greeting.now) }
    ensures short { IfOk result (λ packet. length packet.scramble ≤ 32) }
{
    let caching = is_caching(greeting.plugin.as_slice());
    let scramble = password_answer(alloc, caching, &login.password, greeting.nonce.as_slice())?;
    Ok(HandshakeResponse {
        capabilities: login.capabilities.intersection(greeting.capabilities),
        max_packet: login.max_packet,
        charset: charset_for(server_version(greeting.version.as_slice())),
        extended: MariadbCapabilities(0),
        user: text_or_none(alloc, &login.user)?,
        scramble,
        database: text_or_none(alloc, &login.database)?,
        plugin: Blob::from_slice(alloc, AuthPlugin::of_challenge(caching).name())?,
        attributes: login.attributes.copy(alloc)?,
    })
}

fn written(alloc: Global, login: &Login, greeting: &Greeting) -> Result<Blob, NoMemory>
    ensures { IfOk result (λ payload. payload ≡ response_bytes (response_to login.now greeting.now)) }
{
    let packet = ClientPacket::Response(response_to(alloc, login, greeting)?);
    let payload = write_client(alloc, &packet);
    drop(packet);
    Ok(Blob::from(payload?))
}

/// The payload that the client sends after a greeting; an empty one where the payload is none.
#[tactic(auto, unfolding(crate::specs::Response::response))]
pub fn login_response(alloc: Global, login: &Login, greeting: &[u8]) -> Result<Blob, NoMemory>
    ensures { IfOk result (λ payload. payload ≡ response login.now greeting.now) }
{
    match read_greeting(alloc, greeting) {
        Ok(greeting) => written(alloc, login, &greeting),
        Err(ReadError::Malformed) => Ok(Blob::new(alloc)),
        Err(ReadError::NoMemory) => Err(NoMemory),
    }
}
