//! What a server says of itself, and which logins it admits.

ghost use Rattle.std.specs.Prelude.{◌≡◌, ◌++◌, codes, IfOk};
ghost use Rattle.my_reply.specs.Server.{server_bytes};
ghost use Rattle.sha1.specs.Sha1.{sha1};
ghost use Rattle.my_server.specs.ClientLogin.{parts_of};
ghost use Rattle.my_server.specs.Machine.{admits, denial, fine_payload, greeting_of, greeting_payload, hidden_hash, knows_password, no_reply, refusal_payload};

use crate::answer::{DONE, ok_of, written};
use crate::login::ClientLogin;
use crate::script::ServerScript;
use my_flags::{CapabilityFlags, MariadbCapabilities};
use my_frame::{Blob, Copied, NoMemory, Text};
use my_handshake::Greeting;
use my_reply::{ErrPacket, ServerPacket};
use sha1::Sha1;
use std::alloc::Global;

/// What the server can do, by its greeting.
pub const OFFERED: CapabilityFlags = CapabilityFlags(
    CapabilityFlags::CLIENT_LONG_PASSWORD.0
        | CapabilityFlags::CLIENT_FOUND_ROWS.0
        | CapabilityFlags::CLIENT_CONNECT_WITH_DB.0
        | CapabilityFlags::CLIENT_LOCAL_FILES.0
        | CapabilityFlags::CLIENT_PROTOCOL_41.0
        | CapabilityFlags::CLIENT_TRANSACTIONS.0
        | CapabilityFlags::CLIENT_SECURE_CONNECTION.0
        | CapabilityFlags::CLIENT_MULTI_STATEMENTS.0
        | CapabilityFlags::CLIENT_MULTI_RESULTS.0
        | CapabilityFlags::CLIENT_PS_MULTI_RESULTS.0
        | CapabilityFlags::CLIENT_PLUGIN_AUTH.0
        | CapabilityFlags::CLIENT_CONNECT_ATTRS.0
        | CapabilityFlags::CLIENT_DEPRECATE_EOF.0,
);

fn greeting_of(alloc: Global, script: &ServerScript) -> Result<Greeting, NoMemory>
    ensures { IfOk result (λ greeting. greeting ≡ greeting_of script.now) }
{
    Ok(Greeting {
        version: script.version.copy(alloc)?,
        id: script.id,
        nonce: Blob::from_slice(alloc, &script.nonce)?,
        capabilities: OFFERED,
        status: DONE,
        plugin: Blob::from_slice(alloc, b"mysql_native_password")?,
        extended: MariadbCapabilities(0),
    })
}

/// The server's greeting.
pub fn greeting_payload(alloc: Global, script: &ServerScript) -> Result<Blob, NoMemory>
    ensures { IfOk result (λ payload. payload ≡ greeting_payload script.now) }
{
    written(alloc, ServerPacket::Greeting(greeting_of(alloc, script)?))
}

/// An OK with nothing to say.
pub fn fine_payload(alloc: Global) -> Result<Blob, NoMemory>
    ensures { IfOk result (λ payload. payload ≡ fine_payload) }
{
    written(alloc, ServerPacket::Fine(ok_of(alloc, DONE)))
}

fn refusal_payload(
    alloc: Global,
    code: u16,
    state: [u8; 5],
    message: &str,
) -> Result<Blob, NoMemory>
    ensures { IfOk result (λ payload.
        payload ≡ refusal_payload (record { code = code; state = state; message = message.now })) }
{
    let message = Text::from_str(alloc, message)?;
    written(
        alloc,
        ServerPacket::Refuse(ErrPacket {
            code,
            state,
            message,
        }),
    )
}

/// The ERR for a login that isn't admitted.
pub fn denied_payload(alloc: Global) -> Result<Blob, NoMemory>
    ensures { IfOk result (λ payload. payload ≡ refusal_payload denial) }
{
    refusal_payload(alloc, 1_045, *b"28000", "Access denied")
}

/// The ERR for a command without a reply.
pub fn no_reply_payload(alloc: Global) -> Result<Blob, NoMemory>
    ensures { IfOk result (λ payload. payload ≡ refusal_payload no_reply) }
{
    refusal_payload(alloc, 1_064, *b"42000", "no reply")
}

// SHA1(nonce, stored).
fn salted(nonce: &[u8], stored: &[u8]) -> [u8; 20]
    ensures { result ≡ sha1 (nonce.now ++ stored.now) }
{
    let mut hasher = Sha1::new();
    hasher.update(nonce);
    hasher.update(stored);
    hasher.finalize()
}

// SHA1(password), of which the scramble says that its client knows it.
fn hidden_hash(
    alloc: Global,
    nonce: &[u8],
    stored: &[u8],
    scramble: &[u8],
) -> Result<Vec<u8>, NoMemory>
    ensures { IfOk result (λ hash. hash.items ≡ hidden_hash nonce.now stored.now scramble.now) }
{
    let salted = salted(nonce, stored);
    let hash = scramble
        .iter()
        .zip(salted.iter())
        .map(|(&a, &b)| a ^ b)
        .collect(alloc)?;
    Ok(hash)
}

fn knows_password(
    alloc: Global,
    stored: &Option<[u8; 20]>,
    nonce: &[u8],
    scramble: &[u8],
) -> Result<bool, NoMemory>
    ensures { IfOk result (λ known. known ≡ knows_password stored.now nonce.now scramble.now) }
{
    let Some(stored) = stored else {
        return Ok(scramble.is_empty());
    };
    if scramble.len() != 20 {
        return Ok(false);
    }
    let hash = hidden_hash(alloc, nonce, stored, scramble)?;
    Ok(Sha1::digest(hash.as_slice()) == *stored)
}

/// Whether the login is the user's of the script, with its password.
#[tactic(auto, unfolding(crate::specs::Machine::admits))]
pub fn admits(
    alloc: Global,
    script: &ServerScript,
    login: &ClientLogin<'_>,
) -> Result<bool, NoMemory>
    ensures { IfOk result (λ admitted. admitted ≡ admits script.now (parts_of login.now)) }
{
    if login.user != script.user.as_slice() {
        return Ok(false);
    }
    knows_password(alloc, &script.stored, &script.nonce, login.scramble)
}
