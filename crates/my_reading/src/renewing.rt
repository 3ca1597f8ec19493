//! How the server's session is renewed for another user or another caller.

ghost use Rattle.std.specs.Prelude.{◌≡◌, IfOk, option_copied, option_map, unwrap_or};
ghost use Rattle.my_command.specs.Client.Packet.{PartsFit};
ghost use Rattle.my_reading.specs.Accounts.{changed};
ghost use Rattle.my_reading.specs.Commands.{change_stand, renewal_packet, renews_by_reset};

use crate::call::CallKind;
use crate::facts::Facts;
use crate::version::can_reset;
use my_auth::{AuthPlugin, AuthStand};
use my_command::ClientPacket;
use my_flags::CapabilityFlags;
use my_frame::{Blob, Copied, NoMemory};
use my_grammar::{Account, Login, change_packet};
use my_handshake::ServerVersion;
use my_opts::ChangeUserOpts;
use std::alloc::Global;

// The part's new value, or a second one of the old where it stays.
fn chosen(
    alloc: Global,
    part: Option<Option<&str>>,
    value: &Option<Blob>,
) -> Result<Option<Blob>, NoMemory>
    ensures { IfOk result (λ chosen. chosen ≡ unwrap_or (option_map option_copied part.entry) value.now) }
{
    match part {
        None => value.copy(alloc),
        Some(None) => Ok(None),
        Some(Some(text)) => Ok(Some(Blob::from_slice(alloc, text.as_bytes())?)),
    }
}

/// The account after a change: each part stays, or is what the change says.
pub fn changed(
    alloc: Global,
    change: &ChangeUserOpts,
    account: &Account,
) -> Result<Account, NoMemory>
    ensures { IfOk result (λ new. new ≡ changed change.now account.now) }
{
    Ok(Account {
        user: chosen(alloc, change.user(), &account.user)?,
        password: chosen(alloc, change.pass(), &account.password)?,
        database: chosen(alloc, change.db_name(), &account.database)?,
    })
}

/// Whether a call of this kind renews the server's session by a reset, and not by a change of user: for a pool alone, and where
/// the server can.
pub fn renews_by_reset(call: CallKind, version: ServerVersion) -> bool
    ensures { result ≡ renews_by_reset call version }
{
    match call {
        CallKind::ResetForPool => can_reset(version),
        _ => false,
    }
}

/// Where the chain of a change of user begins: with an answer to the last nonce.
pub fn change_stand(login: &Login, facts: &Facts) -> AuthStand
    ensures { result ≡ change_stand login.now facts.now }
{
    AuthStand::first(login.rules, AuthPlugin::of_challenge(facts.caching))
}

/// The packet by which the server's session is renewed: it is reset, or gets the user of this account.
pub fn renewal_packet(
    alloc: Global,
    login: &Login,
    kept: CapabilityFlags,
    facts: &Facts,
    account: &Account,
    by_reset: bool,
) -> Result<ClientPacket, NoMemory>
    ensures value { IfOk result (λ packet. packet ≡ renewal_packet login.now kept facts.now account.now by_reset) }
    ensures fits { IfOk result (λ packet. PartsFit packet) }
{
    if by_reset {
        return Ok(ClientPacket::ResetConnection);
    }
    let (version, nonce) = (facts.version.as_slice(), facts.nonce.as_slice());
    change_packet(alloc, login, kept, version, facts.caching, nonce, account)
}
