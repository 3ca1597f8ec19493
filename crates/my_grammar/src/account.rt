//! Who logs in, and the command by which a connection gets another user.

ghost use Rattle.std.specs.Prelude.{◌≡◌, IfOk};
ghost use Rattle.my_command.specs.Client.Packet.{PartsFit};
ghost use Rattle.my_grammar.specs.Account.{account_of, change_to};

use crate::login::{Login, charset_for, text_or_none};
use crate::scramble::password_answer;
use my_auth::AuthPlugin;
use my_command::ClientPacket;
use my_flags::CapabilityFlags;
use my_frame::{Blob, Copied, NoMemory};
use my_handshake::{ChangeUser, server_version};
use std::alloc::Global;

/// Who logs in, and the database that is used.
#[derive(Drop)]
pub struct Account {
    pub user: Option<Blob>,
    pub password: Option<Blob>,
    pub database: Option<Blob>,
}

impl Account {
    /// The account with which a client logs in.
    pub fn from_login(alloc: Global, login: &Login) -> Result<Account, NoMemory>
        ensures { IfOk result (λ account. account ≡ account_of login.now) }
    {
        Ok(Account {
            user: login.user.copy(alloc)?,
            password: login.password.copy(alloc)?,
            database: login.database.copy(alloc)?,
        })
    }

    /// A second value of the same account.
    pub fn copy(&self, alloc: Global) -> Result<Account, NoMemory>
        ensures { IfOk result (λ copy. copy ≡ self.now) }
    {
        Ok(Account {
            user: self.user.copy(alloc)?,
            password: self.password.copy(alloc)?,
            database: self.database.copy(alloc)?,
        })
    }
}

/// The command that changes to this account, on a connection with these capabilities of both sides, to a server of this
/// version whose last challenge was this nonce, for `caching_sha2_password` or for the native plugin.
pub fn change_packet(
    alloc: Global,
    login: &Login,
    kept: CapabilityFlags,
    version: &[u8],
    caching: bool,
    nonce: &[u8],
    account: &Account,
) -> Result<ClientPacket, NoMemory>
    ensures value { IfOk result (λ packet. packet ≡
        ClientPacket.ChangeUser (change_to login.now kept version.now caching nonce.now account.now)) }
    ensures fits { IfOk result (λ packet. PartsFit packet) }
{
    let attributes = if kept.sends_connect_attrs() {
        Some(login.attributes.copy(alloc)?)
    } else {
        None
    };
    Ok(ClientPacket::ChangeUser(ChangeUser {
        user: text_or_none(alloc, &account.user)?,
        scramble: password_answer(alloc, caching, &account.password, nonce)?,
        database: text_or_none(alloc, &account.database)?,
        charset: u16::from(charset_for(server_version(version))),
        plugin: Blob::from_slice(alloc, AuthPlugin::of_challenge(caching).name())?,
        attributes,
    }))
}
