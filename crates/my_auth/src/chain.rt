//! The chain of packets in which a server asks and a client answers, in a login and in a change of user.

ghost use Rattle.std.specs.Prelude.{◌≡◌, IfOk};
ghost use Rattle.my_handshake.specs.SwitchRequest.{more_data_at};
ghost use Rattle.my_auth.specs.Chain.{adds, after_ask, asked_for, caching_by, first_stand, move_at, nonce_in, plugin_in, reply_to, switches, wants_whole};
ghost use Rattle.my_auth.specs.Plugins.{plugin_named};

use crate::plugin::AuthPlugin;
use crate::scramble::answer_of;
use my_frame::{Blob, NoMemory};
use my_handshake::{MoreData, read_more_data, switch_parts};
use std::alloc::Global;

/// What a client may answer.
#[derive(Clone, Copy, PartialEq, Eq)]
pub struct AuthRules {
    /// Whether the password may be sent as it is, where the server asks for `mysql_clear_password`.
    pub cleartext: bool,
    /// Whether `mysql_old_password` is refused by its name.
    pub secure: bool,
    /// Whether the link stays on this machine.
    pub local: bool,
}

/// Where a chain stands.
#[derive(Clone, Copy, PartialEq, Eq)]
pub struct AuthStand {
    pub rules: AuthRules,
    /// The plugin of the last answer.
    pub plugin: AuthPlugin,
    /// Whether the server switched the plugin.
    pub switched: bool,
    /// Whether an OK or an ERR has to follow.
    pub decided: bool,
}

/// What a server asks for in a chain.
#[derive(Clone, Copy, PartialEq, Eq)]
pub enum AuthAsk {
    /// An answer by this plugin, with the payload's nonce.
    Switch(AuthPlugin),
    /// The password as it is.
    Whole,
    /// Nothing: the hash of the password was right, and an OK or an ERR has to follow.
    Wait,
}

/// Why a client goes on with a chain no more. Nothing is sent then.
#[derive(Clone, Copy, PartialEq, Eq)]
pub enum AuthRefusal {
    /// The server asks for a plugin that the client doesn't have.
    UnknownAuthPlugin,
    /// The server asks for the password as it is, and the options don't allow it.
    CleartextPluginDisabled,
    /// The server asks for the oldest plugin, and the options refuse it.
    MysqlOldPasswordDisabled,
    /// The server asks for the password as it is, over a link that others may read.
    FullAuthRefused,
    /// The payload doesn't belong here.
    UnexpectedPacket,
    /// The payload can't be read.
    Malformed,
}

/// What a payload of a chain is.
#[derive(Clone, Copy, PartialEq, Eq)]
pub enum AuthMove {
    /// Its first byte is that of an OK or of an ERR, which ends the chain.
    Over,
    /// The server asks for this.
    Ask(AuthAsk),
    /// The client goes on no more.
    Refuse(AuthRefusal),
}

fn asked_for(plugin: Option<AuthPlugin>, rules: AuthRules) -> AuthMove
    ensures { result ≡ asked_for plugin rules }
{
    match plugin {
        Some(AuthPlugin::Native) => AuthMove::Ask(AuthAsk::Switch(AuthPlugin::Native)),
        Some(AuthPlugin::Caching) => AuthMove::Ask(AuthAsk::Switch(AuthPlugin::Caching)),
        Some(AuthPlugin::Clear) if rules.cleartext => {
            AuthMove::Ask(AuthAsk::Switch(AuthPlugin::Clear))
        }
        Some(AuthPlugin::Clear) => AuthMove::Refuse(AuthRefusal::CleartextPluginDisabled),
        Some(AuthPlugin::Old) if rules.secure => {
            AuthMove::Refuse(AuthRefusal::MysqlOldPasswordDisabled)
        }
        Some(AuthPlugin::Old) | None => AuthMove::Refuse(AuthRefusal::UnknownAuthPlugin),
    }
}

fn switches(stand: AuthStand, payload: &[u8]) -> AuthMove
    ensures { result ≡ switches stand payload.now }
{
    if stand.switched {
        return AuthMove::Refuse(AuthRefusal::UnexpectedPacket);
    }
    match switch_parts(payload) {
        Some((plugin, _nonce)) => asked_for(AuthPlugin::named(plugin), stand.rules),
        None => AuthMove::Refuse(AuthRefusal::Malformed),
    }
}

fn wants_whole(rules: AuthRules) -> AuthMove
    ensures { result ≡ wants_whole rules }
{
    if rules.local {
        AuthMove::Ask(AuthAsk::Whole)
    } else {
        AuthMove::Refuse(AuthRefusal::FullAuthRefused)
    }
}

fn adds(stand: AuthStand, payload: &[u8]) -> AuthMove
    ensures { result ≡ adds stand payload.now }
{
    if stand.plugin != AuthPlugin::Caching {
        return AuthMove::Refuse(AuthRefusal::UnexpectedPacket);
    }
    match read_more_data(payload) {
        Ok(MoreData { kind: 3 }) => AuthMove::Ask(AuthAsk::Wait),
        Ok(MoreData { kind: 4 }) => wants_whole(stand.rules),
        _ => AuthMove::Refuse(AuthRefusal::UnexpectedPacket),
    }
}

impl AuthStand {
    /// Where a chain stands that begins with an answer by this plugin.
    pub fn first(rules: AuthRules, plugin: AuthPlugin) -> AuthStand
        ensures { result ≡ first_stand rules plugin }
    {
        AuthStand {
            rules,
            plugin,
            switched: false,
            decided: false,
        }
    }

    /// What the server's next payload is, where the chain stands so.
    pub fn read(self, payload: &[u8]) -> AuthMove
        ensures { result ≡ move_at self payload.now }
    {
        match payload {
            [] => AuthMove::Refuse(AuthRefusal::Malformed),
            [0x00 | 0xFF, ..] => AuthMove::Over,
            _ if self.decided => AuthMove::Refuse(AuthRefusal::UnexpectedPacket),
            [0xFE, ..] => switches(self, payload),
            [0x01, ..] => adds(self, payload),
            _ => AuthMove::Refuse(AuthRefusal::UnexpectedPacket),
        }
    }

    /// Where the chain stands after the server asked for this.
    pub fn after(self, ask: AuthAsk) -> AuthStand
        ensures { result ≡ after_ask self ask }
    {
        match ask {
            AuthAsk::Switch(plugin) => AuthStand {
                rules: self.rules,
                plugin,
                switched: true,
                decided: false,
            },
            AuthAsk::Whole | AuthAsk::Wait => AuthStand {
                rules: self.rules,
                plugin: self.plugin,
                switched: self.switched,
                decided: true,
            },
        }
    }
}

/// The name of the plugin that a switch asks for, empty where the payload is none.
pub fn plugin_in(payload: &[u8]) -> &[u8]
    ensures { result.now ≡ plugin_in payload.now }
{
    match switch_parts(payload) {
        Some((plugin, _nonce)) => plugin,
        None => &[],
    }
}

/// The nonce of a switch, empty where the payload is none.
pub fn nonce_in(payload: &[u8]) -> &[u8]
    ensures { result.now ≡ nonce_in payload.now }
{
    match switch_parts(payload) {
        Some((_plugin, nonce)) => nonce,
        None => &[],
    }
}

/// What a client with this password answers to a payload that asks for this, if anything.
pub fn reply_to(
    alloc: Global,
    password: &[u8],
    ask: AuthAsk,
    payload: &[u8],
) -> Result<Option<Blob>, NoMemory>
    ensures { IfOk result (λ reply. reply ≡ reply_to password.now ask payload.now) }
{
    match ask {
        AuthAsk::Switch(plugin) => {
            let answer = answer_of(alloc, plugin, password, nonce_in(payload))?;
            Ok(Some(answer))
        }
        AuthAsk::Whole => Ok(Some(answer_of(alloc, AuthPlugin::Clear, password, &[])?)),
        AuthAsk::Wait => Ok(None),
    }
}
