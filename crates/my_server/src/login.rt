//! The packet by which a client logs in, as a server reads it.

ghost use Rattle.std.specs.Prelude.{◌≡◌, ◌↔◌, List, ℕ, Some, IfSome};
ghost use Rattle.std.specs.Option.{option_map};
ghost use Rattle.my_server.specs.ClientLogin.{IsLogin, LoginParts, after_fixed, after_parts, after_text, after_text0, login_at, named_at, parts_of, short_at};

use my_flags::CapabilityFlags;
use my_frame::numbers::{take_bytes, take_text, take_text0, take_u8, take_u32};

/// The capabilities that a client must have, so that its login is of the form that is read here.
pub const LOGIN_CAPABILITIES: CapabilityFlags = CapabilityFlags(
    CapabilityFlags::CLIENT_PROTOCOL_41.0 | CapabilityFlags::CLIENT_SECURE_CONNECTION.0,
);

/// What a client says of itself: its capabilities, its user's name, and its answer to the server's nonce.
#[derive(Clone, Copy)]
pub struct ClientLogin<'a> {
    pub capabilities: CapabilityFlags,
    pub user: &'a [u8],
    pub scramble: &'a [u8],
}

// A text after one byte with its length.
fn take_short(bytes: &[u8]) -> Option<(&[u8], &[u8])>
    ensures { option_map (λ x. (x.0.now, x.1.now)) result ≡ short_at bytes.now }
{
    let Some((len, rest)) = take_u8(bytes) else {
        return None;
    };
    take_bytes(rest, usize::from(len))
}

// The bytes after a text that ends at a zero, where one is there.
fn after_text0(present: bool, bytes: &[u8]) -> Option<&[u8]>
    ensures { option_map (λ x. x.now) result ≡ after_text0 present bytes.now }
{
    if !present {
        return Some(bytes);
    }
    let Some((_, rest)) = take_text0(bytes) else {
        return None;
    };
    Some(rest)
}

// The bytes after a text with its length, where one is there.
fn after_text(present: bool, bytes: &[u8]) -> Option<&[u8]>
    ensures { option_map (λ x. x.now) result ≡ after_text present bytes.now }
{
    if !present {
        return Some(bytes);
    }
    let Some((_, rest)) = take_text(bytes) else {
        return None;
    };
    Some(rest)
}

// The bytes after a database, a plugin's name and attributes, where the capabilities say that they are there.
fn after_parts(capabilities: CapabilityFlags, bytes: &[u8]) -> Option<&[u8]>
    ensures { option_map (λ x. x.now) result ≡ after_parts capabilities bytes.now }
{
    let named = capabilities.contains(CapabilityFlags::CLIENT_PLUGIN_AUTH);
    let rest = after_text0(capabilities.connects_with_db(), bytes)?;
    let rest = after_text0(named, rest)?;
    after_text(capabilities.sends_connect_attrs(), rest)
}

// The bytes after the greatest packet's length, a charset and 23 reserved bytes.
fn after_fixed(bytes: &[u8]) -> Option<&[u8]>
    ensures { option_map (λ x. x.now) result ≡ after_fixed bytes.now }
{
    let (_fixed, rest) = take_bytes(bytes, 28)?;
    Some(rest)
}

// What follows the fixed bytes of a login of these capabilities.
#[tactic(auto, unfolding(crate::specs::ClientLogin::named_at))]
fn named(capabilities: CapabilityFlags, bytes: &[u8]) -> Option<ClientLogin<'_>>
    ensures { option_map parts_of result ≡ named_at capabilities bytes.now }
{
    let Some((user, rest)) = take_text0(bytes) else {
        return None;
    };
    let Some((scramble, rest)) = take_short(rest) else {
        return None;
    };
    let _rest = after_parts(capabilities, rest)?;
    if !capabilities.contains(LOGIN_CAPABILITIES) {
        return None;
    }
    Some(ClientLogin {
        capabilities,
        user,
        scramble,
    })
}

#[tactic(auto, unfolding(crate::specs::ClientLogin::login_at))]
fn login_of(payload: &[u8]) -> Option<ClientLogin<'_>>
    ensures { option_map parts_of result ≡ login_at payload.now }
{
    let Some((bits, rest)) = take_u32(payload) else {
        return None;
    };
    let rest = after_fixed(rest)?;
    named(CapabilityFlags(bits), rest)
}

/// Reads a client's login, where the payload is one: its capabilities contain `LOGIN_CAPABILITIES`, and all
/// parts are there that they say. The database, the plugin, the attributes and what follows them are passed over.
pub fn read_login(payload: &[u8]) -> Option<ClientLogin<'_>>
    ensures gives { option_map parts_of result ≡ login_at payload.now }
    ensures found { IfSome result (λ login. IsLogin payload.now (parts_of login)) }
    ensures only { (login : LoginParts) → IsLogin payload.now login → option_map parts_of result ≡ Some login }
{
    login_of(payload)
}
