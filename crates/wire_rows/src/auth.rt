//! What a client answers while it logs in.

use crate::notes::{Notes, four};
use my_auth::{
    AuthAsk, AuthMove, AuthPlugin, AuthRefusal, AuthRules, AuthStand, answer_of, nonce_in,
    plugin_in, reply_to,
};
use my_frame::{Blob, NoMemory};

fn plugin_of(name: &str) -> AuthPlugin {
    match name {
        "native" => AuthPlugin::Native,
        "caching" => AuthPlugin::Caching,
        "clear" => AuthPlugin::Clear,
        _ => AuthPlugin::Old,
    }
}

/// `scramble PLUGIN PASSWORD NONCE`: the answer.
pub fn scramble(notes: &mut Notes, given: &str) {
    let [name, password, nonce, _] = four(given, ' ');
    let (password, nonce) = (notes.spelled(password), notes.spelled(nonce));
    match answer_of(notes.alloc, plugin_of(name), &password, &nonce) {
        Ok(answer) => notes.bytes(answer.as_slice()),
        Err(_) => notes.must(false),
    }
}

/// `named NAME`: `none` where no plugin has the name.
pub fn named(notes: &mut Notes, given: &str) {
    match AuthPlugin::named(given.as_bytes()) {
        Some(plugin) => notes.must(plugin.name() == given.as_bytes()),
        None => notes.word("none"),
    }
}

fn refused(notes: &mut Notes, refusal: AuthRefusal, payload: &[u8]) {
    match refusal {
        AuthRefusal::UnknownAuthPlugin => {
            notes.word("unknown");
            notes.bytes(plugin_in(payload));
        }
        AuthRefusal::CleartextPluginDisabled => notes.word("cleartext"),
        AuthRefusal::MysqlOldPasswordDisabled => notes.word("old"),
        AuthRefusal::FullAuthRefused => notes.word("full"),
        AuthRefusal::UnexpectedPacket => {
            notes.word("unexpected");
            notes.bytes(payload);
        }
        AuthRefusal::Malformed => notes.word("malformed"),
    }
}

// What the client answers to what it is asked for.
fn replied(
    notes: &mut Notes,
    password: &[u8],
    ask: AuthAsk,
    payload: &[u8],
) -> Result<(), NoMemory> {
    match reply_to(notes.alloc, password, ask, payload)? {
        Some(answer) => notes.bytes(answer.as_slice()),
        None => notes.word("wait"),
    }
    Ok(())
}

// Whether the answer needs the payload's nonce.
fn has_nonce(ask: AuthAsk) -> bool {
    match ask {
        AuthAsk::Switch(AuthPlugin::Native | AuthPlugin::Caching) => true,
        _ => false,
    }
}

// What is asked for, if the chain goes on.
fn went(notes: &mut Notes, next: AuthMove, payload: &[u8]) -> Option<AuthAsk> {
    match next {
        AuthMove::Over => {
            notes.word("over");
            None
        }
        AuthMove::Ask(ask) => Some(ask),
        AuthMove::Refuse(refusal) => {
            refused(notes, refusal, payload);
            None
        }
    }
}

fn chain(
    notes: &mut Notes,
    password: &[u8],
    first: AuthStand,
    payloads: &str,
) -> Result<(), NoMemory> {
    let mut stand = first;
    let mut nonce = Blob::from_slice(notes.alloc, &[7])?;
    for digits in payloads.split(',') {
        let payload = notes.spelled(digits);
        let Some(ask) = went(notes, stand.read(&payload), &payload) else {
            break;
        };
        replied(notes, password, ask, &payload)?;
        if has_nonce(ask) {
            nonce = Blob::from_slice(notes.alloc, nonce_in(&payload))?;
        }
        stand = stand.after(ask);
    }
    notes.bytes(nonce.as_slice());
    Ok(())
}

/// `auth PLUGIN ALLOWED PASSWORD PAYLOADS`: what is answered to each payload, and the last nonce that was answered. Allowed
/// are, by letters, a clear password, the oldest plugin's refusal by name (`s`), and that the link is on this machine.
pub fn auth(notes: &mut Notes, given: &str) {
    let [name, allowed, password, payloads] = four(given, ' ');
    let rules = AuthRules {
        cleartext: allowed.contains('c'),
        secure: allowed.contains('s'),
        local: allowed.contains('l'),
    };
    let password = notes.spelled(password);
    let first = AuthStand::first(rules, plugin_of(name));
    let played = chain(notes, &password, first, payloads);
    notes.must(played.is_ok());
}
