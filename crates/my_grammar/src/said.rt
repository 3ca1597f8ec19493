//! What a client says at once after a payload of the server.

ghost use Rattle.std.specs.Prelude.{◌≡◌, [], IfOk, unwrap_or};
ghost use Rattle.my_grammar.specs.Talk.{says};

use crate::login::{Login, login_response};
use crate::spot::Kind;
use my_auth::reply_to;
use my_frame::{Blob, NoMemory};
use std::alloc::Global;

// The bytes, or none.
fn bytes_of(secret: &Option<Blob>) -> &[u8]
    ensures { result.now ≡ unwrap_or secret.now [] }
{
    match secret {
        Some(secret) => secret.as_slice(),
        None => &[],
    }
}

/// What the client says at once after a payload of this kind, if anything: its response to a greeting, or, by its password
/// `secret`, its answer in a chain.
pub fn says(
    alloc: Global,
    login: &Login,
    secret: &Option<Blob>,
    kind: Kind,
    payload: &[u8],
) -> Result<Option<Blob>, NoMemory>
    ensures { IfOk result (λ said. said ≡ says login.now secret.now kind payload.now) }
{
    match kind {
        Kind::Greets(_) => Ok(Some(login_response(alloc, login, payload)?)),
        Kind::Asks(ask) => reply_to(alloc, bytes_of(secret), ask, payload),
        _ => Ok(None),
    }
}
