//! The answer to a server's nonce that proves that the client knows the password.

ghost use Rattle.std.specs.Prelude.{◌≡◌, ◌≤◌, IfOk, length};
ghost use Rattle.my_grammar.specs.Scramble.{password_answer};

use my_auth::{AuthPlugin, answer_of};
use my_frame::{Blob, NoMemory};
use std::alloc::Global;

/// The answer of `caching_sha2_password`, or of `mysql_native_password`, of at most 32 bytes: an empty one without a password.
pub fn password_answer(
    alloc: Global,
    caching: bool,
    password: &Option<Blob>,
    nonce: &[u8],
) -> Result<Blob, NoMemory>
    ensures value { IfOk result (λ answer. answer ≡ password_answer caching password.now nonce.now) }
    ensures short { IfOk result (λ answer. length answer ≤ 32) }
{
    match password {
        None => Ok(Blob::new(alloc)),
        Some(password) if caching => {
            answer_of(alloc, AuthPlugin::Caching, password.as_slice(), nonce)
        }
        Some(password) => answer_of(alloc, AuthPlugin::Native, password.as_slice(), nonce),
    }
}
