//! What a client answers to a nonce.

ghost use Rattle.std.specs.Prelude.{◌≡◌, ◌≢◌, ◌≤◌, [], length, IfOk};
ghost use Rattle.my_auth.specs.Scrambles.{answer, caching_scramble, native_scramble, xor_bytes};

use crate::plugin::AuthPlugin;
use my_frame::{Blob, NoMemory};
use sha1::Sha1;
use sha2::{Digest, Sha256};
use std::alloc::{AllocError, Global};

fn xor(alloc: Global, first: &[u8], second: &[u8]) -> Result<Vec<u8>, AllocError>
    ensures value { IfOk result (λ v. v.items ≡ xor_bytes first.now second.now) }
    ensures short { IfOk result (λ v. length v.items ≤ length first.now) }
{
    first
        .iter()
        .zip(second.iter())
        .map(|(&a, &b)| a ^ b)
        .collect(alloc)
}

#[tactic(auto, unfolding(crate::specs::Scrambles::native_scramble))]
fn native_scramble(alloc: Global, password: &[u8], nonce: &[u8]) -> Result<Vec<u8>, AllocError>
    ensures value { IfOk result (λ v. v.items ≡ native_scramble password.now nonce.now) }
    ensures short { IfOk result (λ v. length v.items ≤ 20) }
{
    let first = Sha1::digest(password);
    let second = Sha1::digest(&first);
    let mut hasher = Sha1::new();
    hasher.update(nonce);
    hasher.update(&second);
    let salted = hasher.finalize();
    xor(alloc, &first, &salted)
}

#[tactic(auto, unfolding(crate::specs::Scrambles::caching_scramble))]
fn caching_scramble(alloc: Global, password: &[u8], nonce: &[u8]) -> Result<Vec<u8>, AllocError>
    ensures value { IfOk result (λ v. v.items ≡ caching_scramble password.now nonce.now) }
    ensures short { IfOk result (λ v. length v.items ≤ 32) }
{
    let first = Sha256::digest(password);
    let second = Sha256::digest(&first);
    let mut hasher = Sha256::new();
    hasher.update(&second);
    hasher.update(nonce);
    let salted = hasher.finalize();
    xor(alloc, &first, &salted)
}

// The password as it is, with a zero after it.
fn clear_password(alloc: Global, password: &[u8]) -> Result<Vec<u8>, NoMemory>
    ensures { IfOk result (λ v. v.items ≡ answer AuthPlugin.Clear password.now []) }
{
    let mut bytes = Vec::new(alloc);
    bytes.extend_from_slice(password)?;
    bytes.push(0)?;
    Ok(bytes)
}

/// What a client with this password answers to this nonce by this plugin. Without a password the scrambles are empty;
/// a scramble has at most 32 bytes.
pub fn answer_of(
    alloc: Global,
    plugin: AuthPlugin,
    password: &[u8],
    nonce: &[u8],
) -> Result<Blob, NoMemory>
    ensures value { IfOk result (λ bytes. bytes ≡ answer plugin password.now nonce.now) }
    ensures short { plugin ≢ AuthPlugin.Clear → IfOk result (λ bytes. length bytes ≤ 32) }
{
    match plugin {
        AuthPlugin::Clear => Ok(Blob::from(clear_password(alloc, password)?)),
        AuthPlugin::Old => Ok(Blob::new(alloc)),
        AuthPlugin::Native | AuthPlugin::Caching if password.is_empty() => Ok(Blob::new(alloc)),
        AuthPlugin::Native => Ok(Blob::from(native_scramble(alloc, password, nonce)?)),
        AuthPlugin::Caching => Ok(Blob::from(caching_scramble(alloc, password, nonce)?)),
    }
}
