//! Reads numbers and hexadecimal digits.
ghost use Rattle.std.specs.Prelude.{◌≡◌, ◌≤◌, ◌^◌, IfOk, IfSome, option_map, pos, neg_ℤ};
ghost use Rattle.my_script.specs.Number.{number_of, number_at_most, signed_of, pairs_of, bytes_of};

use hex::FromHexError;
use my_frame::Blob;
use std::alloc::{AllocError, Global};

/// A number in decimal digits, below 2^64.
pub fn number(word: &[u8]) -> Option<u64>
    ensures { result ≡ number_of word.now }
{
    if word.is_empty() {
        return None;
    }
    let mut n = 0u64;
    for byte in word {
        if *byte < b'0' || *byte > b'9' {
            return None;
        }
        let more = n as u128 * 10 + (*byte - b'0') as u128;
        if more >= 1 << 64 {
            return None;
        }
        n = more as u64;
    }
    Some(n)
}

/// A number in decimal digits that is at most this one.
pub fn number_to(most: u64, word: &[u8]) -> Option<u64>
    ensures number { result ≡ number_at_most most word.now }
    ensures within { IfSome result (λ n. n ≤ most) }
{
    let n = number(word)?;
    if n > most {
        return None;
    }
    Some(n)
}

// A number that stands after a minus.
fn negative(word: &[u8]) -> Option<i64>
    ensures { result ≡ option_map (λ n. neg_ℤ (pos n)) (number_at_most (2 ^ 63) word.now) }
{
    let n = number_to(1 << 63, word)?;
    Some(-(n as i128) as i64)
}

/// A number in decimal digits, after a minus or none, that 64 bits hold.
pub fn signed(word: &[u8]) -> Option<i64>
    ensures { result ≡ signed_of word.now }
{
    if word.is_empty() {
        return None;
    }
    if word[0] == b'-' {
        return negative(&word[1..]);
    }
    let n = number_to(i64::MAX as u64, word)?;
    Some(n as i64)
}

/// Bytes as pairs of hexadecimal digits, of which there may be none.
pub fn pairs(alloc: Global, word: &[u8]) -> Result<Option<Blob>, AllocError>
    ensures { IfOk result (λ read. read ≡ pairs_of word.now) }
{
    match hex::decode(alloc, word) {
        Ok(bytes) => Ok(Some(Blob::from(bytes))),
        Err(FromHexError::OutOfMemory) => Err(AllocError),
        Err(_) => Ok(None),
    }
}

/// Bytes as pairs of hexadecimal digits, `-` for no bytes.
pub fn bytes(alloc: Global, word: &[u8]) -> Result<Option<Blob>, AllocError>
    ensures { IfOk result (λ read. read ≡ bytes_of word.now) }
{
    if word == b"-".as_slice() {
        return Ok(Some(Blob::new(alloc)));
    }
    if word.is_empty() {
        return Ok(None);
    }
    pairs(alloc, word)
}
