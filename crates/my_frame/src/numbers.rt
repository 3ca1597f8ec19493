//! Numbers and texts at the front of bytes: each call returns what the bytes begin with and the bytes
//! after it, or `None` where they begin with nothing of that form. Numbers have their lowest byte first.

ghost use Rattle.std.specs.Prelude.{◌≡◌, ◌==◌, ◌<◌, IfSome, Option, Some, length, position};
ghost use Rattle.std.specs.List.{before_first};
ghost use Rattle.std.specs.Option.{option_map};
ghost use Rattle.my_frame.specs.Numbers.{bytes_at, head_at, len_at, number_at, text0_at, text_at};

/// The first `count` bytes.
pub fn take_bytes(bytes: &[u8], count: usize) -> Option<(&[u8], &[u8])>
    ensures { option_map (λ x. (x.0.now, x.1.now)) result ≡ bytes_at count bytes.now }
{
    if bytes.len() < count {
        return None;
    }
    Some(bytes.split_at(count))
}

/// A number of one byte.
pub fn take_u8(bytes: &[u8]) -> Option<(u8, &[u8])>
    ensures { option_map (λ x. (x.0, x.1.now)) result ≡ number_at 1 bytes.now }
{
    match bytes {
        [] => None,
        [value, rest @ ..] => Some((*value, rest)),
    }
}

/// A number of two bytes.
pub fn take_u16(bytes: &[u8]) -> Option<(u16, &[u8])>
    ensures { option_map (λ x. (x.0, x.1.now)) result ≡ number_at 2 bytes.now }
{
    if bytes.len() < 2 {
        return None;
    }
    let (digits, rest) = bytes.split_at(2);
    Some((u16::from_le_bytes([digits[0], digits[1]]), rest))
}

/// A number of three bytes.
pub fn take_u24(bytes: &[u8]) -> Option<(u64, &[u8])>
    ensures { option_map (λ x. (x.0, x.1.now)) result ≡ number_at 3 bytes.now }
{
    if bytes.len() < 3 {
        return None;
    }
    let (digits, rest) = bytes.split_at(3);
    let value = u64::from(digits[0]) + 256 * u64::from(digits[1]) + 65536 * u64::from(digits[2]);
    Some((value, rest))
}

/// A number of four bytes.
pub fn take_u32(bytes: &[u8]) -> Option<(u32, &[u8])>
    ensures { option_map (λ x. (x.0, x.1.now)) result ≡ number_at 4 bytes.now }
{
    if bytes.len() < 4 {
        return None;
    }
    let (digits, rest) = bytes.split_at(4);
    Some((
        u32::from_le_bytes([digits[0], digits[1], digits[2], digits[3]]),
        rest,
    ))
}

/// A number of six bytes.
pub fn take_u48(bytes: &[u8]) -> Option<(u64, &[u8])>
    ensures { option_map (λ x. (x.0, x.1.now)) result ≡ number_at 6 bytes.now }
{
    if bytes.len() < 6 {
        return None;
    }
    let (digits, rest) = bytes.split_at(6);
    let value = u64::from_le_bytes([
        digits[0], digits[1], digits[2], digits[3], digits[4], digits[5], 0, 0,
    ]);
    Some((value, rest))
}

/// A number of eight bytes.
pub fn take_u64(bytes: &[u8]) -> Option<(u64, &[u8])>
    ensures { option_map (λ x. (x.0, x.1.now)) result ≡ number_at 8 bytes.now }
{
    if bytes.len() < 8 {
        return None;
    }
    let (digits, rest) = bytes.split_at(8);
    let value = u64::from_le_bytes([
        digits[0], digits[1], digits[2], digits[3], digits[4], digits[5], digits[6], digits[7],
    ]);
    Some((value, rest))
}

/// A length-encoded number: one byte below 0xFB, or two, three or eight bytes after 0xFC, 0xFD or 0xFE.
pub fn take_len(bytes: &[u8]) -> Option<(u64, &[u8])>
    ensures { option_map (λ x. (x.0, x.1.now)) result ≡ len_at bytes.now }
{
    match bytes {
        [] => None,
        [0xFC, rest @ ..] => {
            let (value, rest) = take_u16(rest)?;
            Some((u64::from(value), rest))
        }
        [0xFD, rest @ ..] => take_u24(rest),
        [0xFE, rest @ ..] => take_u64(rest),
        [0xFB | 0xFF, ..] => None,
        [head, rest @ ..] => Some((u64::from(*head), rest)),
    }
}

/// A text after its length-encoded length.
pub fn take_text(bytes: &[u8]) -> Option<(&[u8], &[u8])>
    ensures { option_map (λ x. (x.0.now, x.1.now)) result ≡ text_at bytes.now }
{
    let (len, rest) = take_len(bytes)?;
    if (rest.len() as u64) < len {
        return None;
    }
    Some(rest.split_at(len as usize))
}

fn zero_place(bytes: &[u8]) -> Option<usize>
    ensures place { result ≡ position (λ b. b == 0) bytes.now }
    ensures within { IfSome result (λ k. k < length bytes.now) }
{
    bytes.iter().position(|b| *b == 0)
}

/// A text that ends at the first zero byte, which is taken too.
pub fn take_text0(bytes: &[u8]) -> Option<(&[u8], &[u8])>
    ensures { option_map (λ x. (x.0.now, x.1.now)) result ≡ text0_at bytes.now }
{
    let end = zero_place(bytes)?;
    Some((&bytes[..end], &bytes[end + 1..]))
}

/// The bytes after this head.
pub fn take_head(bytes: &[u8], head: u8) -> Option<&[u8]>
    ensures { option_map (λ x. x.now) result ≡ head_at head bytes.now }
{
    match bytes {
        [first, rest @ ..] if *first == head => Some(rest),
        _ => None,
    }
}

/// The bytes before the first zero byte, or all where there is none.
pub fn before_zero(bytes: &[u8]) -> &[u8]
    ensures { result.now ≡ before_first (λ b. b == 0) bytes.now }
{
    match zero_place(bytes) {
        Some(end) => &bytes[..end],
        None => bytes,
    }
}
