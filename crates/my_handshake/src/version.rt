//! The version in a server's greeting.

ghost use Rattle.std.specs.Prelude.{◌≡◌, ◌+◌, ◌*◌, ◌<◌, ◌≤◌, IfSome};
ghost use Rattle.std.specs.Option.{option_map};
ghost use Rattle.my_handshake.specs.Version.{digit_at, dotted_at, further_digit, mariadb_at, prefixed_at, three_at, two_at, version_of};

use my_frame::numbers::take_head;

/// The server's make and the three numbers of its version, all 0 where its text is none.
#[derive(Clone, Copy, PartialEq, Eq)]
pub struct ServerVersion {
    pub mariadb: bool,
    pub major: u16,
    pub minor: u16,
    pub patch: u16,
}

fn take_digit(bytes: &[u8]) -> Option<(u16, &[u8])>
    ensures value { option_map (λ x. (x.0, x.1.now)) result ≡ digit_at bytes.now }
    ensures small { IfSome result (λ x. x.0 < 10) }
{
    match bytes {
        [digit @ b'0'..=b'9', rest @ ..] => Some((u16::from(*digit - b'0'), rest)),
        _ => None,
    }
}

// One digit more, where a digit comes next.
fn further_digit(value: u16, bytes: &[u8]) -> (u16, &[u8])
    requires { value < 100 }
    ensures value { (result.0, result.1.now) ≡ further_digit (value, bytes.now) }
    ensures small { result.0 ≤ 10 * value + 9 }
{
    match take_digit(bytes) {
        Some((digit, rest)) => (10 * value + digit, rest),
        None => (value, bytes),
    }
}

// A number of one or two digits.
fn take_two(bytes: &[u8]) -> Option<(u16, &[u8])>
    ensures value { option_map (λ x. (x.0, x.1.now)) result ≡ two_at bytes.now }
    ensures small { IfSome result (λ x. x.0 < 100) }
{
    let (digit, rest) = take_digit(bytes)?;
    Some(further_digit(digit, rest))
}

// A number of one to three digits.
fn take_three(bytes: &[u8]) -> Option<(u16, &[u8])>
    ensures { option_map (λ x. (x.0, x.1.now)) result ≡ three_at bytes.now }
{
    let (value, rest) = take_two(bytes)?;
    Some(further_digit(value, rest))
}

// Three numbers with dots between them.
#[tactic(auto, unfolding(crate::specs::Version::dotted_at))]
fn take_dotted(bytes: &[u8]) -> Option<((u16, u16, u16), &[u8])>
    ensures { option_map (λ x. (x.0, x.1.now)) result ≡ dotted_at bytes.now }
{
    let (major, rest) = take_two(bytes)?;
    let rest = take_head(rest, b'.')?;
    let (minor, rest) = take_two(rest)?;
    let rest = take_head(rest, b'.')?;
    let (patch, rest) = take_three(rest)?;
    Some(((major, minor, patch), rest))
}

fn mariadb_of(bytes: &[u8]) -> Option<(u16, u16, u16)>
    ensures { result ≡ mariadb_at bytes.now }
{
    let (numbers, rest) = take_dotted(bytes)?;
    if rest.starts_with(b"-MariaDB") {
        Some(numbers)
    } else {
        None
    }
}

// MariaDB's numbers after the prefix that old clients want.
fn prefixed_of(text: &[u8]) -> Option<(u16, u16, u16)>
    ensures { result ≡ prefixed_at text.now }
{
    if text.starts_with(b"5.5.5-") {
        mariadb_of(&text[6..])
    } else {
        None
    }
}

/// The version that a greeting's text spells.
pub fn server_version(text: &[u8]) -> ServerVersion
    ensures { result ≡ version_of text.now }
{
    let mariadb = prefixed_of(text).or(mariadb_of(text));
    let other = take_dotted(text);
    match (mariadb, other) {
        (Some((major, minor, patch)), _) => ServerVersion {
            mariadb: true,
            major,
            minor,
            patch,
        },
        (None, Some(((major, minor, patch), _))) => ServerVersion {
            mariadb: false,
            major,
            minor,
            patch,
        },
        (None, None) => ServerVersion {
            mariadb: false,
            major: 0,
            minor: 0,
            patch: 0,
        },
    }
}
