//! Numbers that are kept within bounds.

ghost use Rattle.std.specs.Prelude.{◌≡◌, option_map};
ghost use Rattle.my_opts_parts.specs.Limits.{packet_limit, waiting_limit};

use my_frame::limits::{GREATEST_MAX_ALLOWED_PACKET, LEAST_MAX_ALLOWED_PACKET};

/// The most bytes of a URL.
pub const LONGEST_URL: usize = 1_048_576;

/// The longest waiting time in seconds: a year.
pub const LONGEST_WAIT_TIMEOUT: u64 = 31_536_000;

/// A packet's limit in bytes, within its bounds.
fn within_packets(bytes: u64) -> u64
    ensures { result ≡ packet_limit bytes }
{
    bytes
        .min(GREATEST_MAX_ALLOWED_PACKET)
        .max(LEAST_MAX_ALLOWED_PACKET)
}

/// A packet's limit, where there is one, within its bounds.
pub fn limited_packet(limit: Option<u64>) -> Option<u64>
    ensures { result ≡ option_map packet_limit limit }
{
    match limit {
        Some(bytes) => Some(within_packets(bytes)),
        None => None,
    }
}

/// A waiting time in seconds, where there is one, within its bound.
pub fn limited_wait(limit: Option<u64>) -> Option<u64>
    ensures { result ≡ option_map waiting_limit limit }
{
    match limit {
        Some(seconds) => Some(seconds.min(LONGEST_WAIT_TIMEOUT)),
        None => None,
    }
}
