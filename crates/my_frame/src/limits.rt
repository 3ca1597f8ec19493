//! Limits on lengths, in bytes, and on numbers: those of the protocol, and those that programs here keep to.

/// The bytes that a full chunk carries. A chunk with fewer is the last of its payload.
pub const FULL_LENGTH: usize = 0xFF_FFFF;

/// The longest payload that is read or sent where nothing else was agreed.
pub const DEFAULT_MAX_ALLOWED_PACKET: u64 = 4_194_304;

/// The least value of the setting `max_allowed_packet`.
pub const LEAST_MAX_ALLOWED_PACKET: u64 = 1_024;

/// The greatest value of the setting `max_allowed_packet`.
pub const GREATEST_MAX_ALLOWED_PACKET: u64 = 1_073_741_824;

/// The most bytes that a program reads from its source.
pub const MOST_INPUT: usize = 67_108_864;

/// The most bytes that one poll of a connection takes from its link.
pub const MOST_TAKEN: u64 = 67_108_864;

/// The most statements that a cache keeps.
pub const MOST_STATEMENTS: usize = 65_535;
