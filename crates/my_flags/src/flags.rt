//! The sets of named bits that a client and a server exchange.

ghost use Rattle.std.specs.Prelude.{⊤, [], ◌∷◌, codes};

use bitflags::{Flag, Flags, bitflag_items};

/// What a client or a server can do. Both sides send theirs while a connection is made, and what
/// both have holds from then on.
#[derive(Clone, Copy, PartialEq, Eq)]
pub struct CapabilityFlags(pub u32);

bitflag_items! {
    impl CapabilityFlags: u32 {
        const CLIENT_LONG_PASSWORD = 0x1;
        const CLIENT_FOUND_ROWS = 0x2;
        const CLIENT_CONNECT_WITH_DB = 0x8;
        const CLIENT_COMPRESS = 0x20;
        const CLIENT_LOCAL_FILES = 0x80;
        const CLIENT_PROTOCOL_41 = 0x200;
        const CLIENT_SSL = 0x800;
        const CLIENT_TRANSACTIONS = 0x2000;
        const CLIENT_SECURE_CONNECTION = 0x8000;
        const CLIENT_MULTI_STATEMENTS = 0x10000;
        const CLIENT_MULTI_RESULTS = 0x20000;
        const CLIENT_PS_MULTI_RESULTS = 0x40000;
        const CLIENT_PLUGIN_AUTH = 0x80000;
        const CLIENT_CONNECT_ATTRS = 0x100000;
        const CLIENT_DEPRECATE_EOF = 0x1000000;
    }
}

impl Flags for CapabilityFlags {
    type Bits = u32;

    ghost exact = { ⊤ };

    ghost table = { (codes "CLIENT_LONG_PASSWORD", 0x1) ∷ (codes "CLIENT_FOUND_ROWS", 0x2)
        ∷ (codes "CLIENT_CONNECT_WITH_DB", 0x8) ∷ (codes "CLIENT_COMPRESS", 0x20)
        ∷ (codes "CLIENT_LOCAL_FILES", 0x80) ∷ (codes "CLIENT_PROTOCOL_41", 0x200)
        ∷ (codes "CLIENT_SSL", 0x800) ∷ (codes "CLIENT_TRANSACTIONS", 0x2000)
        ∷ (codes "CLIENT_SECURE_CONNECTION", 0x8000) ∷ (codes "CLIENT_MULTI_STATEMENTS", 0x10000)
        ∷ (codes "CLIENT_MULTI_RESULTS", 0x20000) ∷ (codes "CLIENT_PS_MULTI_RESULTS", 0x40000)
        ∷ (codes "CLIENT_PLUGIN_AUTH", 0x80000) ∷ (codes "CLIENT_CONNECT_ATTRS", 0x100000)
        ∷ (codes "CLIENT_DEPRECATE_EOF", 0x1000000) ∷ [] };

    ghost set_of = { λ p. p.0 };

    fn flags<'a>() -> &'a [Flag<CapabilityFlags>] {
        CapabilityFlags::FLAGS
    }

    fn bits(&self) -> u32 {
        self.0
    }

    fn from_bits_retain(bits: u32) -> CapabilityFlags {
        CapabilityFlags(bits)
    }
}

/// The state of a server's session, as its replies give it.
#[derive(Clone, Copy, PartialEq, Eq)]
pub struct StatusFlags(pub u16);

bitflag_items! {
    impl StatusFlags: u16 {
        const SERVER_STATUS_IN_TRANS = 0x1;
        const SERVER_STATUS_AUTOCOMMIT = 0x2;
        const SERVER_MORE_RESULTS_EXISTS = 0x8;
        const SERVER_STATUS_NO_GOOD_INDEX_USED = 0x10;
        const SERVER_STATUS_NO_INDEX_USED = 0x20;
        const SERVER_STATUS_CURSOR_EXISTS = 0x40;
        const SERVER_STATUS_LAST_ROW_SENT = 0x80;
        const SERVER_STATUS_DB_DROPPED = 0x100;
        const SERVER_STATUS_NO_BACKSLASH_ESCAPES = 0x200;
        const SERVER_STATUS_METADATA_CHANGED = 0x400;
        const SERVER_QUERY_WAS_SLOW = 0x800;
        const SERVER_PS_OUT_PARAMS = 0x1000;
        const SERVER_STATUS_IN_TRANS_READONLY = 0x2000;
        const SERVER_SESSION_STATE_CHANGED = 0x4000;
    }
}

impl Flags for StatusFlags {
    type Bits = u16;

    ghost exact = { ⊤ };

    ghost table = { (codes "SERVER_STATUS_IN_TRANS", 0x1) ∷ (codes "SERVER_STATUS_AUTOCOMMIT", 0x2)
        ∷ (codes "SERVER_MORE_RESULTS_EXISTS", 0x8) ∷ (codes "SERVER_STATUS_NO_GOOD_INDEX_USED", 0x10)
        ∷ (codes "SERVER_STATUS_NO_INDEX_USED", 0x20) ∷ (codes "SERVER_STATUS_CURSOR_EXISTS", 0x40)
        ∷ (codes "SERVER_STATUS_LAST_ROW_SENT", 0x80) ∷ (codes "SERVER_STATUS_DB_DROPPED", 0x100)
        ∷ (codes "SERVER_STATUS_NO_BACKSLASH_ESCAPES", 0x200)
        ∷ (codes "SERVER_STATUS_METADATA_CHANGED", 0x400) ∷ (codes "SERVER_QUERY_WAS_SLOW", 0x800)
        ∷ (codes "SERVER_PS_OUT_PARAMS", 0x1000) ∷ (codes "SERVER_STATUS_IN_TRANS_READONLY", 0x2000)
        ∷ (codes "SERVER_SESSION_STATE_CHANGED", 0x4000) ∷ [] };

    ghost set_of = { λ p. p.0 };

    fn flags<'a>() -> &'a [Flag<StatusFlags>] {
        StatusFlags::FLAGS
    }

    fn bits(&self) -> u16 {
        self.0
    }

    fn from_bits_retain(bits: u16) -> StatusFlags {
        StatusFlags(bits)
    }
}

/// What a MariaDB server can do beyond `CapabilityFlags`. It sends them in the last four of the
/// greeting's reserved bytes, and a client returns those that it has too.
#[derive(Clone, Copy, PartialEq, Eq)]
pub struct MariadbCapabilities(pub u32);

bitflag_items! {
    impl MariadbCapabilities: u32 {
        const MARIADB_CLIENT_STMT_BULK_OPERATIONS = 0x4;
        const MARIADB_CLIENT_CACHE_METADATA = 0x10;
    }
}

impl Flags for MariadbCapabilities {
    type Bits = u32;

    ghost exact = { ⊤ };

    ghost table = { (codes "MARIADB_CLIENT_STMT_BULK_OPERATIONS", 0x4)
        ∷ (codes "MARIADB_CLIENT_CACHE_METADATA", 0x10) ∷ [] };

    ghost set_of = { λ p. p.0 };

    fn flags<'a>() -> &'a [Flag<MariadbCapabilities>] {
        MariadbCapabilities::FLAGS
    }

    fn bits(&self) -> u32 {
        self.0
    }

    fn from_bits_retain(bits: u32) -> MariadbCapabilities {
        MariadbCapabilities(bits)
    }
}
