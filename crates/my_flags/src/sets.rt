//! Tests of the sets by name, and what two sets have in common.

ghost use Rattle.std.specs.Prelude.{◌≡◌};
ghost use Rattle.my_flags.specs.Sets.{caches_metadata, connects_with_db, contains, deprecates_eof, has_more_results, intersection, mariadb_intersection, sends_connect_attrs};

use crate::flags::{CapabilityFlags, MariadbCapabilities, StatusFlags};
use bitflags::Flags;

impl CapabilityFlags {
    /// Whether it has all of these capabilities.
    pub fn contains(self, other: CapabilityFlags) -> bool
        ensures { result ≡ contains self other }
    {
        Flags::contains(&self, other)
    }

    /// The capabilities of both.
    pub fn intersection(self, other: CapabilityFlags) -> CapabilityFlags
        ensures { result ≡ intersection self other }
    {
        Flags::intersection(self, other)
    }

    /// Whether a set of rows ends with an OK packet, and no EOF packet follows the columns.
    pub fn deprecates_eof(self) -> bool
        ensures { result ≡ deprecates_eof self }
    {
        self.contains(CapabilityFlags::CLIENT_DEPRECATE_EOF)
    }

    /// Whether the login names a database.
    pub fn connects_with_db(self) -> bool
        ensures { result ≡ connects_with_db self }
    {
        self.contains(CapabilityFlags::CLIENT_CONNECT_WITH_DB)
    }

    /// Whether the login carries attributes of the client.
    pub fn sends_connect_attrs(self) -> bool
        ensures { result ≡ sends_connect_attrs self }
    {
        self.contains(CapabilityFlags::CLIENT_CONNECT_ATTRS)
    }
}

impl MariadbCapabilities {
    /// The capabilities of both.
    pub fn intersection(self, other: MariadbCapabilities) -> MariadbCapabilities
        ensures { result ≡ mariadb_intersection self other }
    {
        Flags::intersection(self, other)
    }

    /// Whether a statement's columns are sent only where they changed.
    pub fn caches_metadata(self) -> bool
        ensures { result ≡ caches_metadata self }
    {
        Flags::contains(&self, MariadbCapabilities::MARIADB_CLIENT_CACHE_METADATA)
    }
}

impl StatusFlags {
    /// Whether another set of results follows.
    pub fn has_more_results(self) -> bool
        ensures { result ≡ has_more_results self }
    {
        Flags::contains(&self, StatusFlags::SERVER_MORE_RESULTS_EXISTS)
    }
}
