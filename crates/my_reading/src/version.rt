//! Which versions of a server have which commands.

ghost use Rattle.std.specs.Prelude.{◌≡◌};
ghost use Rattle.my_reading.specs.Versions.{can_reset, can_set_access, is_from};

use my_handshake::ServerVersion;

// Whether the version is this one or a later one.
fn is_from(major: u16, minor: u16, patch: u16, version: ServerVersion) -> bool
    ensures { result ≡ is_from major minor patch version }
{
    major < version.major
        || (version.major == major
            && (minor < version.minor || (version.minor == minor && patch <= version.patch)))
}

/// Whether a server of this version can reset its session without a new login: MySQL from 5.7.3 on, MariaDB from 10.2.4 on.
pub fn can_reset(version: ServerVersion) -> bool
    ensures { result ≡ can_reset version }
{
    if version.mariadb {
        is_from(10, 2, 4, version)
    } else {
        is_from(5, 7, 3, version)
    }
}

/// Whether a server of this version can be told that a transaction only reads: from 5.6.5 on.
pub fn can_set_access(version: ServerVersion) -> bool
    ensures { result ≡ can_set_access version }
{
    is_from(5, 6, 5, version)
}
