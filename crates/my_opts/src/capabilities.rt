//! The capabilities of a client.

ghost use Rattle.std.specs.Prelude.{◌≡◌, ◌+◌, sum};
ghost use Rattle.my_opts.specs.Capabilities.{client_bits, database_bit, found_rows_bit};

use bitflags::Flags;
use my_flags::CapabilityFlags;

/// The capabilities of a client whose login names a database or not, and that asks for found rows or not.
pub(crate) fn client_capabilities(database: bool, found_rows: bool) -> CapabilityFlags
    ensures { result.0 ≡ sum client_bits + database_bit database + found_rows_bit found_rows }
{
    let mut flags = always();
    if database {
        flags.insert(CapabilityFlags::CLIENT_CONNECT_WITH_DB);
    }
    if found_rows {
        flags.insert(CapabilityFlags::CLIENT_FOUND_ROWS);
    }
    flags
}

/// The capabilities of each client.
fn always() -> CapabilityFlags
    ensures { result.0 ≡ sum client_bits }
{
    CapabilityFlags::CLIENT_PROTOCOL_41
        .union(CapabilityFlags::CLIENT_SECURE_CONNECTION)
        .union(CapabilityFlags::CLIENT_LONG_PASSWORD)
        .union(CapabilityFlags::CLIENT_TRANSACTIONS)
        .union(CapabilityFlags::CLIENT_LOCAL_FILES)
        .union(CapabilityFlags::CLIENT_MULTI_STATEMENTS)
        .union(CapabilityFlags::CLIENT_MULTI_RESULTS)
        .union(CapabilityFlags::CLIENT_PS_MULTI_RESULTS)
        .union(CapabilityFlags::CLIENT_DEPRECATE_EOF)
        .union(CapabilityFlags::CLIENT_PLUGIN_AUTH)
}
