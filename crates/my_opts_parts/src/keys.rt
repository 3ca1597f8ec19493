//! The keys of a URL's query.

ghost use Rattle.std.specs.Prelude.{◌≡◌};
ghost use Rattle.my_opts_parts.specs.Keys.{table, row_among};

/// An option whose value is a truth value.
#[derive(Clone, Copy)]
pub enum TruthOption {
    TcpNodelay,
    PreferSocket,
    SecureAuth,
    ClientFoundRows,
    EnableCleartextPlugin,
    ResetConnection,
    RequireSsl,
    VerifyCa,
    VerifyIdentity,
    BuiltInRoots,
}

/// An option whose value is a whole number.
#[derive(Clone, Copy)]
pub enum NumberOption {
    PoolMin,
    PoolMax,
    PoolMaxWaiting,
    InactiveConnectionTtl,
    TtlCheckInterval,
    AbsConnTtl,
    AbsConnTtlJitter,
    ConnTtl,
    TcpKeepalive,
    StmtCacheSize,
    MaxAllowedPacket,
    WaitTimeout,
}

/// How the value of a name is parsed, and which option it sets.
#[derive(Clone, Copy)]
pub enum Row {
    Truth(TruthOption),
    Whole32(NumberOption),
    Whole64(NumberOption),
    SocketPath,
    Compression,
}

/// The row of a name.
pub fn row_named(name: &str) -> Option<Row>
    ensures { result ≡ row_among table name.now }
{
    Some(match name {
        "pool_min" => Row::Whole64(NumberOption::PoolMin),
        "pool_max" => Row::Whole64(NumberOption::PoolMax),
        "pool_max_waiting" => Row::Whole64(NumberOption::PoolMaxWaiting),
        "inactive_connection_ttl" => Row::Whole64(NumberOption::InactiveConnectionTtl),
        "ttl_check_interval" => Row::Whole64(NumberOption::TtlCheckInterval),
        "abs_conn_ttl" => Row::Whole64(NumberOption::AbsConnTtl),
        "abs_conn_ttl_jitter" => Row::Whole64(NumberOption::AbsConnTtlJitter),
        "conn_ttl" => Row::Whole64(NumberOption::ConnTtl),
        "tcp_keepalive" => Row::Whole32(NumberOption::TcpKeepalive),
        "stmt_cache_size" => Row::Whole64(NumberOption::StmtCacheSize),
        "max_allowed_packet" => Row::Whole64(NumberOption::MaxAllowedPacket),
        "wait_timeout" => Row::Whole64(NumberOption::WaitTimeout),
        "tcp_nodelay" => Row::Truth(TruthOption::TcpNodelay),
        "prefer_socket" => Row::Truth(TruthOption::PreferSocket),
        "secure_auth" => Row::Truth(TruthOption::SecureAuth),
        "client_found_rows" => Row::Truth(TruthOption::ClientFoundRows),
        "enable_cleartext_plugin" => Row::Truth(TruthOption::EnableCleartextPlugin),
        "reset_connection" => Row::Truth(TruthOption::ResetConnection),
        "require_ssl" => Row::Truth(TruthOption::RequireSsl),
        "verify_ca" => Row::Truth(TruthOption::VerifyCa),
        "verify_identity" => Row::Truth(TruthOption::VerifyIdentity),
        "built_in_roots" => Row::Truth(TruthOption::BuiltInRoots),
        "socket" => Row::SocketPath,
        "compression" => Row::Compression,
        _ => return None,
    })
}

/// Why a value of this name was refused, as the end of a sentence.
pub(crate) fn other_than_wanted(name: &str) -> &'static str {
    match row_named(name) {
        Some(Row::Truth(_)) => "neither true nor false",
        Some(Row::Whole32(_)) => "no number up to 4294967295",
        Some(Row::Whole64(_)) => "no number up to 18446744073709551615",
        _ => "none of its values",
    }
}
