//! What a connection knows of its server and of the last OK, and how long it may rest.
ghost use Rattle.std.specs.Prelude.{◌≡◌};
ghost use Rattle.my_handshake.specs.Version.{version_of};
ghost use Rattle.my_conn.specs.Facts.{affected_by, id_of, info_by, insert_by, ttl_by, warnings_by};

use crate::conn::Conn;
use my_handshake::server_version;
use my_opts_parts::Millis;

// An id of 0 is none.
fn id_of(id: u64) -> Option<u64>
    ensures { result ≡ id_of id }
{
    if id == 0 { None } else { Some(id) }
}

// How long a connection may rest, in milliseconds, by the options, or by the server's timeout in seconds.
fn ttl_by(ttl: Option<Millis>, seconds: u64) -> u128
    ensures { result ≡ ttl_by ttl seconds }
{
    match ttl {
        None => 1000 * u128::from(seconds),
        Some(ttl) => ttl.as_millis(),
    }
}

impl<L> Conn<L> {
    /// How long it may rest, in milliseconds; 0 is without an end.
    pub fn ttl(&self) -> u128
        ensures { result ≡ ttl_by self.now.lifetime.opts.conn_ttl self.now.seen.stand.facts.settings.wait_timeout }
    {
        ttl_by(self.opts().conn_ttl(), self.timeout())
    }

    /// The number of rows that the last statement changed, by the last OK; 0 without one.
    pub fn affected_rows(&self) -> u64
        ensures { result ≡ affected_by self.now.seen.stand.facts.ok }
    {
        match self.last_ok_packet() {
            None => 0,
            Some(ok) => ok.affected,
        }
    }

    /// The id that the server generated for the last new row, by the last OK; none where it generated none,
    /// or without an OK.
    pub fn last_insert_id(&self) -> Option<u64>
        ensures { result ≡ insert_by self.now.seen.stand.facts.ok }
    {
        match self.last_ok_packet() {
            None => None,
            Some(ok) => id_of(ok.insert),
        }
    }

    /// The number of warnings, by the last OK; 0 without one.
    pub fn get_warnings(&self) -> u16
        ensures { result ≡ warnings_by self.now.seen.stand.facts.ok }
    {
        match self.last_ok_packet() {
            None => 0,
            Some(ok) => ok.warnings,
        }
    }

    /// The last OK's remark for people; empty without one.
    pub fn info(&self) -> &[u8]
        ensures { result.now ≡ info_by self.now.seen.stand.facts.ok }
    {
        match self.last_ok_packet() {
            None => &[],
            Some(ok) => ok.info.as_slice(),
        }
    }

    /// The three numbers of the server's version.
    pub fn server_version(&self) -> (u16, u16, u16)
        ensures major { result.0 ≡ (version_of self.now.seen.stand.facts.version).major }
        ensures minor { result.1 ≡ (version_of self.now.seen.stand.facts.version).minor }
        ensures patch { result.2 ≡ (version_of self.now.seen.stand.facts.version).patch }
    {
        let version = server_version(self.version());
        (version.major, version.minor, version.patch)
    }
}
