//! Options of a connection.

ghost use Rattle.std.specs.Prelude.{◌≡◌, ◌≤◌, IfOk, IfSome, MatchBool, map, string_bytes, option_map, option_copied};
ghost use Rattle.my_frame.specs.declared.limits.TheConstants.{GREATEST_MAX_ALLOWED_PACKET, LEAST_MAX_ALLOWED_PACKET};
ghost use Rattle.my_opts_parts.specs.declared.limits.TheConstants.{LONGEST_WAIT_TIMEOUT};
ghost use Rattle.my_opts.specs.Capabilities.{capabilities_of};
ghost use Rattle.my_opts_parts.specs.Lists.{pair_bytes};
ghost use Rattle.my_opts_parts.specs.Loopback.{IsElsewhere, IsLoopback};
ghost use Rattle.my_opts.specs.Target.{target_of};

use crate::builder::OptsBuilder;
use crate::capabilities::client_capabilities;
use my_flags::CapabilityFlags;
use my_frame::{Copied, Listed, NoMemory, Text};
use my_opts_parts::lists::{Attributes, Texts};
use my_opts_parts::loopback::is_loopback;
use my_opts_parts::text::shown;
use my_opts_parts::{Millis, PoolOpts, Target};
use std::alloc::Global;
use std::collections::BTreeMap;
use std::marker::Model;
use std::net::IpAddr;

/// The port of a server where none is set.
pub const DEFAULT_PORT: u16 = 3306;

/// How many prepared statements a connection keeps where no number is set.
pub const DEFAULT_STMT_CACHE_SIZE: u64 = 32;

/// The options of a connection, and those of a pool of such connections.
#[derive(Drop, PartialEq, Eq)]
pub struct Opts {
    pub(crate) ip_or_hostname: Text,
    pub(crate) tcp_port: u16,
    pub(crate) resolved_ips: Option<Listed<IpAddr>>,
    pub(crate) user: Option<Text>,
    pub(crate) pass: Option<Text>,
    pub(crate) db_name: Option<Text>,
    pub(crate) init: Texts,
    pub(crate) setup: Texts,
    pub(crate) tcp_keepalive: Option<Millis>,
    pub(crate) tcp_nodelay: bool,
    pub(crate) conn_ttl: Option<Millis>,
    pub(crate) stmt_cache_size: u64,
    pub(crate) prefer_socket: bool,
    pub(crate) socket: Option<Text>,
    pub(crate) max_allowed_packet: Option<u64>,
    pub(crate) wait_timeout: Option<u64>,
    pub(crate) secure_auth: bool,
    pub(crate) client_found_rows: bool,
    pub(crate) enable_cleartext_plugin: bool,
    pub(crate) connect_attributes: Option<Attributes>,
    pub(crate) pool_opts: PoolOpts,
}

impl Model for Opts {
    ghost use Rattle.my_opts.specs.Opts.{OptsView};
    ghost use Rattle.my_opts_parts.specs.Limits.{IsPacketLimit, IsWaitingLimit};

    ghost Value = { OptsView };

    ghost view = { λ o. record {
      ip_or_hostname = o.ip_or_hostname;
      tcp_port = o.tcp_port;
      resolved_ips = o.resolved_ips;
      user = o.user;
      pass = o.pass;
      db_name = o.db_name;
      init = o.init;
      setup = o.setup;
      tcp_keepalive = o.tcp_keepalive;
      tcp_nodelay = o.tcp_nodelay;
      conn_ttl = o.conn_ttl;
      stmt_cache_size = o.stmt_cache_size;
      prefer_socket = o.prefer_socket;
      socket = o.socket;
      max_allowed_packet = o.max_allowed_packet;
      wait_timeout = o.wait_timeout;
      secure_auth = o.secure_auth;
      client_found_rows = o.client_found_rows;
      enable_cleartext_plugin = o.enable_cleartext_plugin;
      connect_attributes = o.connect_attributes;
      pool_opts = o.pool_opts;
    } };

    ghost invariant = { λ o. IsPacketLimit o.max_allowed_packet × IsWaitingLimit o.wait_timeout };

    ghost inverse = { λ v. record {
      ip_or_hostname = v.ip_or_hostname;
      tcp_port = v.tcp_port;
      resolved_ips = v.resolved_ips;
      user = v.user;
      pass = v.pass;
      db_name = v.db_name;
      init = v.init;
      setup = v.setup;
      tcp_keepalive = v.tcp_keepalive;
      tcp_nodelay = v.tcp_nodelay;
      conn_ttl = v.conn_ttl;
      stmt_cache_size = v.stmt_cache_size;
      prefer_socket = v.prefer_socket;
      socket = v.socket;
      max_allowed_packet = v.max_allowed_packet;
      wait_timeout = v.wait_timeout;
      secure_auth = v.secure_auth;
      client_found_rows = v.client_found_rows;
      enable_cleartext_plugin = v.enable_cleartext_plugin;
      connect_attributes = v.connect_attributes;
      pool_opts = v.pool_opts;
    } };
}

impl From<OptsBuilder> for Opts {
    ghost use Rattle.std.specs.Prelude.{◌≡◌};

    ghost from_gives = { λ builder opts. opts ≡ builder };

    fn from(builder: OptsBuilder) -> Opts {
        builder.into_opts()
    }
}

impl Opts {
    /// The host's name or address.
    pub fn ip_or_hostname(&self) -> &str
        ensures { result.now ≡ self.now.ip_or_hostname }
    {
        self.ip_or_hostname.as_str()
    }

    /// The port.
    pub fn tcp_port(&self) -> u16
        ensures { result ≡ self.now.tcp_port }
    {
        self.tcp_port
    }

    /// The host's addresses, where they are known: its name is then not looked up.
    pub fn resolved_ips(&self) -> Option<&Vec<IpAddr>>
        ensures { option_map (λ ips. ips.now.items) result ≡ self.now.resolved_ips }
    {
        match &self.resolved_ips {
            Some(ips) => Some(ips.as_vec()),
            None => None,
        }
    }

    /// The user's name.
    pub fn user(&self) -> Option<&str>
        ensures { option_copied result ≡ self.now.user }
    {
        shown(&self.user)
    }

    /// The password.
    pub fn pass(&self) -> Option<&str>
        ensures { option_copied result ≡ self.now.pass }
    {
        shown(&self.pass)
    }

    /// The database to begin with.
    pub fn db_name(&self) -> Option<&str>
        ensures { option_copied result ≡ self.now.db_name }
    {
        shown(&self.db_name)
    }

    /// Queries that are sent once a connection is made.
    pub fn init(&self) -> &[String]
        ensures { map string_bytes result.now ≡ self.now.init }
    {
        self.init.as_slice()
    }

    /// Queries that are sent once a connection is made or reset.
    pub fn setup(&self) -> &[String]
        ensures { map string_bytes result.now ≡ self.now.setup }
    {
        self.setup.as_slice()
    }

    /// How often an idle socket tests its other side.
    pub fn tcp_keepalive(&self) -> Option<Millis>
        ensures { result ≡ self.now.tcp_keepalive }
    {
        self.tcp_keepalive
    }

    /// Whether a socket sends small packets at once.
    pub fn tcp_nodelay(&self) -> bool
        ensures { result ≡ self.now.tcp_nodelay }
    {
        self.tcp_nodelay
    }

    /// How long an idle connection stays usable.
    pub fn conn_ttl(&self) -> Option<Millis>
        ensures { result ≡ self.now.conn_ttl }
    {
        self.conn_ttl
    }

    /// How many prepared statements a connection keeps.
    pub fn stmt_cache_size(&self) -> u64
        ensures { result ≡ self.now.stmt_cache_size }
    {
        self.stmt_cache_size
    }

    /// Whether a local socket is taken where the server offers one.
    pub fn prefer_socket(&self) -> bool
        ensures { result ≡ self.now.prefer_socket }
    {
        self.prefer_socket
    }

    /// The path of a local socket.
    pub fn socket(&self) -> Option<&str>
        ensures { option_copied result ≡ self.now.socket }
    {
        shown(&self.socket)
    }

    /// The longest payload in bytes; a set value is moved into 1,024 to 1,073,741,824.
    pub fn max_allowed_packet(&self) -> Option<u64>
        ensures value { result ≡ self.now.max_allowed_packet }
        ensures limited { IfSome result (λ n. (LEAST_MAX_ALLOWED_PACKET ≤ n) × (n ≤ GREATEST_MAX_ALLOWED_PACKET)) }
    {
        self.max_allowed_packet
    }

    /// After how many idle seconds a connection is given up; a set value is moved to at most
    /// 31,536,000.
    pub fn wait_timeout(&self) -> Option<u64>
        ensures value { result ≡ self.now.wait_timeout }
        ensures limited { IfSome result (λ n. n ≤ LONGEST_WAIT_TIMEOUT) }
    {
        self.wait_timeout
    }

    /// Whether the oldest way to prove a password is refused.
    pub fn secure_auth(&self) -> bool
        ensures { result ≡ self.now.secure_auth }
    {
        self.secure_auth
    }

    /// Whether an update counts the rows that it found, and not those that it changed.
    pub fn client_found_rows(&self) -> bool
        ensures { result ≡ self.now.client_found_rows }
    {
        self.client_found_rows
    }

    /// Whether a password may be sent as it is.
    pub fn enable_cleartext_plugin(&self) -> bool
        ensures { result ≡ self.now.enable_cleartext_plugin }
    {
        self.enable_cleartext_plugin
    }

    /// Names and values of a connection that are sent to the server.
    pub fn connect_attributes(&self) -> Option<&BTreeMap<String, String>>
        ensures { option_map (λ attributes. map pair_bytes attributes.now.entries) result
            ≡ self.now.connect_attributes }
    {
        match &self.connect_attributes {
            Some(attributes) => Some(attributes.as_map()),
            None => None,
        }
    }

    /// The options of a pool.
    pub fn pool_opts(&self) -> &PoolOpts
        ensures { result.now ≡ self.now.pool_opts }
    {
        &self.pool_opts
    }

    /// How long a connection of the pool lives, in use or not; None is without an end.
    pub fn abs_conn_ttl(&self) -> Option<Millis>
        ensures { result ≡ self.now.pool_opts.abs_conn_ttl }
    {
        self.pool_opts.abs_conn_ttl()
    }

    /// How much longer than `abs_conn_ttl` a connection may live, by chance.
    pub fn abs_conn_ttl_jitter(&self) -> Option<Millis>
        ensures { result ≡ self.now.pool_opts.abs_conn_ttl_jitter }
    {
        self.pool_opts.abs_conn_ttl_jitter()
    }

    /// Whether the host is the machine itself: a loopback address, with or without brackets, or
    /// `localhost`; or one of its known addresses is.
    pub fn addr_is_loopback(&self) -> bool
        ensures { MatchBool result (IsLoopback self.now.resolved_ips self.now.ip_or_hostname)
            (IsElsewhere self.now.resolved_ips self.now.ip_or_hostname) }
    {
        is_loopback(&self.resolved_ips, self.ip_or_hostname.as_str())
    }

    /// Where a connection with these options is made: at the local socket that they name, else at
    /// their host and port.
    pub fn target(&self, alloc: Global) -> Result<Target, NoMemory>
        ensures { IfOk result (λ target. target ≡ target_of self.now) }
    {
        match &self.socket {
            Some(path) => Ok(Target::Socket(path.copy(alloc)?)),
            None => Ok(Target::Tcp {
                host: self.ip_or_hostname.copy(alloc)?,
                port: self.tcp_port,
                ips: self.resolved_ips.copy(alloc)?,
            }),
        }
    }

    /// The capabilities of a client with these options.
    pub fn get_capabilities(&self) -> CapabilityFlags
        ensures { result.0 ≡ capabilities_of self.now }
    {
        client_capabilities(self.db_name.is_some(), self.client_found_rows)
    }

    /// A second value of the same options.
    pub fn copy(&self, alloc: Global) -> Result<Opts, NoMemory>
        ensures { IfOk result (λ o. o ≡ self.now) }
    {
        Ok(Opts {
            ip_or_hostname: self.ip_or_hostname.copy(alloc)?,
            tcp_port: self.tcp_port,
            resolved_ips: self.resolved_ips.copy(alloc)?,
            user: self.user.copy(alloc)?,
            pass: self.pass.copy(alloc)?,
            db_name: self.db_name.copy(alloc)?,
            init: self.init.copy(alloc)?,
            setup: self.setup.copy(alloc)?,
            tcp_keepalive: self.tcp_keepalive,
            tcp_nodelay: self.tcp_nodelay,
            conn_ttl: self.conn_ttl,
            stmt_cache_size: self.stmt_cache_size,
            prefer_socket: self.prefer_socket,
            socket: self.socket.copy(alloc)?,
            max_allowed_packet: self.max_allowed_packet,
            wait_timeout: self.wait_timeout,
            secure_auth: self.secure_auth,
            client_found_rows: self.client_found_rows,
            enable_cleartext_plugin: self.enable_cleartext_plugin,
            connect_attributes: self.connect_attributes.copy(alloc)?,
            pool_opts: self.pool_opts.copy(),
        })
    }
}
