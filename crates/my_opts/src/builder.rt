//! A builder of options.

ghost use Rattle.std.specs.Prelude.{◌≡◌, IfOk, map, string_bytes, option_map, unwrap_or, [], Some};
ghost use Rattle.my_opts_parts.specs.Lists.{pair_bytes, with_attribute};
ghost use Rattle.my_opts.specs.Opts.{default_opts};
ghost use Rattle.my_opts_parts.specs.Limits.{packet_limit, waiting_limit};

use crate::opts::{DEFAULT_PORT, DEFAULT_STMT_CACHE_SIZE, Opts};
use my_frame::{NoMemory, Text};
use my_opts_parts::limits::{limited_packet, limited_wait};
use my_opts_parts::lists::{Texts, attributes_of, list_of, with_one};
use my_opts_parts::text::text_of;
use my_opts_parts::{Millis, PoolOpts};
use std::alloc::Global;
use std::collections::BTreeMap;
use std::marker::Model;
use std::net::IpAddr;

/// Options that are set one after the other. Contracts see the options that it gives.
#[derive(Drop)]
pub struct OptsBuilder {
    pub(crate) opts: Opts,
}

impl Model for OptsBuilder {
    ghost use Rattle.my_opts.specs.Opts.{OptsView};

    ghost Value = { OptsView };

    ghost view = { λ b. b.opts };
}

impl OptsBuilder {
    /// The options where nothing is said: port 3306 of 127.0.0.1.
    pub fn new(alloc: Global) -> Result<OptsBuilder, NoMemory>
        ensures { IfOk result (λ b. b ≡ default_opts) }
    {
        Ok(OptsBuilder {
            opts: Opts {
                ip_or_hostname: Text::from_str(alloc, "127.0.0.1")?,
                tcp_port: DEFAULT_PORT,
                resolved_ips: None,
                user: None,
                pass: None,
                db_name: None,
                init: Texts::new(Vec::new(alloc)),
                setup: Texts::new(Vec::new(alloc)),
                tcp_keepalive: None,
                tcp_nodelay: true,
                conn_ttl: None,
                stmt_cache_size: DEFAULT_STMT_CACHE_SIZE,
                prefer_socket: true,
                socket: None,
                max_allowed_packet: None,
                wait_timeout: None,
                secure_auth: true,
                client_found_rows: false,
                enable_cleartext_plugin: false,
                connect_attributes: None,
                pool_opts: PoolOpts::new(),
            },
        })
    }

    /// A builder that begins with these options.
    pub fn from_opts(opts: Opts) -> OptsBuilder
        ensures { result ≡ opts }
    {
        OptsBuilder { opts }
    }

    pub(crate) fn into_opts(self) -> Opts
        ensures { result ≡ self }
    {
        self.opts
    }

    /// A second value of the same options.
    pub fn copy(&self, alloc: Global) -> Result<OptsBuilder, NoMemory>
        ensures { IfOk result (λ b. b ≡ self.now) }
    {
        Ok(OptsBuilder {
            opts: self.opts.copy(alloc)?,
        })
    }

    /// The host's name or address.
    pub fn ip_or_hostname(mut self, ip_or_hostname: String) -> OptsBuilder
        ensures { result ≡ record self { ip_or_hostname = string_bytes ip_or_hostname } }
    {
        self.opts.ip_or_hostname = Text::from(ip_or_hostname);
        self
    }

    /// The port.
    pub fn tcp_port(mut self, tcp_port: u16) -> OptsBuilder
        ensures { result ≡ record self { tcp_port = tcp_port } }
    {
        self.opts.tcp_port = tcp_port;
        self
    }

    /// The host's addresses, where they are known: its name is then not looked up.
    pub fn resolved_ips(mut self, resolved_ips: Option<Vec<IpAddr>>) -> OptsBuilder
        ensures { result ≡ record self { resolved_ips = option_map (λ ips. ips.items) resolved_ips } }
    {
        self.opts.resolved_ips = list_of(resolved_ips);
        self
    }

    /// The user's name.
    pub fn user(mut self, user: Option<String>) -> OptsBuilder
        ensures { result ≡ record self { user = option_map string_bytes user } }
    {
        self.opts.user = text_of(user);
        self
    }

    /// The password.
    pub fn pass(mut self, pass: Option<String>) -> OptsBuilder
        ensures { result ≡ record self { pass = option_map string_bytes pass } }
    {
        self.opts.pass = text_of(pass);
        self
    }

    /// The database to begin with.
    pub fn db_name(mut self, db_name: Option<String>) -> OptsBuilder
        ensures { result ≡ record self { db_name = option_map string_bytes db_name } }
    {
        self.opts.db_name = text_of(db_name);
        self
    }

    /// Queries that are sent once a connection is made.
    pub fn init(mut self, init: Vec<String>) -> OptsBuilder
        ensures { result ≡ record self { init = map string_bytes init.items } }
    {
        self.opts.init = Texts::new(init);
        self
    }

    /// Queries that are sent once a connection is made or reset.
    pub fn setup(mut self, setup: Vec<String>) -> OptsBuilder
        ensures { result ≡ record self { setup = map string_bytes setup.items } }
    {
        self.opts.setup = Texts::new(setup);
        self
    }

    /// How often an idle socket tests its other side.
    pub fn tcp_keepalive(mut self, tcp_keepalive: Option<Millis>) -> OptsBuilder
        ensures { result ≡ record self { tcp_keepalive = tcp_keepalive } }
    {
        self.opts.tcp_keepalive = tcp_keepalive;
        self
    }

    /// Whether a socket sends small packets at once.
    pub fn tcp_nodelay(mut self, tcp_nodelay: bool) -> OptsBuilder
        ensures { result ≡ record self { tcp_nodelay = tcp_nodelay } }
    {
        self.opts.tcp_nodelay = tcp_nodelay;
        self
    }

    /// How long an idle connection stays usable.
    pub fn conn_ttl(mut self, conn_ttl: Option<Millis>) -> OptsBuilder
        ensures { result ≡ record self { conn_ttl = conn_ttl } }
    {
        self.opts.conn_ttl = conn_ttl;
        self
    }

    /// How many prepared statements a connection keeps.
    pub fn stmt_cache_size(mut self, stmt_cache_size: u64) -> OptsBuilder
        ensures { result ≡ record self { stmt_cache_size = stmt_cache_size } }
    {
        self.opts.stmt_cache_size = stmt_cache_size;
        self
    }

    /// Whether a local socket is taken where the server offers one.
    pub fn prefer_socket(mut self, prefer_socket: bool) -> OptsBuilder
        ensures { result ≡ record self { prefer_socket = prefer_socket } }
    {
        self.opts.prefer_socket = prefer_socket;
        self
    }

    /// The path of a local socket.
    pub fn socket(mut self, socket: Option<String>) -> OptsBuilder
        ensures { result ≡ record self { socket = option_map string_bytes socket } }
    {
        self.opts.socket = text_of(socket);
        self
    }

    /// The longest payload in bytes; a set value is moved into 1,024 to 1,073,741,824.
    pub fn max_allowed_packet(mut self, max_allowed_packet: Option<u64>) -> OptsBuilder
        ensures { result ≡ record self { max_allowed_packet = option_map packet_limit max_allowed_packet } }
    {
        self.opts.max_allowed_packet = limited_packet(max_allowed_packet);
        self
    }

    /// After how many idle seconds a connection is given up; a set value is moved to at most
    /// 31,536,000.
    pub fn wait_timeout(mut self, wait_timeout: Option<u64>) -> OptsBuilder
        ensures { result ≡ record self { wait_timeout = option_map waiting_limit wait_timeout } }
    {
        self.opts.wait_timeout = limited_wait(wait_timeout);
        self
    }

    /// Whether the oldest way to prove a password is refused.
    pub fn secure_auth(mut self, secure_auth: bool) -> OptsBuilder
        ensures { result ≡ record self { secure_auth = secure_auth } }
    {
        self.opts.secure_auth = secure_auth;
        self
    }

    /// Whether an update counts the rows that it found, and not those that it changed.
    pub fn client_found_rows(mut self, client_found_rows: bool) -> OptsBuilder
        ensures { result ≡ record self { client_found_rows = client_found_rows } }
    {
        self.opts.client_found_rows = client_found_rows;
        self
    }

    /// Whether a password may be sent as it is.
    pub fn enable_cleartext_plugin(mut self, enable_cleartext_plugin: bool) -> OptsBuilder
        ensures { result ≡ record self { enable_cleartext_plugin = enable_cleartext_plugin } }
    {
        self.opts.enable_cleartext_plugin = enable_cleartext_plugin;
        self
    }

    /// Names and values of a connection that are sent to the server.
    pub fn connect_attributes(
        mut self,
        connect_attributes: Option<BTreeMap<String, String>>,
    ) -> OptsBuilder
        ensures { let pairs = option_map (λ attributes. map pair_bytes attributes.entries) connect_attributes
            in result ≡ record self { connect_attributes = pairs } }
    {
        self.opts.connect_attributes = attributes_of(connect_attributes);
        self
    }

    /// The options of a pool.
    pub fn pool_opts(mut self, pool_opts: PoolOpts) -> OptsBuilder
        ensures { result ≡ record self { pool_opts = pool_opts } }
    {
        self.opts.pool_opts = pool_opts;
        self
    }

    /// One name with its value for the server, in place of an earlier value of that name.
    pub fn connect_attribute(
        mut self,
        alloc: Global,
        key: String,
        value: String,
    ) -> Result<OptsBuilder, NoMemory>
        ensures { let before = unwrap_or self.connect_attributes []
            in let pairs = with_attribute before (string_bytes key) (string_bytes value)
            in IfOk result (λ b. b ≡ record self { connect_attributes = Some pairs }) }
    {
        let attributes = self.opts.connect_attributes.take();
        match with_one(alloc, attributes, key, value) {
            Ok(attributes) => {
                self.opts.connect_attributes = Some(attributes);
                Ok(self)
            }
            Err(_) => {
                drop(self);
                Err(NoMemory)
            }
        }
    }
}
