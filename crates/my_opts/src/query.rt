//! The options that a URL's query sets, one pair after the other.

ghost use Rattle.std.specs.Prelude.{◌≡◌, Some, Ok};
ghost use Rattle.my_opts.specs.Faults.{LeavesAs, IsFault};
ghost use Rattle.my_opts.specs.Query.{put_number, put_truth, put_socket, set_or_refused, compression_error, after_row, after_pair};
ghost use Rattle.my_frame.specs.Numeral.{whole_number};
ghost use Rattle.my_opts.specs.Values.{truth};

use crate::builder::OptsBuilder;
use crate::error::UrlFault;
use crate::values::{is_compression, truth_of, whole32, whole64};
use my_frame::Text;
use my_opts_parts::keys::{NumberOption, Row, TruthOption, row_named};
use my_opts_parts::limits::{limited_packet, limited_wait};
use my_opts_parts::{Millis, PoolConstraints, PoolOpts, UrlError};
use std::alloc::Global;

/// What the pairs of a query have set so far.
#[derive(Drop)]
pub(crate) struct Gathered {
    pub(crate) builder: OptsBuilder,
    pub(crate) pool: PoolOpts,
    pub(crate) pool_min: u64,
    pub(crate) pool_max: u64,
    pub(crate) require_ssl: bool,
}

impl Gathered {
    /// The options that were gathered, with these bounds of their pool.
    pub(crate) fn into_builder(self, constraints: PoolConstraints) -> OptsBuilder
        ensures { result ≡ record self.builder { pool_opts = record self.pool { constraints = constraints } } }
    {
        let pool = self.pool.with_constraints(constraints);
        self.builder.pool_opts(pool)
    }

    /// Sets what this pair sets.
    pub(crate) fn put_pair(
        &mut self,
        alloc: Global,
        name: &str,
        value: &str,
    ) -> Result<(), UrlFault>
        ensures { LeavesAs result self.new (after_pair self.old (name.now, value.now)) }
    {
        match row_named(name) {
            Some(row) => self.put_row(alloc, row, name, value),
            None => Err(unknown(alloc, name)),
        }
    }

    fn put_row(&mut self, alloc: Global, row: Row, name: &str, value: &str) -> Result<(), UrlFault>
        ensures { LeavesAs result self.new (after_row (Some row) name.now value.now self.old) }
    {
        match row {
            Row::Truth(option) => self.truth_pair(alloc, option, name, value),
            Row::Whole32(option) => self.number_pair(
                alloc,
                option,
                widened(whole32(value)),
                name,
                value,
            ),
            Row::Whole64(option) => self.number_pair(alloc, option, whole64(value), name, value),
            Row::SocketPath => self.socket_pair(alloc, value),
            Row::Compression => Err(compression(alloc, name, value)),
        }
    }

    fn truth_pair(
        &mut self,
        alloc: Global,
        option: TruthOption,
        name: &str,
        value: &str,
    ) -> Result<(), UrlFault>
        ensures { LeavesAs result self.new
            (set_or_refused name.now value.now (truth value.now) (put_truth option) self.old) }
    {
        match truth_of(value) {
            Some(truth) => {
                self.put_truth(option, truth);
                Ok(())
            }
            None => Err(invalid(alloc, name, value)),
        }
    }

    fn number_pair(
        &mut self,
        alloc: Global,
        option: NumberOption,
        number: Option<u64>,
        name: &str,
        value: &str,
    ) -> Result<(), UrlFault>
        ensures { LeavesAs result self.new
            (set_or_refused name.now value.now number (put_number option) self.old) }
    {
        match number {
            Some(number) => {
                self.put_number(option, number);
                Ok(())
            }
            None => Err(invalid(alloc, name, value)),
        }
    }

    fn put_truth(&mut self, option: TruthOption, truth: bool)
        ensures { self.new ≡ put_truth option truth self.old }
    {
        match option {
            TruthOption::TcpNodelay => self.builder.opts.tcp_nodelay = truth,
            TruthOption::PreferSocket => self.builder.opts.prefer_socket = truth,
            TruthOption::SecureAuth => self.builder.opts.secure_auth = truth,
            TruthOption::ClientFoundRows => self.builder.opts.client_found_rows = truth,
            TruthOption::EnableCleartextPlugin => {
                self.builder.opts.enable_cleartext_plugin = truth;
            }
            TruthOption::ResetConnection => {
                self.pool = self.pool.copy().with_reset_connection(truth);
            }
            TruthOption::RequireSsl => self.require_ssl = truth,
            TruthOption::VerifyCa | TruthOption::VerifyIdentity | TruthOption::BuiltInRoots => {}
        }
    }

    fn put_number(&mut self, option: NumberOption, number: u64)
        ensures { self.new ≡ put_number option number self.old }
    {
        let seconds = Millis::from_secs(number);
        let pool = self.pool.copy();
        match option {
            NumberOption::PoolMin => self.pool_min = number,
            NumberOption::PoolMax => self.pool_max = number,
            NumberOption::PoolMaxWaiting => self.pool = pool.with_max_waiting(Some(number)),
            NumberOption::InactiveConnectionTtl => {
                self.pool = pool.with_inactive_connection_ttl(seconds);
            }
            NumberOption::TtlCheckInterval => self.pool = pool.with_ttl_check_interval(seconds),
            NumberOption::AbsConnTtl => self.pool = pool.with_abs_conn_ttl(Some(seconds)),
            NumberOption::AbsConnTtlJitter => {
                self.pool = pool.with_abs_conn_ttl_jitter(Some(seconds));
            }
            NumberOption::ConnTtl => self.builder.opts.conn_ttl = Some(seconds),
            NumberOption::TcpKeepalive => {
                self.builder.opts.tcp_keepalive = Some(Millis::from_millis(number));
            }
            NumberOption::StmtCacheSize => self.builder.opts.stmt_cache_size = number,
            NumberOption::MaxAllowedPacket => {
                self.builder.opts.max_allowed_packet = limited_packet(Some(number));
            }
            NumberOption::WaitTimeout => {
                self.builder.opts.wait_timeout = limited_wait(Some(number));
            }
        }
    }

    fn socket_pair(&mut self, alloc: Global, path: &str) -> Result<(), UrlFault>
        ensures { LeavesAs result self.new (Ok (put_socket path.now self.old)) }
    {
        let path = Text::from_str(alloc, path)?;
        self.builder.opts.socket = Some(path);
        Ok(())
    }
}

/// The number, where there is one.
fn widened(number: Option<u32>) -> Option<u64>
    ensures { result ≡ number }
{
    match number {
        Some(number) => Some(number as u64),
        None => None,
    }
}

/// The refusal of a name that is in no row.
fn unknown(alloc: Global, name: &str) -> UrlFault
    ensures { IsFault result (UrlError.UnknownParameter name.now) }
{
    match Text::from_str(alloc, name) {
        Ok(param) => UrlFault::Url(UrlError::UnknownParameter { param }),
        Err(_) => UrlFault::NoMemory,
    }
}

/// The refusal of a value that doesn't read.
fn invalid(alloc: Global, name: &str, value: &str) -> UrlFault
    ensures { IsFault result (UrlError.InvalidParamValue name.now value.now) }
{
    match (Text::from_str(alloc, name), Text::from_str(alloc, value)) {
        (Ok(param), Ok(value)) => UrlFault::Url(UrlError::InvalidParamValue { param, value }),
        _ => UrlFault::NoMemory,
    }
}

/// The refusal of compression.
fn compression(alloc: Global, name: &str, value: &str) -> UrlFault
    ensures { IsFault result (compression_error name.now value.now) }
{
    if is_compression(value) {
        feature_required(alloc, "compression", "compression")
    } else {
        invalid(alloc, name, value)
    }
}

/// The refusal of what this client lacks.
pub(crate) fn feature_required(alloc: Global, feature: &str, param: &str) -> UrlFault
    ensures { IsFault result (UrlError.FeatureRequired feature.now param.now) }
{
    match (Text::from_str(alloc, feature), Text::from_str(alloc, param)) {
        (Ok(feature), Ok(param)) => UrlFault::Url(UrlError::FeatureRequired { feature, param }),
        _ => UrlFault::NoMemory,
    }
}
