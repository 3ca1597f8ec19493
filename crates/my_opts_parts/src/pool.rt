//! Options of a pool.

ghost use Rattle.std.specs.Prelude.{◌≡◌, ◌⊎◌, ◌↔◌, ◌<◌, ◌≤◌, IsNone, IfSome, IfNone};
ghost use Rattle.my_opts_parts.specs.Pool.{Bounds, PoolView, default_pool, interval_of, active_bound_of, deadline_of};

use crate::millis::Millis;
use std::marker::Model;

/// 10 connections at least and 100 at most.
pub const DEFAULT_POOL_CONSTRAINTS: PoolConstraints = PoolConstraints { min: 10, max: 100 };

/// An idle connection above the lower bound isn't kept.
pub const DEFAULT_INACTIVE_CONNECTION_TTL: Millis = Millis { millis: 0 };

/// Idle connections are looked through each 30 seconds.
pub const DEFAULT_TTL_CHECK_INTERVAL: Millis = Millis { millis: 30_000 };

/// How many connections a pool keeps and has: `min <= max` and `0 < max`.
#[derive(Clone, Copy, PartialEq, Eq, Hash)]
pub struct PoolConstraints {
    min: u64,
    max: u64,
}

impl Model for PoolConstraints {
    ghost use Rattle.std.specs.Prelude.{◌≤◌, ◌<◌};
    ghost use Rattle.my_opts_parts.specs.Pool.{Bounds};

    ghost Value = { Bounds };

    ghost view = { λ c. record { min = c.min; max = c.max } };

    ghost invariant = { λ c. (c.min ≤ c.max) × (0 < c.max) };

    ghost inverse = { λ b. record { min = b.min; max = b.max } };
}

impl PoolConstraints {
    /// These bounds; None where `min` is above `max` or `max` is 0.
    pub const fn new(min: u64, max: u64) -> Option<PoolConstraints>
        ensures none { IsNone result ↔ ((max < min) ⊎ (max ≡ 0)) }
        ensures value { IfSome result (λ c. c ≡ record { min = min; max = max }) }
    {
        if min <= max && max > 0 {
            Some(PoolConstraints { min, max })
        } else {
            None
        }
    }

    /// The lower bound.
    pub fn min(&self) -> u64
        ensures value { result ≡ self.now.min }
        ensures ordered { result ≤ self.now.max }
    {
        self.min
    }

    /// The upper bound.
    pub fn max(&self) -> u64
        ensures value { result ≡ self.now.max }
        ensures ordered { self.now.min ≤ result }
        ensures positive { 0 < result }
    {
        self.max
    }
}

impl Default for PoolConstraints {
    ghost use Rattle.std.specs.Prelude.{◌≡◌};
    ghost use Rattle.my_opts_parts.specs.Pool.{default_pool};

    ghost is_default = { λ c. c ≡ default_pool.constraints };

    fn default() -> PoolConstraints {
        DEFAULT_POOL_CONSTRAINTS
    }
}

/// The options of a pool.
#[derive(Clone, PartialEq, Eq, Hash, Drop)]
pub struct PoolOpts {
    constraints: PoolConstraints,
    inactive_connection_ttl: Millis,
    ttl_check_interval: Millis,
    abs_conn_ttl: Option<Millis>,
    abs_conn_ttl_jitter: Option<Millis>,
    reset_connection: bool,
    max_waiting: Option<u64>,
}

impl Model for PoolOpts {
    ghost use Rattle.my_opts_parts.specs.Pool.{PoolView};

    ghost Value = { PoolView };

    ghost view = { λ p. record {
      constraints = p.constraints;
      inactive_connection_ttl = p.inactive_connection_ttl;
      ttl_check_interval = p.ttl_check_interval;
      abs_conn_ttl = p.abs_conn_ttl;
      abs_conn_ttl_jitter = p.abs_conn_ttl_jitter;
      reset_connection = p.reset_connection;
      max_waiting = p.max_waiting;
    } };

    ghost inverse = { λ v. record {
      constraints = v.constraints;
      inactive_connection_ttl = v.inactive_connection_ttl;
      ttl_check_interval = v.ttl_check_interval;
      abs_conn_ttl = v.abs_conn_ttl;
      abs_conn_ttl_jitter = v.abs_conn_ttl_jitter;
      reset_connection = v.reset_connection;
      max_waiting = v.max_waiting;
    } };
}

impl PoolOpts {
    /// 10 to 100 connections, which are reset when they come back and live without an end.
    pub fn new() -> PoolOpts
        ensures { result ≡ default_pool }
    {
        PoolOpts {
            constraints: DEFAULT_POOL_CONSTRAINTS,
            inactive_connection_ttl: DEFAULT_INACTIVE_CONNECTION_TTL,
            ttl_check_interval: DEFAULT_TTL_CHECK_INTERVAL,
            abs_conn_ttl: None,
            abs_conn_ttl_jitter: None,
            reset_connection: true,
            max_waiting: None,
        }
    }

    /// A second value of the same options.
    pub fn copy(&self) -> PoolOpts
        ensures { result ≡ self.now }
    {
        PoolOpts {
            constraints: self.constraints,
            inactive_connection_ttl: self.inactive_connection_ttl,
            ttl_check_interval: self.ttl_check_interval,
            abs_conn_ttl: self.abs_conn_ttl,
            abs_conn_ttl_jitter: self.abs_conn_ttl_jitter,
            reset_connection: self.reset_connection,
            max_waiting: self.max_waiting,
        }
    }

    /// How many connections are kept, and how many there are at most.
    pub fn with_constraints(mut self, constraints: PoolConstraints) -> PoolOpts
        ensures { result ≡ record self { constraints = constraints } }
    {
        self.constraints = constraints;
        self
    }

    /// How many connections are kept, and how many there are at most.
    pub fn constraints(&self) -> PoolConstraints
        ensures { result ≡ self.now.constraints }
    {
        self.constraints
    }

    /// How long an idle connection above the lower bound stays; 0 means not at all.
    pub fn with_inactive_connection_ttl(mut self, ttl: Millis) -> PoolOpts
        ensures { result ≡ record self { inactive_connection_ttl = ttl } }
    {
        self.inactive_connection_ttl = ttl;
        self
    }

    /// How long an idle connection above the lower bound stays; 0 means not at all.
    pub fn inactive_connection_ttl(&self) -> Millis
        ensures { result ≡ self.now.inactive_connection_ttl }
    {
        self.inactive_connection_ttl
    }

    /// How often idle connections are looked through; below one second means 30 seconds.
    pub fn with_ttl_check_interval(mut self, interval: Millis) -> PoolOpts
        ensures { result ≡ record self { ttl_check_interval = interval_of interval } }
    {
        self.ttl_check_interval = if interval.as_millis() < 1000 {
            DEFAULT_TTL_CHECK_INTERVAL
        } else {
            interval
        };
        self
    }

    /// How often idle connections are looked through.
    pub fn ttl_check_interval(&self) -> Millis
        ensures { result ≡ self.now.ttl_check_interval }
    {
        self.ttl_check_interval
    }

    /// How long a connection lives, in use or not; None is without an end.
    pub fn with_abs_conn_ttl(mut self, ttl: Option<Millis>) -> PoolOpts
        ensures { result ≡ record self { abs_conn_ttl = ttl } }
    {
        self.abs_conn_ttl = ttl;
        self
    }

    /// How long a connection lives, in use or not; None is without an end.
    pub fn abs_conn_ttl(&self) -> Option<Millis>
        ensures { result ≡ self.now.abs_conn_ttl }
    {
        self.abs_conn_ttl
    }

    /// How much longer than `abs_conn_ttl` a connection may live, by chance.
    pub fn with_abs_conn_ttl_jitter(mut self, jitter: Option<Millis>) -> PoolOpts
        ensures { result ≡ record self { abs_conn_ttl_jitter = jitter } }
    {
        self.abs_conn_ttl_jitter = jitter;
        self
    }

    /// How much longer than `abs_conn_ttl` a connection may live, by chance.
    pub fn abs_conn_ttl_jitter(&self) -> Option<Millis>
        ensures { result ≡ self.now.abs_conn_ttl_jitter }
    {
        self.abs_conn_ttl_jitter
    }

    /// Whether a connection that comes back is reset.
    pub fn with_reset_connection(mut self, reset_connection: bool) -> PoolOpts
        ensures { result ≡ record self { reset_connection = reset_connection } }
    {
        self.reset_connection = reset_connection;
        self
    }

    /// Whether a connection that comes back is reset.
    pub fn reset_connection(&self) -> bool
        ensures { result ≡ self.now.reset_connection }
    {
        self.reset_connection
    }

    /// How many requests may wait for a connection; None is any number.
    pub fn with_max_waiting(mut self, limit: Option<u64>) -> PoolOpts
        ensures { result ≡ record self { max_waiting = limit } }
    {
        self.max_waiting = limit;
        self
    }

    /// How many requests may wait for a connection; None is any number.
    pub fn max_waiting(&self) -> Option<u64>
        ensures { result ≡ self.now.max_waiting }
    {
        self.max_waiting
    }

    /// How many connections stay: the lower bound where idle ones have no time to live, else
    /// the upper bound.
    pub fn active_bound(&self) -> u64
        ensures value { result ≡ active_bound_of self.now }
        ensures within { result ≤ self.now.constraints.max }
    {
        if self.inactive_connection_ttl.as_millis() == 0 {
            self.constraints.min()
        } else {
            self.constraints.max()
        }
    }

    /// The moment, in milliseconds, at which a connection that is made at `now` ends: `random`
    /// picks among the whole seconds of the jitter. None where it has no end.
    pub fn new_deadline(&self, now: u64, random: u64) -> Option<u128>
        ensures { result ≡ deadline_of self.now now random }
    {
        let ttl = self.abs_conn_ttl?.as_secs();
        let jitter = match self.abs_conn_ttl_jitter {
            Some(jitter) => jitter.as_secs(),
            None => 0,
        };
        let later = ttl + random as u128 % (jitter + 1);
        Some(now as u128 + 1000 * later)
    }
}

impl Default for PoolOpts {
    ghost use Rattle.std.specs.Prelude.{◌≡◌};
    ghost use Rattle.my_opts_parts.specs.Pool.{default_pool};

    ghost is_default = { λ p. p ≡ default_pool };

    fn default() -> PoolOpts {
        PoolOpts::new()
    }
}
