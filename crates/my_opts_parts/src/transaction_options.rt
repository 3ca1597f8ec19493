//! The options of a transaction.

ghost use Rattle.std.specs.Prelude.{◌≡◌};
ghost use Rattle.my_opts_parts.specs.TransactionOptions.{default_tx};

use crate::transaction::IsolationLevel;
use std::marker::Model;

/// How a transaction begins.
#[derive(Clone, Copy, PartialEq, Eq, Hash)]
pub struct TxOpts {
    consistent_snapshot: bool,
    isolation_level: Option<IsolationLevel>,
    readonly: Option<bool>,
}

impl Model for TxOpts {
    ghost use Rattle.my_opts_parts.specs.TransactionOptions.{TxView};

    ghost Value = { TxView };

    ghost view = { λ t. record {
      consistent_snapshot = t.consistent_snapshot;
      isolation_level = t.isolation_level;
      readonly = t.readonly;
    } };

    ghost inverse = { λ v. record {
      consistent_snapshot = v.consistent_snapshot;
      isolation_level = v.isolation_level;
      readonly = v.readonly;
    } };
}

impl TxOpts {
    /// Nothing is set.
    pub fn new() -> TxOpts
        ensures { result ≡ default_tx }
    {
        TxOpts {
            consistent_snapshot: false,
            isolation_level: None,
            readonly: None,
        }
    }

    /// Whether the transaction reads the state at its beginning.
    pub fn with_consistent_snapshot(&mut self, value: bool) -> &mut TxOpts
        ensures same { result.ghost_name ≡ self.entry.ghost_name }
        ensures value { result.now ≡ record self.old { consistent_snapshot = value } }
    {
        self.consistent_snapshot = value;
        self
    }

    /// The level that is set before the transaction begins.
    pub fn with_isolation_level(&mut self, value: Option<IsolationLevel>) -> &mut TxOpts
        ensures same { result.ghost_name ≡ self.entry.ghost_name }
        ensures value { result.now ≡ record self.old { isolation_level = value } }
    {
        self.isolation_level = value;
        self
    }

    /// Whether the transaction only reads, where it is set.
    pub fn with_readonly(&mut self, value: Option<bool>) -> &mut TxOpts
        ensures same { result.ghost_name ≡ self.entry.ghost_name }
        ensures value { result.now ≡ record self.old { readonly = value } }
    {
        self.readonly = value;
        self
    }

    /// Whether the transaction reads the state at its beginning.
    pub fn consistent_snapshot(&self) -> bool
        ensures { result ≡ self.now.consistent_snapshot }
    {
        self.consistent_snapshot
    }

    /// The level that is set before the transaction begins.
    pub fn isolation_level(&self) -> Option<IsolationLevel>
        ensures { result ≡ self.now.isolation_level }
    {
        self.isolation_level
    }

    /// Whether the transaction only reads, where it is set.
    pub fn readonly(&self) -> Option<bool>
        ensures { result ≡ self.now.readonly }
    {
        self.readonly
    }
}

impl Default for TxOpts {
    ghost use Rattle.std.specs.Prelude.{◌≡◌};
    ghost use Rattle.my_opts_parts.specs.TransactionOptions.{default_tx};

    ghost is_default = { λ t. t ≡ default_tx };

    fn default() -> TxOpts {
        TxOpts::new()
    }
}
