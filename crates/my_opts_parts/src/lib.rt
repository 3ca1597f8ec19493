//! What options are made of: lengths of time, options of pools and of transactions, lists of texts, where a
//! connection is made, and the keys of a URL.
//!
//! `my_opts` hands the types that users name on.
#![tactic(auto)]

mod error;
pub mod keys;
pub mod limits;
pub mod lists;
pub mod loopback;
mod millis;
mod pool;
mod target;
pub mod text;
mod transaction;
mod transaction_options;

pub use error::UrlError;
pub use millis::Millis;
pub use pool::{
    DEFAULT_INACTIVE_CONNECTION_TTL, DEFAULT_POOL_CONSTRAINTS, DEFAULT_TTL_CHECK_INTERVAL,
    PoolConstraints, PoolOpts,
};
pub use target::Target;
pub use transaction::IsolationLevel;
pub use transaction_options::TxOpts;
