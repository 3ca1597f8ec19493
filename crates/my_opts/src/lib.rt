//! Options of a connection and of a pool, and the URLs that give them.
#![tactic(auto)]

mod builder;
mod capabilities;
mod change_user;
mod error;
mod from_url;
mod laws;
mod opts;
mod query;
mod values;

pub use builder::OptsBuilder;
pub use change_user::ChangeUserOpts;
pub use error::UrlFault;
pub use laws::url_gives_what_a_builder_gives;
pub use my_frame::Listed;
pub use my_opts_parts::{
    DEFAULT_INACTIVE_CONNECTION_TTL, DEFAULT_POOL_CONSTRAINTS, DEFAULT_TTL_CHECK_INTERVAL,
    IsolationLevel, Millis, PoolConstraints, PoolOpts, Target, TxOpts, UrlError,
};
pub use opts::{DEFAULT_PORT, DEFAULT_STMT_CACHE_SIZE, Opts};
