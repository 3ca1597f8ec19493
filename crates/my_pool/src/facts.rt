//! What a pool knows of a connection.

ghost use Rattle.std.specs.Prelude.{◌≡◌};
ghost use Rattle.my_pool.specs.Fit.{IsCleanConn, IsFit, facts_of};

use crate::boxed::BoxedConn;
use my_pool_core::Facts;
use my_pool_parts::Times;

/// The facts of a connection at a moment, in milliseconds.
pub fn facts_at<L>(conn: &BoxedConn<L>, now: u64) -> Facts
    ensures { result ≡ facts_of now conn.now }
{
    let conn = conn.conn();
    let times = Times {
        since: now,
        deadline: conn.deadline(),
        last_io: conn.last_io(),
        ttl: conn.ttl(),
    };
    Facts {
        link_closed: conn.is_disconnected(),
        dirty: conn.is_dirty(),
        expired: times.is_over(now),
        reset: conn.reset_flag(),
        last_io: times.last_io,
        ttl: times.ttl,
        deadline: times.deadline,
    }
}

/// A connection that is fit is clean, whatever it did. This does nothing; it is for callers whose proof needs that
/// fact.
pub fn fit_is_clean<L>(conn: &BoxedConn<L>)
    ensures { IsFit conn.now → IsCleanConn conn.now }
{
    let _ = conn.conn().is_dirty();
}
