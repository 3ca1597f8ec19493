//! The ends of a lease.

ghost use Rattle.std.specs.Prelude.{◌≡◌, true};
ghost use Rattle.my_pool_core.specs.declared.event.PoolEvent.TheVariants as events;
ghost use Rattle.my_pool_core.specs.Owners.{is_lease};
ghost use Rattle.my_pool.specs.Fit.{IsStill};
ghost use Rattle.my_pool_requests.specs.Leases.{GivesBack, StillBy, taken_back};
ghost use Rattle.my_pool_requests.specs.Settles.{Settles};

use crate::request::Held;
use my_conn::Conn;
use my_link::Link;
use my_pool::{BoxedConn, Exchange};
use my_pool_store::{Journal, Wake};

// The open call of a connection is cancelled, where there is one.
fn still<L: Link>(conn: &mut BoxedConn<L>)
    ensures by { StillBy conn.old.pending conn.old conn.new }
    ensures still { IsStill conn.new }
{
    if let Some(kind) = conn.open_call() {
        conn.cancel_call(kind);
    }
}

/// A lease ends: its open call is cancelled, where there is one, and its connection comes back to the pool.
pub fn give<L: Link + Drop, J: Journal, W: Wake>(pool: &mut Exchange<L, J, W>, held: Held<L>)
    requires { is_lease held.number pool.old.state ≡ true }
    ensures { GivesBack held pool.old pool.new }
{
    let Held { number, conn } = held;
    let mut conn = conn;
    still(&mut conn);
    conn.set_pooled(false);
    pool.give_back(number, conn);
}

/// A lease ends: its connection is taken out of the pool for good, and is its caller's. Its open call stays open.
pub fn detach<L: Drop, J: Journal, W: Wake>(pool: &mut Exchange<L, J, W>, held: Held<L>) -> Conn<L>
    requires { is_lease held.number pool.old.state ≡ true }
    ensures event { Settles (events.Detach held.number) pool.old pool.new }
    ensures conn { result ≡ taken_back held.conn }
{
    let Held { number, conn } = held;
    let mut conn = conn;
    pool.detach(number);
    conn.set_pooled(false);
    conn.into_conn()
}
