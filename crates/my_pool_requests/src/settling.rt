//! The events by which a request's connection is good, or isn't.

ghost use Rattle.std.specs.Prelude.{◌≡◌, Some, None, true};
ghost use Rattle.my_pool_core.specs.Owners.{Looking, Making, token};
ghost use Rattle.my_pool.specs.Asks.{IsHolding};
ghost use Rattle.my_pool.specs.Fit.{IsFit};
ghost use Rattle.my_pool_requests.specs.Makes.{MadeFits};
ghost use Rattle.my_pool_requests.specs.Settles.{FitsIn, LeasedBy, SettledBy};

use crate::making::Made;
use crate::request::{AskTurn, Asking, Held, Stage};
use my_pool::{BoxedConn, Exchange, fit_is_clean};
use my_pool_store::{Journal, Wake};

/// A request's connection is good: it is leased, and the request ends.
pub(crate) fn lease<L: Drop, J: Journal, W: Wake>(
    pool: &mut Exchange<L, J, W>,
    age: u64,
    number: u64,
    conn: BoxedConn<L>,
) -> AskTurn<L>
    requires holds { IsHolding age number pool.old }
    requires fit { IsFit conn }
    ensures leased { LeasedBy age number conn pool.old pool.new result }
    ensures fits { FitsIn result pool.new }
{
    pool.ready(age, number);
    let mut conn = conn;
    conn.set_pooled(true);
    fit_is_clean(&conn);
    AskTurn::Held(Held { number, conn })
}

/// What the making of a request's connection comes to is told to the pool.
pub(crate) fn settle<L: Drop, J: Journal, W: Wake>(
    pool: &mut Exchange<L, J, W>,
    age: u64,
    number: u64,
    made: Made<L>,
) -> AskTurn<L>
    requires holds { token age pool.old.state ≡ Some (Making number) }
    requires fits { MadeFits made }
    ensures settled { SettledBy age number made pool.old pool.new result }
    ensures fits { FitsIn result pool.new }
{
    match made {
        Made::Undialed => AskTurn::Pending(Asking {
            age,
            stage: Stage::Dials(number),
        }),
        Made::Pending(making) => AskTurn::Pending(Asking {
            age,
            stage: Stage::Makes(number, making),
        }),
        Made::Good(conn) => lease(pool, age, number, conn),
        Made::Failed(error, tape) => {
            pool.failed(age, number, tape);
            AskTurn::Failed(error)
        }
    }
}
