//! What follows of a poll of a request. Each law is the clause of a function that does nothing.

ghost use Rattle.std.specs.Prelude.{◌≡◌, ◌⊎◌, ℕ, Bool, [], Option, Some, None};
ghost use Rattle.my_link.specs.Outside.{HoldRose};
ghost use Rattle.my_link.specs.declared.link.CheckStep.TheVariants as checks;
ghost use Rattle.my_reading.specs.declared.error.Error.{Error};
ghost use Rattle.my_conn.specs.Conn.{ConnSeen};
ghost use Rattle.my_pool.specs.Pools.{ConnEntry, Pool};
ghost use Rattle.my_pool_requests.specs.declared.looks.Sought.TheVariants as soughts;
ghost use Rattle.my_pool_requests.specs.declared.request.AskTurn.TheVariants as turns;
ghost use Rattle.my_pool_requests.specs.Laws.{IsntGood, WhyRefused, left_over};
ghost use Rattle.my_pool_requests.specs.Looks.{LooksOn, Seeks};
ghost use Rattle.my_pool_requests.specs.Stages.{Asked};

use my_link::Link;

/// A connection that was idle is leased only where no byte of it is left over (`leased`), and its link is alive: one
/// that isn't ready doesn't count as alive (`alive`). It isn't good only where a byte is left over, or where its link
/// is dead or failed (`refused`). The request looks again only where the link wasn't ready (`pending`).
pub fn idle_connections_are_checked<L: Link>()
    ensures leased { (age n : ℕ) (c : ConnSeen L) (p q : Pool L) (held : ConnEntry L)
        → LooksOn L.looks age n c p q (Some (turns.Held held)) → left_over c ≡ [] }
    ensures alive { (age n : ℕ) (c : ConnSeen L) (p q : Pool L) (held : ConnEntry L)
        → (looks : LooksOn L.looks age n c p q (Some (turns.Held held))) → looks.step ≡ checks.Alive }
    ensures refused { (age n : ℕ) (c : ConnSeen L) (p q : Pool L) → LooksOn L.looks age n c p q None
        → IsntGood L.looks c }
    ensures pending { (age n : ℕ) (c : ConnSeen L) (p q : Pool L) (asking : Asked L)
        → LooksOn L.looks age n c p q (Some (turns.Pending asking))
        → (after : L) × HoldRose (L.looks c.link).counts (L.looks after).counts }
{}

/// A request that looks for a connection fails only where the core answers that the pool is closed or full, and with
/// the error of that answer.
pub fn requests_fail_for_a_cause<L: Link>()
    ensures { (age now : ℕ) (wakes : Bool) (p q : Pool L) (e : Error)
        → (seeks : Seeks L.looks age now wakes p q (soughts.Turn (turns.Failed e))) → WhyRefused seeks.last.answer e }
{}
