//! What follows of a turn. Each law is the clause of a function that does nothing.

ghost use Rattle.std.specs.Prelude.{◌≡◌, ◌<◌, ℕ, true, [], ◌∷◌};
ghost use Rattle.my_pool_core.specs.Owners.{is_at};
ghost use Rattle.my_pool_core.specs.Sound.{IsSound};
ghost use Rattle.my_pool.specs.Pools.{Pool};
ghost use Rattle.my_pool_turns.specs.declared.task.Task.{Task};
ghost use Rattle.my_pool_turns.specs.Laws.{AreThose, NoneDue};
ghost use Rattle.my_pool_turns.specs.Tasks.{kind_at};
ghost use Rattle.my_pool_turns.specs.Turns.{PollsAll, Turns};

use my_link::Link;

/// A turn leaves no connection to be taken: none is returned, and where the pool is closed none is idle.
pub fn none_is_left<L: Link>()
    ensures { (now : ℕ) (p q : Pool L) → Turns L.looks now p q → NoneDue q.state }
{}

/// Of the connections that are cleaned, reset or closed where a turn comes to them, each is polled once, in rising
/// order of numbers, and no other is (`polled`). So what stops after the first of two is no turn (`stopped`).
pub fn each_is_polled_once<L: Link>()
    ensures polled { (task : Task) (now : ℕ) (p q : Pool L) → IsSound p.state → (polls : PollsAll L.looks task now p q)
        → AreThose (kind_at task) p.state polls.numbers }
    ensures stopped { (task : Task) (now : ℕ) (p q : Pool L) (first second : ℕ) → IsSound p.state → first < second
        → is_at (kind_at task) second p.state ≡ true → (polls : PollsAll L.looks task now p q)
        → polls.numbers ≡ first ∷ [] → ⊥ }
{}
