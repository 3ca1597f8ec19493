//! What follows of the tapes of connections that are gone. Each law is the clause of a function that does nothing.

ghost use Rattle.std.specs.Prelude.{◌≡◌, ℕ, List, [], ◌∷◌, ◌++◌, Option, Some, None};
ghost use Rattle.my_client.specs.declared.tape.Tape.{Tape};
ghost use Rattle.my_conn.specs.Conn.{ConnSeen};
ghost use Rattle.my_pool_core.specs.declared.event.Answer.{Answer};
ghost use Rattle.my_pool_core.specs.declared.event.PoolEvent.{PoolEvent};
ghost use Rattle.my_pool_core.specs.declared.event.Verdict.TheVariants as verdicts;
ghost use Rattle.my_pool_store.specs.Shelves.{Entry, entry, with_left};
ghost use Rattle.my_pool.specs.Pools.{MadeWith, Pool, left_of};

use my_link::Link;

/// The tape of a connection that goes comes last, with its number (`right`). It is neither left out (`lost`) nor
/// there twice (`twice`), doesn't stand before an earlier one (`before`), and is no other connection's (`other`).
/// Where none is left, there are those that there were (`none`).
pub fn tapes_stand_in_order()
    ensures right { (t u : Tape) → with_left (Some (2, u)) (entry 1 t ∷ []) ≡ entry 1 t ∷ entry 2 u ∷ [] }
    ensures none { (t : Tape) → with_left None (entry 1 t ∷ []) ≡ entry 1 t ∷ [] }
    ensures lost { (t u : Tape) → with_left (Some (2, u)) (entry 1 t ∷ []) ≡ entry 1 t ∷ [] → ⊥ }
    ensures twice { (t u : Tape) → with_left (Some (2, u)) (entry 1 t ∷ [])
        ≡ entry 1 t ∷ entry 2 u ∷ entry 2 u ∷ [] → ⊥ }
    ensures before { (t u : Tape) → with_left (Some (2, u)) (entry 1 t ∷ []) ≡ entry 2 u ∷ entry 1 t ∷ [] → ⊥ }
    ensures other { (t u : Tape) → with_left (Some (2, u)) (entry 1 t ∷ []) ≡ entry 1 t ∷ entry 3 u ∷ [] → ⊥ }
{}

/// A verdict by which a connection is counted no more leaves the tape that it has (`goes`), and nothing where it has
/// none (`untaped`). One by which it is kept leaves nothing (`keeps`), nor does one by which it is cleaned, reset or
/// closed.
pub fn verdicts_leave_tapes<L: Link>()
    ensures goes { (n : ℕ) (c : ConnSeen L) (t : Tape) → c.tape ≡ Some t
        → left_of verdicts.Drop (entry n c) ≡ Some (n, t) }
    ensures untaped { (n : ℕ) (c : ConnSeen L) → c.tape ≡ None → left_of verdicts.Drop (entry n c) ≡ None }
    ensures keeps { (n : ℕ) (c : ConnSeen L) → left_of verdicts.Keep (entry n c) ≡ None }
    ensures cleans { (n : ℕ) (c : ConnSeen L) → left_of verdicts.Clean (entry n c) ≡ None }
    ensures resets { (n : ℕ) (c : ConnSeen L) → left_of verdicts.Reset (entry n c) ≡ None }
    ensures closes { (n : ℕ) (c : ConnSeen L) → left_of verdicts.Close (entry n c) ≡ None }
{}

/// No event takes a tape away, or moves one: those that are there stay at the front.
pub fn tapes_stay<L: Link>()
    ensures { (left : Option (ℕ × Tape)) (event : PoolEvent) (answer : Answer) (p q : Pool L)
        → MadeWith left event answer p q → (more : List (Entry Tape)) × (q.gone ≡ p.gone ++ more) }
{}
