//! What follows of notes, of what a journal tells, of views, and of calls of wakers. Each law is the clause of a function that
//! does nothing.

ghost use Rattle.std.specs.Prelude.{◌≡◌, ℕ, ◌≤◌, ◌==◌, true, false, List, [], ◌∷◌, Option, Some, None};
ghost use Rattle.my_pool_parts.specs.Lists.{how_many};
ghost use Rattle.my_pool_parts.specs.declared.request.Standing.TheVariants.{Asks, Waits, Woken};
ghost use Rattle.my_pool_core.specs.declared.event.PoolEvent.{PoolEvent};
ghost use Rattle.my_pool_core.specs.Sound.{IsSound};
ghost use Rattle.my_pool_core.specs.State.{State};
ghost use Rattle.my_pool_core.specs.Steps.{may, step};
ghost use Rattle.my_pool_store.specs.Noted.{IsNoted, Replays};
ghost use Rattle.my_pool_store.specs.Views.{ages_of, request_as};
ghost use Rattle.my_pool_store.specs.Woken.{WaitBeside, called_at, called_closed, waiting};

/// Where the events that a journal tells lead from one state to another, and one more that may happen there is noted, what
/// is told then leads to the state after it.
pub fn noted_events_replay()
    ensures { (start s : State) (event : PoolEvent) (told new : Option (List PoolEvent)) → Replays start told s
        → may s event ≡ true → IsNoted told event new → Replays start new (step s event) }
{}

/// Where each request that has a waker waits, but perhaps the one of an age, a call at that age leaves the wakers of those
/// that wait; and so does the call of a closed pool's wakers, where each waits while it is open.
pub fn those_that_wait_keep_wakers()
    ensures at { (s : State) (age : Option ℕ) (ages : List ℕ) → ((a : ℕ) → how_many (λ b. b == a) ages ≤ 1)
        → WaitBeside age s ages → called_at age s ages ≡ waiting s ages }
    ensures closed { (s : State) (ages : List ℕ) → IsSound s → (s.closed ≡ false → WaitBeside None s ages)
        → called_closed s ages ≡ waiting s ages }
{}

/// A note stands behind those that are there (`right`), or is missing, and then all are (`cut`). It isn't left out, nor
/// noted where an earlier one is missing.
pub fn notes_stand_in_order()
    ensures right { IsNoted {T = ℕ} (Some (1 ∷ [])) 2 (Some (1 ∷ 2 ∷ [])) }
    ensures cut { IsNoted {T = ℕ} (Some (1 ∷ [])) 2 None }
    ensures left_out { IsNoted {T = ℕ} (Some (1 ∷ [])) 2 (Some (1 ∷ [])) → ⊥ }
    ensures too_late { IsNoted {T = ℕ} None 2 (Some (2 ∷ [])) → ⊥ }
{}

/// A view tells the requests that wait from those that were woken, and shows no other.
pub fn views_tell_apart()
    ensures waiting { ages_of false (request_as 1 Woken ∷ request_as 2 Waits ∷ request_as 3 Asks ∷ []) ≡ 2 ∷ [] }
    ensures woken { ages_of true (request_as 1 Woken ∷ request_as 2 Waits ∷ request_as 3 Asks ∷ []) ≡ 1 ∷ [] }
    ensures mixed { ages_of false (request_as 1 Woken ∷ request_as 2 Waits ∷ []) ≡ 1 ∷ 2 ∷ [] → ⊥ }
    ensures left_out { ages_of true (request_as 1 Woken ∷ request_as 2 Waits ∷ []) ≡ [] → ⊥ }
{}
