//! What holds of a pool whatever happens to it. Each law is the clause of a function that does nothing, over the
//! definitions by which each event's method says what it does.

ghost use Rattle.std.specs.Prelude.{◌≡◌, ℕ, ◌≤◌, ◌<◌, true, List, length, All, Bool, false, Some, None, ◌||◌, ◌&&◌, not, ◌⊎◌, ◌+◌, ◌++◌, [], ◌∷◌};
ghost use Rattle.my_pool_parts.specs.declared.connection.Place.TheVariants.{Idle, Connecting, Checking, Cleaning, Resetting};
ghost use Rattle.my_pool_parts.specs.declared.connection.Times.{Times};
ghost use Rattle.my_pool_parts.specs.Lists.{found_is};
ghost use Rattle.my_pool_parts.specs.Connections.{latest_usable, is_cleaning_place};
ghost use Rattle.my_pool_parts.specs.Requests.{last_age, is_waiting};
ghost use Rattle.my_pool_core.specs.declared.event.Answer.TheVariants.{Poll};
ghost use Rattle.my_pool_core.specs.declared.event.Facts.{Facts};
ghost use Rattle.my_pool_core.specs.declared.event.PollAnswer.TheVariants.{Wait, Take, Dial};
ghost use Rattle.my_pool_core.specs.declared.event.PoolEvent.{PoolEvent};
ghost use Rattle.my_pool_core.specs.declared.limits.Limits.{Limits};
ghost use Rattle.my_pool_core.specs.declared.event.PoolEvent.TheVariants as events;
ghost use Rattle.my_pool_core.specs.declared.event.Verdict.TheVariants as verdicts;
ghost use Rattle.my_pool_core.specs.Counted.{room, due, idle};
ghost use Rattle.my_pool_core.specs.Events.{new_pool, poll_request, takes_place, is_gone, is_at_end, request, request_age, take_returned, decide, done};
ghost use Rattle.my_pool_core.specs.Moves.{token_after, PlacesMove, home_after, lease_after, verdict_place, is_ending_place, is_verdict_on, IsKeeping};
ghost use Rattle.my_pool_core.specs.Refuted.{Does, gives_wake_up, wake_given_up, gives_check_up, check_given_up};
ghost use Rattle.my_pool_core.specs.Owners.{Token, Free, token, number_in, is_home, is_lease, Making, Looking, place_at, is_working, mark_at};
ghost use Rattle.my_pool_core.specs.Sound.{IsSound, IsCovered};
ghost use Rattle.my_pool_core.specs.State.{State};
ghost use Rattle.my_pool_core.specs.Steps.{may, step, answer, AllMay, after, answers};
ghost use Rattle.my_pool_core.specs.Wakes.{waits, is_awake, oldest_waiting, wakes, is_turn_of, begins_to_wait};

/// Each event that may happen leaves a sound state sound, and one that is covered too, covered.
pub fn kept_by_each_event()
    ensures sound { (s : State) (event : PoolEvent) → IsSound s → may s event ≡ true → IsSound (step s event) }
    ensures covered { (s : State) (event : PoolEvent) → IsSound s → IsCovered s → may s event ≡ true
        → IsCovered (step s event) }
{}

/// Whatever happens to a new pool, its state is sound, and while it is open it is covered.
pub fn kept_by_all_events()
    ensures sound { (limits : Limits) (first : ℕ) (events : List PoolEvent) → first ≤ last_age
        → AllMay (new_pool limits first) events → IsSound (after (new_pool limits first) events) }
    ensures covered { (limits : Limits) (first : ℕ) (events : List PoolEvent) → first ≤ last_age
        → AllMay (new_pool limits first) events → IsCovered (after (new_pool limits first) events) }
{}

/// One more event after a list of events, and the limits, which no event changes.
pub fn one_more_event()
    ensures after { (s : State) (events : List PoolEvent) (event : PoolEvent)
        → after s (events ++ event ∷ []) ≡ step (after s events) event }
    ensures may { (s : State) (events : List PoolEvent) (event : PoolEvent) → AllMay s events
        → may (after s events) event ≡ true → AllMay s (events ++ event ∷ []) }
    ensures answers { (s : State) (events : List PoolEvent) (event : PoolEvent)
        → answers s (events ++ event ∷ []) ≡ answers s events ++ answer (after s events) event ∷ [] }
    ensures limits { (s : State) (event : PoolEvent) → (step s event).limits ≡ s.limits }
{}

/// A polled request takes a place only where each waiting request is younger.
pub fn oldest_first()
    ensures { (s : State) (age now : ℕ) → takes_place (poll_request age now s).answer ≡ true
        → All (λ r. is_waiting r ≡ true → age < r.age) s.requests }
{}

/// A pool is gone only where it counts no connection.
pub fn gone_is_empty()
    ensures { (s : State) → is_gone s ≡ true → length s.connections ≡ 0 }
{}

/// What the request of each age holds after an event.
pub fn tokens_move()
    ensures { (s : State) (event : PoolEvent) (age : ℕ) → IsSound s → may s event ≡ true
        → token age (step s event) ≡ token_after s event age }
{}

/// Which events may happen by what a request holds: one without a connection may be polled, the connection of
/// one that has one is good or isn't, and each may be given up.
pub fn tokens_allow()
    ensures poll { (s : State) (age now : ℕ) → token age s ≡ Some Free → may s (events.PollRequest age now) ≡ true }
    ensures ready { (s : State) (age number : ℕ) (held : Token) → token age s ≡ Some held
        → number_in held ≡ Some number → may s (events.Ready age number) ≡ true }
    ensures failed { (s : State) (age number : ℕ) (held : Token) → token age s ≡ Some held
        → number_in held ≡ Some number → may s (events.Failed age number) ≡ true }
    ensures cancel { (s : State) (age : ℕ) (held : Token) → token age s ≡ Some held
        → may s (events.Cancel age) ≡ true }
{}

/// Which events may happen by where a connection is: one that is leased may come back or be detached, one that is
/// being cleaned may be decided on, and its reset, its close or its failed cleaning may end.
pub fn places_allow()
    ensures back { (s : State) (number : ℕ) → is_lease number s ≡ true → may s (events.GiveBack number) ≡ true }
    ensures detach { (s : State) (number : ℕ) → is_lease number s ≡ true → may s (events.Detach number) ≡ true }
    ensures decide { (s : State) (number : ℕ) (facts : Facts) (now : ℕ)
        → found_is is_cleaning_place (place_at number s) ≡ true → may s (events.Decide number facts now) ≡ true }
    ensures done { (s : State) (number : ℕ) (ok : Bool) (facts : Facts) (now : ℕ)
        → found_is (is_ending_place ok) (place_at number s) ≡ true → may s (events.Done number ok facts now) ≡ true }
{}

/// Which requests an event wakes, and which wait after it. A woken one stays so until it is polled or given
/// up, and one that waits until it is woken or given up: where it is polled, it waits again.
pub fn woken_are()
    ensures woken { (s : State) (event : PoolEvent) (age : ℕ) → IsSound s → may s event ≡ true
        → is_awake age (step s event) ≡ (wakes s event age || (is_awake age s && not (is_turn_of age event))) }
    ensures waiting { (s : State) (event : PoolEvent) (age : ℕ) → IsSound s → may s event ≡ true
        → waits age (step s event)
        ≡ (begins_to_wait s event age || (waits age s && not (wakes s event age) && not (is_turn_of age event))) }
    ensures only { (s : State) (event : PoolEvent) (age : ℕ) → IsSound s → wakes s event age ≡ true
        → waits age s ≡ true }
    ensures again { (s : State) (age now : ℕ) → IsSound s → waits age s ≡ true
        → (poll_request age now s).answer ≡ Wait }
{}

/// The oldest waiting age waits, and none that waits is below it; where there is none, none waits.
pub fn oldest_is_least()
    ensures it { (s : State) (oldest : ℕ) → IsSound s → oldest_waiting s ≡ Some oldest → waits oldest s ≡ true }
    ensures others { (s : State) (oldest age : ℕ) → IsSound s → oldest_waiting s ≡ Some oldest → waits age s ≡ true
        → oldest ≤ age }
    ensures none { (s : State) (age : ℕ) → oldest_waiting s ≡ None → waits age s ≡ false }
{}

/// What each event does with each connection.
pub fn places_move()
    ensures { (s : State) (event : PoolEvent) → IsSound s → may s event ≡ true → PlacesMove s event (step s event) }
{}

/// Which connections the layer above keeps after an event.
pub fn homes_move()
    ensures { (s : State) (event : PoolEvent) (number : ℕ) → IsSound s → may s event ≡ true
        → is_home number (step s event) ≡ home_after s event number }
{}

/// Which connections are leased after an event.
pub fn leases_move()
    ensures { (s : State) (event : PoolEvent) (number : ℕ) → IsSound s → may s event ≡ true
        → is_lease number (step s event) ≡ lease_after s event number }
{}

/// No connection has two owners: it is kept by the layer above, leased, or held by one request.
pub fn one_owner()
    ensures home { (s : State) (number : ℕ) → is_home number s ≡ true → is_lease number s ≡ false }
    ensures made { (s : State) (age number : ℕ) → IsSound s → token age s ≡ Some (Making number)
        → place_at number s ≡ Some Connecting }
    ensures looked_at { (s : State) (age number : ℕ) → IsSound s → token age s ≡ Some (Looking number)
        → place_at number s ≡ Some Checking }
    ensures holder { (s : State) (a b number : ℕ) (t u : Token) → IsSound s → token a s ≡ Some t → token b s ≡ Some u
        → number_in t ≡ Some number → number_in u ≡ Some number → a ≡ b }
{}

/// Where a verdict puts the connection that it is about, and where one that is taken to be cleaned is.
pub fn verdict_places()
    ensures decide { (s : State) (number : ℕ) (facts : Facts) (now : ℕ) → IsSound s
        → may s (events.Decide number facts now) ≡ true → place_at number (step s (events.Decide number facts now))
        ≡ verdict_place (decide number facts now s).answer (place_at number s) facts now }
    ensures done { (s : State) (number : ℕ) (ok : Bool) (facts : Facts) (now : ℕ) → IsSound s
        → may s (events.Done number ok facts now) ≡ true → place_at number (step s (events.Done number ok facts now))
        ≡ verdict_place (done number ok facts now s).answer (place_at number s) facts now }
    ensures taken { (s : State) (number : ℕ) → IsSound s → (take_returned s).answer ≡ Some number
        → place_at number (step s events.TakeReturned) ≡ Some (Cleaning (mark_at number s)) }
{}

/// A decision keeps or resets a connection only where its facts say that it is neither closed nor dirty. An end keeps
/// one only where it was being reset, which was done well; no end has it cleaned or reset again.
pub fn verdicts_tell()
    ensures kept { (s : State) (number : ℕ) (facts : Facts) (now : ℕ)
        → (decide number facts now s).answer ≡ verdicts.Keep
        → (facts.link_closed ≡ false) × (facts.dirty ≡ false) }
    ensures reset { (s : State) (number : ℕ) (facts : Facts) (now : ℕ)
        → (decide number facts now s).answer ≡ verdicts.Reset
        → (facts.link_closed ≡ false) × (facts.dirty ≡ false) }
    ensures ended { (s : State) (number : ℕ) (ok : Bool) (facts : Facts) (now : ℕ)
        → (done number ok facts now s).answer ≡ verdicts.Keep → (ok ≡ true) × (place_at number s ≡ Some Resetting) }
    ensures cleans { (s : State) (number : ℕ) (ok : Bool) (facts : Facts) (now : ℕ)
        → (done number ok facts now s).answer ≡ verdicts.Clean → ⊥ }
    ensures resets { (s : State) (number : ℕ) (ok : Bool) (facts : Facts) (now : ℕ)
        → (done number ok facts now s).answer ≡ verdicts.Reset → ⊥ }
{}

/// A connection whose cleaning, reset or close goes on stays where it is until a verdict on it.
pub fn polled_stay()
    ensures { (s : State) (event : PoolEvent) (number : ℕ) → IsSound s → may s event ≡ true
        → is_working number s ≡ true → is_verdict_on number event ≡ false
        → place_at number (step s event) ≡ place_at number s }
{}

/// A connection becomes idle only by a verdict that keeps it, with the times of that verdict; and the idle
/// connection that a polled request takes is the latest one that is usable.
pub fn idle_by_keep()
    ensures idle { (s : State) (event : PoolEvent) (number : ℕ) (times : Times) → IsSound s → may s event ≡ true
        → place_at number (step s event) ≡ Some (Idle times)
        → (place_at number s ≡ Some (Idle times)) ⊎ IsKeeping number times s event }
    ensures taken { (s : State) (age now number : ℕ) → (poll_request age now s).answer ≡ Take number
        → latest_usable now s.connections ≡ Some number }
{}

/// A loop that takes returned connections and decides on them comes to an end: each one that is taken is one
/// fewer to be cleaned, and a verdict adds none.
pub fn turn_ends()
    ensures taken { (s : State) (number : ℕ) → IsSound s → (take_returned s).answer ≡ Some number
        → due (step s events.TakeReturned) + 1 ≡ due s }
    ensures none { (s : State) → (take_returned s).answer ≡ None → due s ≡ 0 }
    ensures decide { (s : State) (number : ℕ) (facts : Facts) (now : ℕ) → may s (events.Decide number facts now) ≡ true
        → due (step s (events.Decide number facts now)) ≤ due s }
    ensures done { (s : State) (number : ℕ) (ok : Bool) (facts : Facts) (now : ℕ)
        → may s (events.Done number ok facts now) ≡ true → due (step s (events.Done number ok facts now)) ≤ due s }
{}

/// A request that polls again where its idle connection isn't good comes to an end: each one that it takes is
/// one fewer that is idle, and one that isn't good adds none.
pub fn poll_ends()
    ensures taken { (s : State) (age now number : ℕ) → IsSound s → (poll_request age now s).answer ≡ Take number
        → idle (step s (events.PollRequest age now)) + 1 ≤ idle s }
    ensures failed { (s : State) (age number : ℕ) → IsSound s → may s (events.Failed age number) ≡ true
        → idle (step s (events.Failed age number)) ≡ idle s }
{}

/// Only a request may want more room for connections.
pub fn room_stays()
    ensures same { (s : State) (event : PoolEvent) → IsSound s → may s event ≡ true → (event ≡ events.Request → ⊥)
        → room (step s event) ≡ room s }
    ensures grows { (s : State) → room s ≤ room (step s events.Request) }
{}

/// The age of each new request is above all earlier ones; at the end of ages or numbers it is the last age,
/// and the pool is closed.
pub fn ages_rise()
    ensures new { (s : State) → is_at_end s ≡ false → request_age s ≡ s.next_age }
    ensures fresh { (s : State) → IsSound s → is_at_end s ≡ false → token (request_age s) s ≡ None }
    ensures rises { (s : State) → is_at_end s ≡ false → (step s events.Request).next_age ≡ s.next_age + 1 }
    ensures last { (s : State) → is_at_end s ≡ true → request_age s ≡ last_age }
    ensures closes { (s : State) → is_at_end s ≡ true → (step s events.Request).closed ≡ true }
    ensures stays { (s : State) → is_at_end s ≡ true → (step s events.Request).next_age ≡ s.next_age }
    ensures others { (s : State) (event : PoolEvent) → (event ≡ events.Request → ⊥)
        → (step s event).next_age ≡ s.next_age }
{}

/// The request of the last age, once it is live, stays live whatever happens, and holds nothing.
pub fn last_stays()
    ensures { (s : State) (event : PoolEvent) → IsSound s → may s event ≡ true → token last_age s ≡ Some Free
        → token last_age (step s event) ≡ Some Free }
{}

/// The number of each new connection is above all earlier ones.
pub fn numbers_rise()
    ensures next { (s : State) (age now number : ℕ) → (poll_request age now s).answer ≡ Dial number
        → number ≡ s.next_number }
    ensures fresh { (s : State) (age now number : ℕ) → IsSound s → (poll_request age now s).answer ≡ Dial number
        → place_at number s ≡ None }
    ensures rises { (s : State) (age now number : ℕ) → IsSound s → may s (events.PollRequest age now) ≡ true
        → (poll_request age now s).answer ≡ Dial number
        → (step s (events.PollRequest age now)).next_number ≡ number + 1 }
    ensures others { (s : State) (event : PoolEvent) → ((number : ℕ) → answer s event ≡ Poll (Dial number) → ⊥)
        → (step s event).next_number ≡ s.next_number }
{}

/// A woken request that is given up hands its wake on: the next one that waits takes the idle connection, and in no pool
/// goes on waiting. A request that is given up while it looks at its connection lets it go: the next one makes a connection, and
/// in no pool waits since the first one is still counted.
pub fn given_up_leaves_nothing()
    ensures handed_on { Does gives_wake_up (wake_given_up (Take 7)) }
    ensures lost { Does gives_wake_up (wake_given_up Wait) → ⊥ }
    ensures let_go { Does gives_check_up (check_given_up (Dial 8)) }
    ensures leaked { Does gives_check_up (check_given_up Wait) → ⊥ }
{}
