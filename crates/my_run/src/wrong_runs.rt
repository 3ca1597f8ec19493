//! Runs that no user would call right, each of which the headline refutes, and beside them runs that it accepts.
ghost use Rattle.my_run.specs.WrongRuns.{NoPlannedDialFault, NoWaitAsFault, NoHeldDialFault, NoHiddenDials, LinksHaveTapes, NoSecretDial, NoStepsUnread, NoBytesAfter, DialFault, NoStillMoment, NoEarlyEnd, NoHoldAfterTurn, NoHoldInTurn, NoZeroSent, NoOtherTaken, NoFaultAtRest, NoBrokenInput, NoSourceFault, NoClosedExecution, NoUngivenExecution, NoForgottenRollback, SentAtStop, NoSecretAtStop, StoppedInSecond};

/// Over a world that planned no wait and no fault of the dial, none is said to have failed.
pub fn no_planned_dial_fault()
    ensures { NoPlannedDialFault }
{}

/// A dial that is planned to wait isn't said to have failed.
pub fn no_wait_as_fault()
    ensures { NoWaitAsFault }
{}

/// A dial that wasn't ready isn't said to have failed.
pub fn no_held_dial_fault()
    ensures { NoHeldDialFault }
{}

/// A dial that failed isn't left out: the dialer counted no more of them than are shown.
pub fn no_hidden_dials()
    ensures { NoHiddenDials }
{}

/// Each link that is handed back is that of a tape.
pub fn links_have_tapes()
    ensures { LinksHaveTapes }
{}

/// No link is dialed that no step names.
pub fn no_secret_dial()
    ensures { NoSecretDial }
{}

/// No link is sent bytes after the last step.
pub fn no_bytes_after()
    ensures { NoBytesAfter }
{}

/// Where a line doesn't read no step is run.
pub fn no_steps_unread()
    ensures { NoStepsUnread }
{}

/// A dial that failed, as the world counted it, is accepted.
pub fn dial_fault()
    ensures { DialFault }
{}

/// A step that moves the moment doesn't leave it.
pub fn no_still_moment()
    ensures { NoStillMoment }
{}

/// The link's end isn't returned before the bytes that the plan has in front of it.
pub fn no_early_end()
    ensures { NoEarlyEnd }
{}

/// After a turn was met no poll stays pending on a read, where a byte can be read.
pub fn no_hold_after_turn()
    ensures { NoHoldAfterTurn }
{}

/// So it is in a run of `conn` and `ping`.
pub fn no_hold_in_turn()
    ensures { NoHoldInTurn }
{}

/// A link isn't sent other bytes than its tape says.
pub fn no_zero_sent()
    ensures { NoZeroSent }
{}

/// A tape takes no other bytes than the plan's.
pub fn no_other_taken()
    ensures { NoOtherTaken }
{}

/// A call that owes nothing and awaits nothing doesn't fail by its link.
pub fn no_fault_at_rest()
    ensures { NoFaultAtRest }
{}

/// A source of which no read failed isn't said to have failed.
pub fn no_source_fault()
    ensures { NoSourceFault }
{}

/// An input that broke off isn't run as if it were whole.
pub fn no_broken_input()
    ensures { NoBrokenInput }
{}

/// A statement that was closed isn't executed.
pub fn no_closed_execution()
    ensures { NoClosedExecution }
{}

/// Nor is a statement under a number that none took yet.
pub fn no_ungiven_execution()
    ensures { NoUngivenExecution }
{}

/// A transaction that was given up isn't rolled back by a step of its own.
pub fn no_forgotten_rollback()
    ensures { NoForgottenRollback }
{}

/// Where memory ran out each link was sent what a connection sent whose calls are read, but for the links of one number.
pub fn sent_at_stop()
    ensures { SentAtStop }
{}

/// Nor is a link dialed there that no step names.
pub fn no_secret_at_stop()
    ensures { NoSecretAtStop }
{}

/// Memory that runs out in the second step is accepted.
pub fn stopped_in_second()
    ensures { StoppedInSecond }
{}
