//! What follows of the definition of a poll, each law a function's clause: which orders of moves it accepts and refutes, what a poll
//! returns, and that what polls keep is what the reading of the tape says.
#![tactic(auto)]

ghost use Rattle.turn_laws.specs.Decided.{EachCallReturns, EachErrorIsOwn, EachHasCause, EachIsAnswer, EachIsDecided, EachIsReturned, EachStepReturns};
ghost use Rattle.turn_laws.specs.Explained.{BegunIsExplained, CancelledIsExplained, NothingIsExplained, PolledIsExplained, RestIsRead, StandsIsExplained, WaitingIsRead};
ghost use Rattle.turn_laws.specs.Makings.{NoMissedCancel, NoPassedRefusal, NoUnreadResult};
ghost use Rattle.turn_laws.specs.Turns.{NoEarlyLogin, NoEarlyPing, NoFaultOutOfTurn, NoReadingOn, PingInTurn, RightLogin};

/// No poll has one of these: a login that is sent before the greeting was read (`login`), a ping that is sent before the answer to
/// the ROLLBACK in front of it was read (`ping`), a move after the one with which the call returns (`on`), and a fault, an end or a
/// link that isn't ready where the call asks for nothing of that side (`fault`).
pub fn moves_out_of_turn_are_refuted()
    ensures login { NoEarlyLogin }
    ensures ping { NoEarlyPing }
    ensures on { NoReadingOn }
    ensures fault { NoFaultOutOfTurn }
{}

/// These are accepted: a login that awaits its answer, and a ping after a ROLLBACK, each sent after the answer in front of it.
pub fn moves_in_turn_are_accepted()
    ensures login { RightLogin }
    ensures ping { PingInTurn }
{}

/// Polls with the same moves that the link stopped alike return the same (`decided`). Each has its cause, and no other result has that
/// cause (`cause`). Where the call returns by its bytes, the poll returns that (`returned`), and there is a poll's result for whatever
/// the call returns (`answer`).
pub fn polls_are_decided()
    ensures decided { EachIsDecided }
    ensures cause { EachHasCause }
    ensures returned { EachIsReturned }
    ensures answer { EachIsAnswer }
{}

/// No step of the reading (`step`), and so no call (`call`) and no poll (`poll`), returns an error of a URL, of memory, of a dial, or one
/// that is another's.
pub fn errors_are_of_the_reading()
    ensures step { EachStepReturns }
    ensures call { EachCallReturns }
    ensures poll { EachErrorIsOwn }
{}

/// What a connection keeps is what the reading says, with each byte that was sent one of the exchanges: before its first call (`nothing`),
/// as a call begins (`begun`), after each poll (`polled`), and as a call is cancelled (`cancelled`). So each call ended, or is open, as
/// the reading says (`rest`, `waiting`). It is so wherever a session stands for what was kept (`stands`).
pub fn polls_are_explained()
    ensures nothing { NothingIsExplained }
    ensures begun { BegunIsExplained }
    ensures polled { PolledIsExplained }
    ensures cancelled { CancelledIsExplained }
    ensures rest { RestIsRead }
    ensures waiting { WaitingIsRead }
    ensures stands { StandsIsExplained }
{}

/// No making of a connection sends a text before the result of the one in front of it was read (`unread`), or is done where the aid
/// refuses (`refusal`). No call that was cancelled stays open on the tape (`cancel`).
pub fn wrong_makings_are_refuted()
    ensures unread { NoUnreadResult }
    ensures refusal { NoPassedRefusal }
    ensures cancel { NoMissedCancel }
{}
