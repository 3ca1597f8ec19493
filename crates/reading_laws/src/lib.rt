//! What follows of the reading of a tape, each law a function's clause: which tapes it accepts and refutes, what becomes of
//! prepared statements, and which connections are clean.
#![tactic(auto)]

ghost use Rattle.reading_laws.specs.Batches.{BatchesAreExecutions};
ghost use Rattle.reading_laws.specs.CleanTapes.{AreClean, AreUnclean};
ghost use Rattle.reading_laws.specs.Cleaned.{ChangeRefreshes, CleanedIsClean, CleaningCleans, ConnectedIsClean, ConnectingCleans, DroppedIsClean, DroppingReads, RenewalRefreshes, RenewedIsClean};
ghost use Rattle.reading_laws.specs.Found.{CachedIsReturned, OthersAreAskedFor};
ghost use Rattle.reading_laws.specs.Kept.{OpenAreKept, SettledAreKept, StatementsAreKept};
ghost use Rattle.reading_laws.specs.RightTapes.{AreRight};
ghost use Rattle.reading_laws.specs.WrongTapes.{AreWrong};

/// Each of these tapes is one that a client may have: a query with a row, a lone OK, an earlier error that a query
/// returns, a drop that is cancelled, sets that streams take, settings that the server is asked for, a login with a password;
/// a statement that is prepared, executed, found in the cache and closed, one that has to go for another, and what is refused;
/// batches of two lists of parameters, of none, and of one that doesn't fit; a reset with the queries that follow it, one that
/// an older server isn't asked for, one that the server refuses, and a statement that is prepared anew after one; transactions
/// that begin, are committed, rolled back, given up and refused; a change of user, with a password and without one, with the
/// queries that follow it, and one that the server refuses; what a pool sends to clean a connection and to renew its session.
pub fn right_tapes_are_accepted()
    ensures { AreRight }
{}

/// None of these tapes is one: a row, an end or an error that the bytes don't hold, an answer that comes too early, a
/// command that wasn't sent or is another call's, a set that is taken where none is or passed over in part, bytes on a closed
/// connection; a statement that is prepared twice, returned as another or not closed, a row of an execution that is read as
/// text, values that don't fit and are sent, a batch that is cut short or not read whole; a reset that wasn't sent or answered,
/// that is left out, or whose queries are sent in the other order or in part, and a statement that is found after one; a
/// transaction that was given up and isn't rolled back, or twice or too early, one that begins in another one or is refused for
/// none, queries of one in another order, one that has begun before its last OK, a rollback that sends nothing, and one
/// that is committed though the server refused, or isn't rolled back then; a change to another user, for another nonce, before
/// the OK or without the queries that follow, and a statement that is found after one; a pool that gets the error of what is left,
/// rolls nothing back, or has a session renewed as the server can't, with an older user, or otherwise than by a reset; bytes
/// before the first call or of none, an answer that two calls read, a call after an open one or after the tape's end.
pub fn wrong_tapes_are_refuted()
    ensures { AreWrong }
{}

/// A connection is clean once it is made, once its pool has cleaned it or renewed its session, and once a result was dropped;
/// it isn't while a call is open, rows or a lone OK's end are left, a transaction is open or was given up, nor once it is closed.
/// A call more begins where the tape before it ends.
pub fn clean_tapes_are_told_apart()
    ensures clean { AreClean }
    ensures unclean { AreUnclean }
{}

/// Each statement that a call of a connection prepared is cached, or was closed after it was prepared, or the server's
/// session was reset or got another user since, or the cache keeps none. It is so where each call so far returned with no error (`returned`); where each that was to prepare a
/// statement returned it or was refused, and each that was to close one returned (`cleaned`); and on each connection
/// that is open, unless a call is, or one that was to close a statement ended with an error (`while_open`).
pub fn statements_are_kept()
    ensures returned { StatementsAreKept }
    ensures settled { SettledAreKept }
    ensures while_open { OpenAreKept }
{}

/// A statement that is cached is returned at once, with no exchange and as the one that was used last. Where it isn't
/// cached, the call returns without an error only once an exchange more has begun.
pub fn cached_is_returned_at_once()
    ensures cached { CachedIsReturned }
    ensures others { OthersAreAskedFor }
{}

/// A batch comes to what its executions come to, one call after the other, each with what is left of it dropped, up to the
/// first that doesn't return ready: it stops so, at the same place but for the calls that began its exchanges.
pub fn batches_are_executions()
    ensures { BatchesAreExecutions }
{}

/// A connection is clean where the newest of its calls was a pool's cleaning that returned ready (`clean`): whatever was left
/// of a response or of a transaction, such a cleaning leaves nothing of it (`cleaned`). Where there is no transaction, a
/// pool's renewal that returned ready leaves none either, each response read whole and no statement cached (`renewed`), and
/// so does a change of user (`changed`).
pub fn cleaned_connections_are_clean()
    ensures clean { CleanedIsClean }
    ensures cleaned { CleaningCleans }
    ensures renewed { RenewalRefreshes }
    ensures changed { ChangeRefreshes }
{}

/// A connection is clean where the newest of its calls was a connect call that returned ready (`made`), and where it was a
/// drop of a result's rest that returned ready, and there is no transaction (`dropped`). One that was clean is clean after
/// a renewal that returned ready (`renewed`). For the first two: where there is no transaction, connecting leaves none and
/// each response read whole (`connecting`), and a drop leaves each read whole (`dropping`).
pub fn newest_call_leaves_clean()
    ensures made { ConnectedIsClean }
    ensures dropped { DroppedIsClean }
    ensures renewed { RenewedIsClean }
    ensures connecting { ConnectingCleans }
    ensures dropping { DroppingReads }
{}
