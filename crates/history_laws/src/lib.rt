//! What follows of the reading of a tape for its exchanges and for what callers are given, each law a function's clause.
//! No session is named: the laws are of bytes and calls alone.
#![tactic(auto)]

ghost use Rattle.history_laws.specs.Errors.{EachIsHeard, EachIsHeardIn};
ghost use Rattle.history_laws.specs.Found.{EachIsFound};
ghost use Rattle.history_laws.specs.Fronts.{EachIsFronted};
ghost use Rattle.history_laws.specs.Given.{EachTapeGives, PrefixesAreGiven};
ghost use Rattle.history_laws.specs.Lawful.{EachIsLawful};
ghost use Rattle.history_laws.specs.Order.{EachIsOrderly};
ghost use Rattle.history_laws.specs.Owners.{EachIsOwned};
ghost use Rattle.history_laws.specs.Sent.{EachIsSaid, EachIsSent};
ghost use Rattle.history_laws.specs.Settled.{EachIsSettled};
ghost use Rattle.history_laws.specs.Taken.{EachIsSpelled};
ghost use Rattle.history_laws.specs.Tried.{AreTried};

/// What calls returned and passed over of the sets of a response is, set by set, what the response was at some moment.
pub fn prefixes_are_given()
    ensures calls { PrefixesAreGiven }
    ensures tapes { EachTapeGives }
{}

/// Each exchange of a tape is one that the protocol has, and all but the newest are over.
pub fn each_is_orderly()
    ensures { EachIsOrderly }
{}

/// What was received on a connection is what the server sent in its exchanges, one after another, and then bytes that
/// weren't read (`received`). What was sent is a beginning of what the client says in them (`sent`): all of the older
/// ones, and of the newest one where the server answered (`said`).
pub fn bytes_are_of_exchanges()
    ensures received { EachIsSpelled }
    ensures sent { EachIsSent }
    ensures said { EachIsSaid }
{}

/// What calls of a tape returned and passed over is, exchange by exchange and set by set, what was at some moment in
/// the exchanges that the grammar finds in the bytes that were received (`found`): of each set a beginning of its rows,
/// in order, and its end only after the whole (`fronts`).
pub fn callers_are_given_what_is_found()
    ensures found { EachIsFound }
    ensures fronts { EachIsFronted }
{}

/// Callers of a tape got each ERR of its exchanges, or a call passed over it, once and in order, but perhaps the last;
/// not those of exchanges by which a commit that the server refused was rolled back (`read`). So it is of the ERRs that
/// the grammar finds in the bytes that were received (`found`).
pub fn callers_hear_each_error()
    ensures read { EachIsHeard }
    ensures found { EachIsHeardIn }
{}

/// Each exchange of a tape began by the command table, after the exchanges before it, and belongs to a call: one after
/// another to the same call or to the next; an accepted command has one. A connection that was made was set up by all
/// queries that it needs, and each was answered. Where no call is open and the session isn't closed, nothing is left to
/// be sent.
pub fn exchanges_are_of_calls()
    ensures { EachIsOwned }
{}

/// An option that is set holds. Else the server is asked: the last row of the first set of its answer holds, from the
/// end of that set on. A connection that was made knows its settings, and once they are known they stay as they are.
pub fn settings_are_known()
    ensures { EachIsSettled }
{}

/// All this holds of each tape that the reading accepts, of one list of its exchanges and one of its calls.
pub fn each_tape_is_lawful()
    ensures { EachIsLawful }
{}

/// The definitions of these laws accept right values, and refute wrong ones: a call that was answered without an
/// exchange, an exchange of no call, another command, a connection that wasn't set up, an answer to what wasn't sent,
/// another limit.
pub fn wrong_values_are_refuted()
    ensures { AreTried }
{}
