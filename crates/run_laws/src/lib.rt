//! What follows of the headline, each law a function's clause: how tapes are read, which transcripts no run has, what
//! the judges of transcripts and of plans find of a run, and what a transcript's text says of it.
#![tactic(auto)]

ghost use Rattle.my_run.specs.Fits.{LinksFit};
ghost use Rattle.run_laws.specs.Accepts.{EachRefusalRefutes, EachRunIsRight};
ghost use Rattle.run_laws.specs.Planned.{EachPlannedRefusalRefutes, EachPlannedRunIsRight, MemoryTells};
ghost use Rattle.run_laws.specs.Tapes.{EachTapeIsLawful, EachTapeIsRead};
ghost use Rattle.run_laws.specs.Texts.{OneTextOneTranscript};
ghost use Rattle.run_laws.specs.WrongStatements.{AreNoStatements};
ghost use Rattle.run_laws.specs.WrongStreams.{AreNoStreams};
ghost use Rattle.run_laws.specs.WrongTranscripts.{AreWrong};
ghost use Rattle.run_laws.specs.Written.{ReadsAsItself};

/// After each line of a run each connection's tape is one of a client that logs in so, by the reading of my_reading:
/// so the tapes that a transcript prints are beginnings of conversations that begin with one handshake. The calls of
/// each stand in order: the first one begins with the first bytes, no other one before the one that precedes it or
/// after the tape's end, and only the newest may be open.
pub fn each_tape_is_read()
    ensures { EachTapeIsRead }
{}

/// So each of them is lawful: its exchanges began by the command table and are of its calls, what was sent and received
/// is theirs, a connection that was made was set up, and callers were given what the grammar finds in the bytes that
/// were received, with each error.
pub fn each_tape_is_lawful()
    ensures { EachTapeIsLawful }
{}

/// After each line of a run each link fits its connection: one that shows the bytes that it was sent was sent those
/// of the tape, what is left of a plan for reads follows the bytes that the tape received, and a dial that isn't
/// ready waited as often as the plan says.
pub fn each_link_fits()
    ensures { LinksFit }
{}

/// No run has one of these transcripts: a row, an end or an error that the bytes don't hold, an answer that comes too
/// early, a step that stays pending though its answer was received, a command that wasn't sent or is another call's,
/// a reset for which nothing was sent, a transaction that isn't begun as its options say, that was given up and isn't
/// rolled back before the next command, or that is committed though the server refused, bytes on a closed connection,
/// a statement that has another number of parameters than the server said, or that is prepared again though it is
/// cached.
pub fn no_transcript_is_wrong()
    ensures { AreWrong }
{}

/// No run has one of these: an item that shows a row of the next set, a stream and a `next` that don't pass over the
/// rest of the set that an earlier stream took, and an item that is refused, though its stream is there.
pub fn no_stream_is_wrong()
    ensures { AreNoStreams }
{}

/// No run has one of these: a statement that was closed is executed, and a row of an execution is read as text.
pub fn no_statement_is_wrong()
    ensures { AreNoStatements }
{}

/// The transcript of each run is right by `my_run_judge`: its lines at each number, and its tapes. So the judge refuses
/// nothing that a run prints.
pub fn each_run_is_right()
    ensures { EachRunIsRight }
{}

/// A transcript of which the judge finds a wrong line is one of no run, over whatever links: the theorem on runs is
/// false of it.
pub fn each_refusal_refutes()
    ensures { EachRefusalRefutes }
{}

/// The transcript of each run over a world that told a plan of these lines is right by `my_run_judge`, and keeps to the
/// plan. So the judge refuses nothing that such a run prints.
pub fn each_planned_run_is_right()
    ensures { EachPlannedRunIsRight }
{}

/// A transcript of which the judge finds a wrong line is one of no run over a world that told a plan of these lines:
/// the theorem on runs is false of it.
pub fn each_planned_refusal_refutes()
    ensures { EachPlannedRefusalRefutes }
{}

/// A world in memory that had no items tells the plan of the lines that it was handed.
pub fn memory_tells()
    ensures { MemoryTells }
{}

/// Two transcripts with one text have the same answers, each with its number and its text, and the same tapes, each
/// with its number and the bytes of both sides. The text of no answer has a line feed: of an error that a server sent
/// the state is printed as it came, so that one with a line feed would break its line.
pub fn one_text_one_transcript()
    ensures { OneTextOneTranscript }
{}

/// A value that is printed reads as itself, where a script has it as a parameter.
pub fn written_values_read()
    ensures { ReadsAsItself }
{}
