//! The top call.
ghost use Rattle.std.specs.Prelude.{◌≡◌, ◌&&◌, not, ℕ, [], List, Some, OnErr, OnOk, IfOk, true, map, string_bytes};
ghost use Rattle.std.specs.List.{list_all};
ghost use Rattle.my_script.specs.Script.{may_stand};
ghost use Rattle.my_steps.specs.Dialing.{course_of};
ghost use Rattle.my_link.specs.Plan.{plans_after, chance_after};
ghost use Rattle.my_link.specs.World.{SamePlans};
ghost use Rattle.my_run.specs.Headline.{Headline};
ghost use Rattle.my_run.specs.Stopped.{Stopped};
ghost use Rattle.my_session.specs.Login.{login_of};
ghost use Rattle.my_script.specs.Script.{Good, script_of};
ghost use Rattle.my_frame.specs.Sources.{SourceSeen};
ghost use Rattle.my_script.specs.Text.{text_of};
ghost use Rattle.my_script.specs.Words.{CommandWords, command_of, command_view};
ghost use Rattle.my_run.specs.Tool.{plans_with, course_with, code_of, EndsBy, IsAsked, IsInput, IsReport};

use crate::input::{Came, read_all};
use crate::output::write_all;
use crate::run::run_steps;
use my_frame::{NoMemory, Sink, Source};
use my_link::{World, WorldLine};
use my_opts::Opts;
use my_script::{
    BadLine, Command, Read, Script, Transcript, WordFault, read_command, read_script, read_word,
    text_of,
};
use std::alloc::Global;

/// How a run ended, with its cause.
#[derive(Drop)]
pub enum Status {
    /// All steps were run, and their text was written.
    Done,
    /// The words are no command.
    NoCommand,
    /// This line of the script doesn't read, and none before it.
    Unread(BadLine),
    /// The source failed.
    SourceFailed,
    /// The sink failed.
    SinkFailed,
    /// The second word is refused.
    Refused(WordFault),
    /// The source gave more than it may.
    TooLong,
    NoMemory,
}

impl Status {
    /// The number with which the program ends.
    pub fn code(&self) -> u8
        ensures { result ≡ code_of self.now }
    {
        match self {
            Status::Done => 0,
            Status::NoCommand => 2,
            Status::Unread(_) => 3,
            Status::SourceFailed => 4,
            Status::SinkFailed => 5,
            Status::Refused(_) => 6,
            Status::TooLong => 7,
            Status::NoMemory => 12,
        }
    }
}

/// How a run ended, and what it came to.
#[derive(Drop)]
pub struct Report {
    pub status: Status,
    pub transcript: Transcript,
}

fn blank(alloc: Global, status: Status) -> Report
    ensures status { result.status ≡ status }
    ensures answers { result.transcript.answers.items ≡ [] }
    ensures tapes { result.transcript.tapes.items ≡ [] }
{
    Report {
        status,
        transcript: Transcript {
            answers: Vec::new(alloc),
            tapes: Vec::new(alloc),
        },
    }
}

fn prepare_each<N: World>(world: &mut N, plan: &[WorldLine]) -> Result<(), NoMemory>
    requires { (N.seen world.old).takes ≡ true }
    ensures plans { OnOk result (SamePlans (plans_after plan.now (N.seen world.old).plans) (N.seen world.new).plans) }
    ensures chance { OnOk result ((N.seen world.new).chance ≡ chance_after plan.now (N.seen world.old).chance) }
    ensures takes { (N.seen world.new).takes ≡ (N.seen world.old).takes }
    ensures dials { (N.seen world.new).dials ≡ (N.seen world.old).dials }
    ensures back { (N.seen world.new).back ≡ (N.seen world.old).back }
{
    for line in plan {
        world.prepare(line)?;
    }
    Ok(())
}

// Hands the world the lines of its plan, where the run plans.
fn prepare_all<N: World>(world: &mut N, plans: bool, plan: &[WorldLine]) -> Result<(), NoMemory>
    requires { plans ≡ true → (N.seen world.old).takes ≡ true }
    ensures plans { OnOk result
        (SamePlans (N.seen world.new).plans (plans_with plans plan.now (N.seen world.old).plans)) }
    ensures course { OnOk result
        (course_of (N.seen world.new) ≡ course_with plans plan.now (course_of (N.seen world.old))) }
    ensures dials { (N.seen world.new).dials ≡ (N.seen world.old).dials }
    ensures back { (N.seen world.new).back ≡ (N.seen world.old).back }
    ensures takes { (N.seen world.new).takes ≡ (N.seen world.old).takes }
{
    if plans {
        prepare_each(world, plan)?;
    }
    Ok(())
}

// Prepares the world, runs the steps and makes their text.
fn run_script<N: World>(
    alloc: Global,
    opts: &Opts,
    script: &Script,
    plans: bool,
    world: &mut N,
) -> Result<(Transcript, Vec<u8>), NoMemory>
    requires takes { plans ≡ true → (N.seen world.old).takes ≡ true }
    requires stand { list_all (may_stand plans) script.now.steps.items ≡ true }
    ensures run { IfOk result (λ r. Headline (login_of opts.now)
        (plans_with plans script.now.plan.items (N.seen world.old).plans)
        (course_with plans script.now.plan.items (course_of (N.seen world.old))) (course_of (N.seen world.new))
        script.now.steps.items r.0.answers.items r.0.tapes.items) }
    ensures text { IfOk result (λ r. r.1.items ≡ text_of r.0.answers.items r.0.tapes.items) }
    ensures stopped { OnErr result (Stopped (course_of (N.seen world.new)) (login_of opts.now)
        (plans_with plans script.now.plan.items (N.seen world.old).plans)
        (course_with plans script.now.plan.items (course_of (N.seen world.old))) script.now.steps.items) }
{
    prepare_all(world, plans, &script.plan)?;
    let transcript = run_steps(alloc, opts, world, &script.steps)?;
    let text = text_of(alloc, &transcript)?;
    Ok((transcript, text))
}

fn run_good<W: Sink, N: World>(
    alloc: Global,
    opts: &Opts,
    script: &Script,
    plans: bool,
    out: &mut W,
    world: &mut N,
) -> Report
    requires takes { plans ≡ true → (N.seen world.old).takes ≡ true }
    requires stand { list_all (may_stand plans) script.now.steps.items ≡ true }
    ensures { (words : List (List ℕ)) (s r : SourceSeen)
        → IsInput words (N.seen world.old) s r opts.now plans (Good script.now.plan.items script.now.steps.items)
        → EndsBy words (N.seen world.old) (N.seen world.new) s r (W.seen out.old) (W.seen out.new)
        result.transcript result.status }
{
    match run_script(alloc, opts, script, plans, world) {
        Err(_) => blank(alloc, Status::NoMemory),
        Ok((transcript, text)) => {
            if write_all(out, &text) {
                Report {
                    status: Status::Done,
                    transcript,
                }
            } else {
                Report {
                    status: Status::SinkFailed,
                    transcript,
                }
            }
        }
    }
}

fn run_text<W: Sink, N: World>(
    alloc: Global,
    opts: &Opts,
    bytes: &[u8],
    plans: bool,
    out: &mut W,
    world: &mut N,
) -> Report
    requires { plans ≡ true → (N.seen world.old).takes ≡ true }
    ensures { (words : List (List ℕ)) (s r : SourceSeen)
        → IsInput words (N.seen world.old) s r opts.now plans (script_of plans bytes.now)
        → EndsBy words (N.seen world.old) (N.seen world.new) s r (W.seen out.old) (W.seen out.new)
        result.transcript result.status }
{
    match read_script(alloc, plans, bytes) {
        Err(_) => blank(alloc, Status::NoMemory),
        Ok(Read::Bad(line)) => blank(alloc, Status::Unread(line)),
        Ok(Read::Good(script)) => run_good(alloc, opts, &script, plans, out, world),
    }
}

fn run_input<S: Source, W: Sink, N: World>(
    alloc: Global,
    opts: &Opts,
    src: &mut S,
    plans: bool,
    out: &mut W,
    world: &mut N,
) -> Report
    requires { plans ≡ true → (N.seen world.old).takes ≡ true }
    ensures { (words : List (List ℕ)) (command : CommandWords) → IsAsked words command opts.now
        → plans ≡ (not command.live && (N.seen world.old).takes)
        → EndsBy words (N.seen world.old) (N.seen world.new) (S.seen src.old) (S.seen src.new)
        (W.seen out.old) (W.seen out.new) result.transcript result.status }
{
    match read_all(alloc, src) {
        Err(_) => blank(alloc, Status::NoMemory),
        Ok(Came::Broken) => blank(alloc, Status::SourceFailed),
        Ok(Came::TooLong) => blank(alloc, Status::TooLong),
        Ok(Came::Whole(bytes)) => run_text(alloc, opts, &bytes, plans, out, world),
    }
}

fn run_command<S: Source, W: Sink, N: World>(
    alloc: Global,
    command: Command<'_>,
    src: &mut S,
    out: &mut W,
    world: &mut N,
) -> Report
    ensures { (words : List (List ℕ)) → command_of words ≡ Some (command_view command.entry)
        → EndsBy words (N.seen world.old) (N.seen world.new) (S.seen src.old) (S.seen src.new)
        (W.seen out.old) (W.seen out.new) result.transcript result.status }
{
    let plans = !command.is_live && world.plans();
    match read_word(alloc, command.word) {
        Err(_) => blank(alloc, Status::NoMemory),
        Ok(Err(fault)) => blank(alloc, Status::Refused(fault)),
        Ok(Ok(opts)) => {
            let report = run_input(alloc, &opts, src, plans, out, world);
            drop(opts);
            report
        }
    }
}

/// Runs a command: reads the words and the source, runs the steps over the world, and writes their text to the sink.
/// In `live` the lines of a world and the steps that move it don't read, nor do they over a world that takes no plan.
///
/// The status is the first of these that comes: no command, a word that is refused, a source that fails or has more
/// than 67,108,864 bytes, a line that doesn't read, a sink that fails; out of memory may come at any place. Where a run ends
/// before the first step, and memory didn't run out, the world is left as it was. Where memory ran out in a step each number
/// but its own is what the lines before leave, and each link is handed back.
pub fn run_tool<S: Source, W: Sink, N: World>(
    alloc: Global,
    words: &[String],
    src: &mut S,
    out: &mut W,
    world: &mut N,
) -> Report
    ensures { IsReport (map string_bytes words.now) (N.seen world.old) (N.seen world.new)
        (S.seen src.old) (S.seen src.new) (W.seen out.old) (W.seen out.new) result }
{
    match read_command(words) {
        None => blank(alloc, Status::NoCommand),
        Some(command) => run_command(alloc, command, src, out, world),
    }
}
