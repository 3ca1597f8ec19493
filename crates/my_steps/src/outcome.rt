//! What a step came to.
ghost use Rattle.std.specs.Prelude.{◌≡◌, ◌∷◌, ◌++◌, [], IfOk, OnOk};
ghost use Rattle.my_steps.specs.Grows.{answer_shown as answer_of, shown as shown_of};

use my_client::After;
use my_frame::NoMemory;
use my_reading::Answer;
use my_script::{Outcome, Use};
use std::alloc::Global;

/// What a step came to, with one use for each poll and dial that it made.
#[derive(Drop)]
pub struct StepResult {
    pub outcome: Outcome,
    pub uses: Vec<Use>,
}

fn answer_shown(answer: Answer) -> Outcome
    ensures { result ≡ answer_of answer }
{
    match answer {
        Answer::Ready => Outcome::Done,
        Answer::Row(row) => Outcome::Row(row),
        Answer::SetEnd => Outcome::SetEnd,
        Answer::NoSet => Outcome::NoSet,
        Answer::Stmt(statement) => Outcome::Prepared(statement),
        Answer::Flag(flag) => Outcome::Flag(flag),
    }
}

/// What a step of one call shows of its poll.
pub(crate) fn shown(after: After) -> Outcome
    ensures { result ≡ shown_of after }
{
    match after {
        After::Pending => Outcome::Pending,
        After::Answered(answer) => answer_shown(answer),
        After::Failed(error) => Outcome::Failed(error),
    }
}

/// A step that did nothing outside.
pub(crate) fn unused(alloc: Global, outcome: Outcome) -> StepResult
    ensures outcome { result.outcome ≡ outcome }
    ensures uses { result.uses.items ≡ [] }
{
    StepResult {
        outcome,
        uses: Vec::new(alloc),
    }
}

/// A step that made one poll or dial.
pub(crate) fn used_once(alloc: Global, outcome: Outcome, used: Use) -> Result<StepResult, NoMemory>
    ensures outcome { IfOk result (λ d. d.outcome ≡ outcome) }
    ensures uses { IfOk result (λ d. d.uses.items ≡ used ∷ []) }
{
    let mut uses = Vec::new(alloc);
    match uses.push(used) {
        Ok(()) => Ok(StepResult { outcome, uses }),
        Err(error) => {
            drop(outcome);
            Err(error.into())
        }
    }
}

fn push_both(uses: &mut Vec<Use>, first: Use, second: Use) -> Result<(), NoMemory>
    ensures { OnOk result (uses.new.items ≡ (uses.old.items ++ first ∷ []) ++ second ∷ []) }
{
    uses.push(first)?;
    uses.push(second)?;
    Ok(())
}

/// A step that made a dial and a poll.
pub(crate) fn used_twice(
    alloc: Global,
    outcome: Outcome,
    first: Use,
    second: Use,
) -> Result<StepResult, NoMemory>
    ensures outcome { IfOk result (λ d. d.outcome ≡ outcome) }
    ensures uses { IfOk result (λ d. d.uses.items ≡ first ∷ second ∷ []) }
{
    let mut uses = Vec::new(alloc);
    match push_both(&mut uses, first, second) {
        Ok(()) => Ok(StepResult { outcome, uses }),
        Err(error) => {
            drop(outcome);
            Err(error)
        }
    }
}
