//! The lines of a transcript, by a link's plan.

ghost use Rattle.my_run_judge.specs.Plan.Lines.{LinkFound};

use crate::judging::Found;
use crate::plan::left::Left;
use my_script::StepAnswer;

/// What is found at the link with this number, of which this is left before the first line.
pub fn judge_link(number: u64, first: Left, answers: &[StepAnswer]) -> Found
    ensures { LinkFound number 0 first answers.now result }
{
    let mut now = first;
    let mut left = answers;
    let mut index = 0;
    'answers: while let Some((answer, later)) = left.split_first() {
        if !now.meets(number, answer.uses.as_slice()) {
            return Found::Wrong(index);
        }
        index += 1;
        left = later;
    }
    if now.others == 0 {
        Found::Right
    } else {
        Found::Wrong(index)
    }
}
