//! Aims of connections' open calls, as they follow from the lines of a run.
ghost use Rattle.std.specs.Prelude.{◌≡◌};
ghost use Rattle.my_script.specs.Aims.{aim_after};

use crate::Step;

/// What a step reads, once the rest of a set that a stream took is passed over.
#[derive(Clone, Copy, PartialEq, Eq)]
pub enum Aim {
    /// A stream takes the next set.
    Take,
    /// One row of the next set.
    Row,
    /// All rows of the next set.
    Rows,
}

/// What a step makes of the aim at the number that it names, where the step isn't refused.
pub fn aim_after(aim: Aim, step: &Step) -> Aim
    ensures { result ≡ aim_after aim step.now }
{
    match step {
        Step::Stream(_) => Aim::Take,
        Step::Collect(_) => Aim::Rows,
        Step::Poll(_) => aim,
        _ => Aim::Row,
    }
}
