//! A line of a script, as it was read.

use crate::Step;
use my_link::WorldLine;

/// What a line says.
#[derive(Drop)]
pub enum Item {
    /// It is empty or a remark.
    Nothing,
    Plans(WorldLine),
    Steps(Step),
    /// It doesn't read.
    Wrong,
}
