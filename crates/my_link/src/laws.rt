//! What holds of each use of a link.
ghost use Rattle.my_link.specs.Spent.{UsesSpend};

/// Over a link that tells its plan, the bytes that were received and those that are left are the planned ones, each fault
/// is a planned one, and the bytes that it was sent are those that it got.
pub fn uses_spend()
    ensures { UsesSpend }
{}
