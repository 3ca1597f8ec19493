//! Laws on connecting over a world.
ghost use Rattle.my_connect.specs.Refuted.{DialsAreCounted};

/// Where no dial failed, and each was ready, connecting doesn't return the error of a dial.
pub fn dials_are_counted<L>()
    ensures { DialsAreCounted L }
{}
