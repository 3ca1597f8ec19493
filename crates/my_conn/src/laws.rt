//! Laws on connections.
ghost use Rattle.my_conn.specs.Sent.{UnmadeAreTaped};

/// The link of a connection that wasn't made was sent exactly what its tape has.
pub fn unmade_are_taped<L>()
    ensures { UnmadeAreTaped L }
{}
