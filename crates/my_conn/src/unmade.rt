//! What is left of a connection that wasn't made.
ghost use Rattle.std.specs.Prelude.{◌≡◌};

use my_client::Tape;
use my_reading::Error;

/// What is left of a connection that wasn't made.
#[derive(Drop)]
pub struct Unmade<L> {
    /// Why it wasn't made.
    pub error: Error,
    /// Its link, for its caller to let go.
    pub link: L,
    /// What was done on the link, where a tape was kept. Out of memory there is none.
    pub tape: Option<Tape>,
}

impl<L> Unmade<L> {
    ghost use Rattle.my_conn.specs.News.{untaped};

    // Where no tape is kept.
    pub(crate) fn untaped(error: Error, link: L) -> Unmade<L>
        ensures { result ≡ untaped error link }
    {
        Unmade {
            error,
            link,
            tape: None,
        }
    }
}

impl<L: Drop> Unmade<L> {
    /// Why it wasn't made. What is left of it is let go.
    pub fn into_error(self) -> Error
        ensures { result ≡ self.error }
    {
        let Unmade { error, link, tape } = self;
        drop(link);
        drop(tape);
        error
    }
}
