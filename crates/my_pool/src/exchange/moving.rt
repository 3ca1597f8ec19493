//! A connection that is being cleaned, reset or closed is moved out for its call, and back. These are no events.

use super::Exchange;
use crate::out::Out;
use my_pool_store::{Journal, Wake};

impl<L, J: Journal, W: Wake> Exchange<L, J, W> {
    ghost use Rattle.std.specs.Prelude.{◌≡◌, true, [], ◌∷◌, ◌++◌};
    ghost use Rattle.my_pool_core.specs.Owners.{is_working};
    ghost use Rattle.my_pool.specs.Pools.{Same, TakenAt, Handed, IsOut};

    /// It is moved out, unless it is already.
    pub fn take_out(&mut self, number: u64) -> Option<Out<L>>
        requires { is_working number self.old.state ≡ true }
        ensures same { Same self.old self.new }
        ensures kept { TakenAt number result self.old.kept self.new.kept }
        ensures handed { Handed number result self.new }
    {
        let Some(conn) = self.shelf.take(number) else {
            return None;
        };
        Some(Out { number, conn })
    }

    /// It is moved back.
    pub fn put_back(&mut self, out: Out<L>)
        requires { IsOut out self.old }
        ensures same { Same self.old self.new }
        ensures kept { self.new.kept ≡ self.old.kept ++ out ∷ [] }
    {
        let Out { number, conn } = out;
        self.shelf.put(number, conn);
    }
}
