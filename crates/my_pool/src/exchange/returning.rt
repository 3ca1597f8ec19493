//! The events of a connection that comes back.

ghost use Rattle.std.specs.Prelude.{◌≡◌, ◌≤◌, ◌<◌, true, is_some, length};
ghost use Rattle.my_pool_store.specs.Shelves.{numbered, with_left};
ghost use Rattle.my_pool.specs.Pools.{tape_of};

use super::Exchange;
use crate::boxed::BoxedConn;
use crate::facts::facts_at;
use crate::out::Out;
use my_client::Tape;
use my_pool_core::{PoolEvent, Verdict};
use my_pool_store::{Journal, Shelf, Wake, numbered};

// A connection that is counted no more, where there is one: its tape is kept, where it has one.
fn bury<L: Drop>(gone: &mut Shelf<Tape>, number: u64, conn: Option<BoxedConn<L>>)
    requires { is_some conn ≡ true → length gone.old.kept < gone.old.room }
    ensures kept { gone.new.kept ≡ with_left (numbered number (tape_of conn)) gone.old.kept }
    ensures room { gone.old.room ≤ gone.new.room }
{
    match conn {
        Some(conn) => {
            let mut conn = conn;
            let tape = conn.take_tape();
            drop(conn);
            gone.put_left(numbered(number, tape));
        }
        None => {}
    }
}

impl<L: Drop, J: Journal, W: Wake> Exchange<L, J, W> {
    ghost use Rattle.std.specs.Prelude.{[], ◌∷◌, ◌++◌, IfSome};
    ghost use Rattle.my_pool_core.specs.declared.event.PoolEvent.TheVariants as events;
    ghost use Rattle.my_pool_core.specs.declared.event.Answer.TheVariants as answers;
    ghost use Rattle.my_pool_core.specs.Counted.{due};
    ghost use Rattle.my_pool_core.specs.Owners.{is_lease};
    ghost use Rattle.my_pool.specs.Fit.{IsStill, facts_of};
    ghost use Rattle.my_pool_store.specs.Shelves.{entry, put_by};
    ghost use Rattle.my_pool.specs.Pools.{Made, MadeWith, left_of, IsCalled, TakenOut, HandedStill, number_of, IsCleaned, IsDone};

    /// A leased connection comes back.
    pub fn give_back(&mut self, number: u64, conn: BoxedConn<L>)
        requires leased { is_lease number self.old.state ≡ true }
        requires still { IsStill conn }
        ensures made { Made (events.GiveBack number) answers.Done self.old self.new }
        ensures called { IsCalled self.old self.new }
        ensures kept { self.new.kept ≡ self.old.kept ++ entry number conn ∷ [] }
    {
        self.core.give_back(number);
        self.journal.note(PoolEvent::GiveBack { conn: number });
        self.shelf.put(number, conn);
    }

    /// The next connection to be cleaned is handed out.
    pub fn take_returned(&mut self) -> Option<Out<L>>
        ensures made { Made events.TakeReturned (answers.Returned (number_of result)) self.old self.new }
        ensures called { IsCalled self.old self.new }
        ensures kept { TakenOut result self.old.kept self.new.kept }
        ensures handed { HandedStill result self.new }
        ensures fewer { IfSome result (λ _. due self.new.state < due self.old.state) }
    {
        let next = self.core.take_returned();
        self.journal.note(PoolEvent::TakeReturned);
        match next {
            Some(number) => {
                let Some(conn) = self.shelf.take(number) else {
                    unreachable!()
                };
                Some(Out { number, conn })
            }
            None => None,
        }
    }

    /// What is to be done with a connection that is being cleaned, by its facts: it is kept, or is counted no more, and
    /// then its tape is kept.
    pub fn decide(&mut self, out: Out<L>, now: u64) -> Verdict
        requires cleaned { IsCleaned out.number self.old }
        requires still { IsStill out.conn }
        ensures made { MadeWith (left_of result out) (events.Decide out.number (facts_of now out.conn) now)
            (answers.Verdict result) self.old self.new }
        ensures called { IsCalled self.old self.new }
        ensures kept { self.new.kept ≡ put_by result out self.old.kept }
    {
        let Out { number, conn } = out;
        let facts = facts_at(&conn, now);
        let oldest = self.core.oldest_waiting();
        let verdict = self.core.decide(number, facts, now);
        self.journal.note(PoolEvent::Decide {
            conn: number,
            facts,
            now,
        });
        let rest = self.shelf.put_by(verdict, number, conn);
        bury(&mut self.gone, number, rest);
        self.wakers.call_at(oldest, &self.core);
        verdict
    }

    /// A cleaning that failed, a reset or a close came to its end: the connection is kept, or is counted no more, and
    /// then its tape is kept. One whose reset ended well is fit.
    pub fn done(&mut self, out: Out<L>, ok: bool, now: u64) -> Verdict
        requires done { IsDone ok out self.old }
        requires still { IsStill out.conn }
        ensures made { MadeWith (left_of result out) (events.Done out.number ok (facts_of now out.conn) now)
            (answers.Verdict result) self.old self.new }
        ensures called { IsCalled self.old self.new }
        ensures kept { self.new.kept ≡ put_by result out self.old.kept }
    {
        let Out { number, conn } = out;
        let facts = facts_at(&conn, now);
        let oldest = self.core.oldest_waiting();
        let verdict = self.core.done(number, ok, facts, now);
        self.journal.note(PoolEvent::Done {
            conn: number,
            ok,
            facts,
            now,
        });
        let rest = self.shelf.put_by(verdict, number, conn);
        bury(&mut self.gone, number, rest);
        self.wakers.call_at(oldest, &self.core);
        verdict
    }
}
