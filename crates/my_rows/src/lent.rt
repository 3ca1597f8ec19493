//! A holder that is lent.
ghost use Rattle.std.specs.Prelude.{◌≡◌};

use crate::calls::Calls;
use my_conn::{Conn, NextAnswer};
use my_frame::Blob;
use my_opts_parts::TxOpts;
use my_params::Params;
use my_reading::Error;
use my_statements::Statement;
use std::alloc::Global;

/// A holder that is lent: its calls are that holder's.
#[derive(Drop)]
pub struct Lent<'a, C> {
    pub holder: &'a mut C,
}

impl<'a, C> Lent<'a, C> {
    /// Lends the holder until this is let go.
    pub fn new(holder: &'a mut C) -> Lent<'a, C>
        ensures same { result.holder.ghost_name ≡ holder.entry.ghost_name }
        ensures value { result.holder.now ≡ holder.old }
    {
        Lent { holder }
    }
}

impl<'a, C: Calls> Calls for Lent<'a, C> {
    ghost use Rattle.std.specs.Prelude.{◌∷◌};

    type L = C::L;

    ghost conn_of = { λ l. C.conn_of l.holder.now };

    ghost loans_of = { λ l. l.holder.ghost_name ∷ C.loans_of l.holder.now };

    fn conn(&self) -> &Conn<C::L> {
        self.holder.conn()
    }

    fn send_ping(&mut self, alloc: Global) -> Result<(), Error> {
        self.holder.send_ping(alloc)
    }

    fn send_prepare(&mut self, alloc: Global, query: Blob) -> Result<Statement, Error> {
        self.holder.send_prepare(alloc, query)
    }

    fn send_close(&mut self, alloc: Global, statement: Statement) -> Result<(), Error> {
        self.holder.send_close(alloc, statement)
    }

    fn send_query(&mut self, alloc: Global, query: Blob) -> Result<(), Error> {
        self.holder.send_query(alloc, query)
    }

    fn send_execution(
        &mut self,
        alloc: Global,
        statement: Statement,
        params: Params,
    ) -> Result<(), Error> {
        self.holder.send_execution(alloc, statement, params)
    }

    fn send_batch(
        &mut self,
        alloc: Global,
        statement: Statement,
        lists: Vec<Params>,
    ) -> Result<(), Error> {
        self.holder.send_batch(alloc, statement, lists)
    }

    fn next_row(&mut self, alloc: Global) -> Result<NextAnswer, Error> {
        self.holder.next_row(alloc)
    }

    fn take_set(&mut self, alloc: Global) -> Result<bool, Error> {
        self.holder.take_set(alloc)
    }

    fn drop_rest(&mut self, alloc: Global) -> Result<(), Error> {
        self.holder.drop_rest(alloc)
    }

    fn send_begin(&mut self, alloc: Global, opts: TxOpts) -> Result<(), Error> {
        self.holder.send_begin(alloc, opts)
    }

    fn send_commit(&mut self, alloc: Global) -> Result<(), Error> {
        self.holder.send_commit(alloc)
    }

    fn send_rollback(&mut self, alloc: Global) -> Result<(), Error> {
        self.holder.send_rollback(alloc)
    }
}
