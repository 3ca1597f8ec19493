//! Queries that are made of a text, or of a statement and its parameters, and then run at a holder.
ghost use Rattle.std.specs.Prelude.{◌≡◌, None, IfOk};

use crate::first::take_first;
use crate::starts::{QueryWithParams, Starts};
use my_params::Params;
use my_reading::Error;
use my_results::{BinaryProtocol, QueryResult, ResultSetStream, TextProtocol};
use my_rows::{
    AsQuery, Calls, Lent, QueryError, StatementLike, collect_answer, drop_answer, execute_each,
    first_of_answer, fold_answer, map_answer,
};
use my_value::FromRow;
use std::alloc::Global;
use std::marker::PhantomData;

/// A text, or a statement and its parameters, that is run at a holder. None of its calls may be made while a call
/// that was polled is open.
pub trait Query: Starts {
    ghost use Rattle.my_rows.specs.Answers.{AnswerIs, NothingIs};
    ghost use Rattle.my_rows.specs.Calls.{CollectsFirst, FoldsFirst, MapsFirst};
    ghost use Rattle.my_rows.specs.Reads.{ItemIs};
    ghost use Rattle.my_results.specs.Results.{BegunIs};
    ghost use Rattle.my_query.specs.Starts.{StartIs};
    ghost use Rattle.my_query.specs.Streams.{BegunStreamIs};
    ghost use Rattle.my_query.specs.Taken.{TakesFirst};

    /// The protocol of its rows.
    type Protocol;

    /// Sends it, and returns its result: its rows are still to be read. Of the holder after an error this says
    /// nothing; `start` and then `QueryResult::of` do.
    fn run<'a, C: Calls>(
        self,
        alloc: Global,
        conn: &'a mut C,
    ) -> Result<QueryResult<Lent<'a, C>, Self::Protocol>, Error>
        requires { (C.conn_of conn.old).pending ≡ None }
        ensures idle { IfOk result (λ r. (C.conn_of r.holder.holder.now).pending ≡ None) }
        ensures loans { IfOk result (λ r. C.loans_of r.holder.holder.now ≡ C.loans_of conn.old) }
        ensures name { IfOk result (λ r. r.holder.holder.ghost_name ≡ conn.entry.ghost_name) }
        ensures begun { BegunIs (λ c. C.conn_of c) (StartIs C.L.looks (Self.start_of self) (C.conn_of conn.old)) result }
    {
        match self.start(alloc, conn) {
            Ok(()) => Ok(QueryResult {
                holder: Lent { holder: conn },
                protocol: PhantomData,
            }),
            Err(error) => Err(error),
        }
    }

    /// What the first row of the first set became. `None`: that set has no row, or there is no set. The rest of the
    /// answer is dropped.
    fn first<T: FromRow + Drop, C: Calls>(
        self,
        alloc: Global,
        conn: &mut C,
    ) -> Result<Option<T>, QueryError>
        requires { (C.conn_of conn.old).pending ≡ None }
        ensures idle { (C.conn_of conn.new).pending ≡ None }
        ensures loans { C.loans_of conn.new ≡ C.loans_of conn.old }
        ensures first { AnswerIs C.L.looks (StartIs C.L.looks (Self.start_of self))
            (ItemIs C.L.looks T.row_converts T.row_becomes) (C.conn_of conn.old) (C.conn_of conn.new) result }
    {
        let begun = self.start(alloc, conn);
        first_of_answer::<T, C>(conn, alloc, begun)
    }

    /// What the rows of the first set became, in order. The rest of the answer is dropped.
    fn fetch<T: FromRow + Drop, C: Calls>(
        self,
        alloc: Global,
        conn: &mut C,
    ) -> Result<Vec<T>, QueryError>
        requires { (C.conn_of conn.old).pending ≡ None }
        ensures idle { (C.conn_of conn.new).pending ≡ None }
        ensures loans { C.loans_of conn.new ≡ C.loans_of conn.old }
        ensures collects { CollectsFirst C.L.looks (StartIs C.L.looks (Self.start_of self))
            T.row_converts T.row_becomes (C.conn_of conn.old) (C.conn_of conn.new) result }
    {
        let begun = self.start(alloc, conn);
        collect_answer::<T, C>(conn, alloc, begun)
    }

    /// What the function makes of each row of the first set, in order. The rest of the answer is dropped.
    fn map<T: FromRow, U: Drop, F: FnMut(T) -> U, C: Calls>(
        self,
        alloc: Global,
        conn: &mut C,
        f: F,
    ) -> Result<Vec<U>, QueryError>
        requires idle { (C.conn_of conn.old).pending ≡ None }
        requires callable { F.IsAlwaysCallable f }
        ensures idle { (C.conn_of conn.new).pending ≡ None }
        ensures loans { C.loans_of conn.new ≡ C.loans_of conn.old }
        ensures maps { MapsFirst C.L.looks (StartIs C.L.looks (Self.start_of self))
            T.row_converts T.row_becomes (λ p x v q. F.step p x v q) f
            (C.conn_of conn.old) (C.conn_of conn.new) result }
    {
        let begun = self.start(alloc, conn);
        map_answer::<T, U, F, C>(conn, alloc, begun, f)
    }

    /// Folds the function over the rows of the first set, in order, from `init`. The rest of the answer is dropped.
    fn reduce<T: FromRow, U: Drop, F: FnMut(U, T) -> U, C: Calls>(
        self,
        alloc: Global,
        conn: &mut C,
        init: U,
        f: F,
    ) -> Result<U, QueryError>
        requires idle { (C.conn_of conn.old).pending ≡ None }
        requires callable { F.IsAlwaysCallable f }
        ensures idle { (C.conn_of conn.new).pending ≡ None }
        ensures loans { C.loans_of conn.new ≡ C.loans_of conn.old }
        ensures folds { FoldsFirst C.L.looks (StartIs C.L.looks (Self.start_of self))
            T.row_converts T.row_becomes (λ p x y v q. F.step p x y v q) init f
            (C.conn_of conn.old) (C.conn_of conn.new) result }
    {
        let begun = self.start(alloc, conn);
        fold_answer::<T, U, F, C>(conn, alloc, begun, init, f)
    }

    /// The rows of the first set of its answer as a stream. Of the holder after an error this says nothing;
    /// `take_first` and then `ResultSetStream::of` do.
    fn stream<'a, T: FromRow, C: Calls>(
        self,
        alloc: Global,
        conn: &'a mut C,
    ) -> Result<ResultSetStream<Lent<'a, C>, T, Self::Protocol>, Error>
        requires { (C.conn_of conn.old).pending ≡ None }
        ensures idle { IfOk result (λ s. (C.conn_of s.result.holder.holder.now).pending ≡ None) }
        ensures loans { IfOk result (λ s. C.loans_of s.result.holder.holder.now ≡ C.loans_of conn.old) }
        ensures name { IfOk result (λ s. s.result.holder.holder.ghost_name ≡ conn.entry.ghost_name) }
        ensures begun { BegunStreamIs (λ c. C.conn_of c)
            (TakesFirst C.L.looks (StartIs C.L.looks (Self.start_of self)) (C.conn_of conn.old)) result }
    {
        match take_first::<Self, C>(conn, alloc, self) {
            Ok(set) => Ok(ResultSetStream {
                result: QueryResult {
                    holder: Lent { holder: conn },
                    protocol: PhantomData,
                },
                set,
                item: PhantomData,
            }),
            Err(error) => Err(error),
        }
    }

    /// Drops its answer.
    fn ignore<C: Calls>(self, alloc: Global, conn: &mut C) -> Result<(), QueryError>
        requires { (C.conn_of conn.old).pending ≡ None }
        ensures idle { (C.conn_of conn.new).pending ≡ None }
        ensures loans { C.loans_of conn.new ≡ C.loans_of conn.old }
        ensures drops { AnswerIs C.L.looks (StartIs C.L.looks (Self.start_of self)) NothingIs
            (C.conn_of conn.old) (C.conn_of conn.new) result }
    {
        let begun = self.start(alloc, conn);
        drop_answer(conn, alloc, begun)
    }
}

impl<Q: AsQuery + Drop> Query for Q {
    type Protocol = TextProtocol;
}

impl<Q: StatementLike + Drop> Query for QueryWithParams<Q, Params> {
    type Protocol = BinaryProtocol;
}

/// A statement that is executed once with each of its parameters.
pub trait BatchQuery: Sized {
    ghost use Rattle.std.specs.Prelude.{List};
    ghost use Rattle.my_params.specs.declared.params.Params.{Params as AnyParams};
    ghost use Rattle.my_rows.specs.Begins.{BatchIs};
    ghost use Rattle.my_rows.specs.declared.statement_like.ToStatementResult.{ToStatementResult};

    /// The statement that it names.
    ghost named_by: { Self → ToStatementResult };

    /// The parameters, in order.
    ghost lists_of: { Self → List AnyParams };

    /// Executes the statement once with each of the parameters, and passes over each result.
    fn batch<C: Calls>(self, alloc: Global, conn: &mut C) -> Result<(), Error>
        requires { (C.conn_of conn.old).pending ≡ None }
        ensures executes { BatchIs C.L.looks (named_by self) (lists_of self)
            (C.conn_of conn.old) (C.conn_of conn.new) result }
        ensures loans { C.loans_of conn.new ≡ C.loans_of conn.old };
}

impl<Q: StatementLike + Drop> BatchQuery for QueryWithParams<Q, Vec<Params>> {
    ghost named_by = { λ q. Q.like_of q.query };

    ghost lists_of = { λ q. q.params.items };

    fn batch<C: Calls>(self, alloc: Global, conn: &mut C) -> Result<(), Error> {
        let QueryWithParams { query, params } = self;
        execute_each::<Q, C>(conn, alloc, &query, params)
    }
}
