//! Rows in one call.
ghost use Rattle.std.specs.Prelude.{◌≡◌, None, IfOk};
ghost use Rattle.my_reading.specs.declared.call.Call.TheVariants as calls;
ghost use Rattle.my_reading.specs.declared.call.CallKind.TheVariants as kinds;

use crate::queries::Query;
use crate::starts::QueryWithParams;
use my_params::Params;
use my_reading::Error;
use my_results::{BinaryProtocol, QueryResult, ResultSetStream, TextProtocol};
use my_rows::{
    AsQuery, Calls, Lent, QueryError, StatementLike, collect_answer, drop_answer, execute,
    execute_each, first_of_answer, fold_answer, map_answer, prepare_text, send_text,
};
use my_statements::Statement;
use my_value::FromRow;
use std::alloc::Global;
use std::marker::PhantomData;

/// The calls of what holds a connection. Most begin an answer, read what they need of the first set, and drop the rest:
/// the first of these that fails is the last, and its error is returned. A call that gives a result or a stream lends
/// it the holder. None may be made while a call that was polled is open, and none is open afterwards.
pub trait Queryable: Calls {
    ghost use Rattle.my_rows.specs.Answers.{AnswerIs, NothingIs};
    ghost use Rattle.my_rows.specs.Calls.{CollectsFirst, FoldsFirst, MapsFirst};
    ghost use Rattle.my_rows.specs.Reads.{ItemIs};
    ghost use Rattle.my_rows.specs.Begins.{BatchIs, ExecuteIs, QueryIs, StatementIs};
    ghost use Rattle.my_rows.specs.declared.statement_like.ToStatementResult.TheVariants as likes;
    ghost use Rattle.my_conn.specs.Drives.{DoneIs};
    ghost use Rattle.my_results.specs.Results.{BegunIs};
    ghost use Rattle.my_query.specs.Streams.{BegunStreamIs};
    ghost use Rattle.my_query.specs.Taken.{TakesFirst};

    /// Sends a query, and returns what the rows of the first set became, in order. The rest of the answer is dropped.
    ///
    /// A row that doesn't convert ends it: that row is in the error, and the rest of the answer is still to be read.
    fn query<T: FromRow + Drop, Q: AsQuery>(
        &mut self,
        alloc: Global,
        query: &Q,
    ) -> Result<Vec<T>, QueryError>
        requires { (Self.conn_of self.old).pending ≡ None }
        ensures idle { (Self.conn_of self.new).pending ≡ None }
        ensures loans { Self.loans_of self.new ≡ Self.loans_of self.old }
        ensures collects { CollectsFirst Self.L.looks (QueryIs Self.L.looks (Q.text_of query.now))
            T.row_converts T.row_becomes
            (Self.conn_of self.old) (Self.conn_of self.new) result }
    {
        let begun = send_text::<Q, Self>(self, alloc, query);
        collect_answer::<T, Self>(self, alloc, begun)
    }

    /// Sends a query, and returns what the first row of the first set became. `None`: that set has no row, or there
    /// is no set. The rest of the answer is dropped.
    fn query_first<T: FromRow + Drop, Q: AsQuery>(
        &mut self,
        alloc: Global,
        query: &Q,
    ) -> Result<Option<T>, QueryError>
        requires { (Self.conn_of self.old).pending ≡ None }
        ensures idle { (Self.conn_of self.new).pending ≡ None }
        ensures loans { Self.loans_of self.new ≡ Self.loans_of self.old }
        ensures first { AnswerIs Self.L.looks (QueryIs Self.L.looks (Q.text_of query.now))
            (ItemIs Self.L.looks T.row_converts T.row_becomes)
            (Self.conn_of self.old) (Self.conn_of self.new) result }
    {
        let begun = send_text::<Q, Self>(self, alloc, query);
        first_of_answer::<T, Self>(self, alloc, begun)
    }

    /// Sends a query, and returns what the function makes of each row of the first set, in order. The rest of the
    /// answer is dropped.
    ///
    /// A row that doesn't convert ends it, as in `query`.
    fn query_map<T: FromRow, Q: AsQuery, U: Drop, F: FnMut(T) -> U>(
        &mut self,
        alloc: Global,
        query: &Q,
        f: F,
    ) -> Result<Vec<U>, QueryError>
        requires idle { (Self.conn_of self.old).pending ≡ None }
        requires callable { F.IsAlwaysCallable f }
        ensures idle { (Self.conn_of self.new).pending ≡ None }
        ensures loans { Self.loans_of self.new ≡ Self.loans_of self.old }
        ensures maps { MapsFirst Self.L.looks (QueryIs Self.L.looks (Q.text_of query.now))
            T.row_converts T.row_becomes (λ p x v q. F.step p x v q) f
            (Self.conn_of self.old) (Self.conn_of self.new) result }
    {
        let begun = send_text::<Q, Self>(self, alloc, query);
        map_answer::<T, U, F, Self>(self, alloc, begun, f)
    }

    /// Sends a query, and folds the function over the rows of the first set, in order, from `init`. The rest of the
    /// answer is dropped.
    ///
    /// A row that doesn't convert ends it, as in `query`.
    fn query_fold<T: FromRow, Q: AsQuery, U: Drop, F: FnMut(U, T) -> U>(
        &mut self,
        alloc: Global,
        query: &Q,
        init: U,
        f: F,
    ) -> Result<U, QueryError>
        requires idle { (Self.conn_of self.old).pending ≡ None }
        requires callable { F.IsAlwaysCallable f }
        ensures idle { (Self.conn_of self.new).pending ≡ None }
        ensures loans { Self.loans_of self.new ≡ Self.loans_of self.old }
        ensures folds { FoldsFirst Self.L.looks (QueryIs Self.L.looks (Q.text_of query.now))
            T.row_converts T.row_becomes (λ p x y v q. F.step p x y v q) init f
            (Self.conn_of self.old) (Self.conn_of self.new) result }
    {
        let begun = send_text::<Q, Self>(self, alloc, query);
        fold_answer::<T, U, F, Self>(self, alloc, begun, init, f)
    }

    /// Sends a query, and drops the answer.
    fn query_drop<Q: AsQuery>(&mut self, alloc: Global, query: &Q) -> Result<(), QueryError>
        requires { (Self.conn_of self.old).pending ≡ None }
        ensures idle { (Self.conn_of self.new).pending ≡ None }
        ensures loans { Self.loans_of self.new ≡ Self.loans_of self.old }
        ensures drops { AnswerIs Self.L.looks (QueryIs Self.L.looks (Q.text_of query.now)) NothingIs
            (Self.conn_of self.old) (Self.conn_of self.new) result }
    {
        let begun = send_text::<Q, Self>(self, alloc, query);
        drop_answer(self, alloc, begun)
    }

    /// Executes the statement that is named with these parameters, and returns what the rows of the first set became,
    /// in order. The rest of the answer is dropped.
    ///
    /// A row that doesn't convert ends it: that row is in the error, and the rest of the answer is still to be read.
    fn exec<T: FromRow + Drop, S: StatementLike>(
        &mut self,
        alloc: Global,
        stmt: &S,
        params: Params,
    ) -> Result<Vec<T>, QueryError>
        requires { (Self.conn_of self.old).pending ≡ None }
        ensures idle { (Self.conn_of self.new).pending ≡ None }
        ensures loans { Self.loans_of self.new ≡ Self.loans_of self.old }
        ensures collects { CollectsFirst Self.L.looks (ExecuteIs Self.L.looks (S.like_of stmt.now) params)
            T.row_converts T.row_becomes
            (Self.conn_of self.old) (Self.conn_of self.new) result }
    {
        let begun = execute::<S, Self>(self, alloc, stmt, params);
        collect_answer::<T, Self>(self, alloc, begun)
    }

    /// Executes the statement that is named with these parameters, and returns what the first row of the first set
    /// became. `None`: that set has no row, or there is no set. The rest of the answer is dropped.
    fn exec_first<T: FromRow + Drop, S: StatementLike>(
        &mut self,
        alloc: Global,
        stmt: &S,
        params: Params,
    ) -> Result<Option<T>, QueryError>
        requires { (Self.conn_of self.old).pending ≡ None }
        ensures idle { (Self.conn_of self.new).pending ≡ None }
        ensures loans { Self.loans_of self.new ≡ Self.loans_of self.old }
        ensures first { AnswerIs Self.L.looks (ExecuteIs Self.L.looks (S.like_of stmt.now) params)
            (ItemIs Self.L.looks T.row_converts T.row_becomes)
            (Self.conn_of self.old) (Self.conn_of self.new) result }
    {
        let begun = execute::<S, Self>(self, alloc, stmt, params);
        first_of_answer::<T, Self>(self, alloc, begun)
    }

    /// Executes the statement that is named with these parameters, and returns what the function makes of each row of
    /// the first set, in order. The rest of the answer is dropped.
    ///
    /// A row that doesn't convert ends it, as in `exec`.
    fn exec_map<T: FromRow, S: StatementLike, U: Drop, F: FnMut(T) -> U>(
        &mut self,
        alloc: Global,
        stmt: &S,
        params: Params,
        f: F,
    ) -> Result<Vec<U>, QueryError>
        requires idle { (Self.conn_of self.old).pending ≡ None }
        requires callable { F.IsAlwaysCallable f }
        ensures idle { (Self.conn_of self.new).pending ≡ None }
        ensures loans { Self.loans_of self.new ≡ Self.loans_of self.old }
        ensures maps { MapsFirst Self.L.looks (ExecuteIs Self.L.looks (S.like_of stmt.now) params)
            T.row_converts T.row_becomes (λ p x v q. F.step p x v q) f
            (Self.conn_of self.old) (Self.conn_of self.new) result }
    {
        let begun = execute::<S, Self>(self, alloc, stmt, params);
        map_answer::<T, U, F, Self>(self, alloc, begun, f)
    }

    /// Executes the statement that is named with these parameters, and folds the function over the rows of the first
    /// set, in order, from `init`. The rest of the answer is dropped.
    ///
    /// A row that doesn't convert ends it, as in `exec`.
    fn exec_fold<T: FromRow, S: StatementLike, U: Drop, F: FnMut(U, T) -> U>(
        &mut self,
        alloc: Global,
        stmt: &S,
        params: Params,
        init: U,
        f: F,
    ) -> Result<U, QueryError>
        requires idle { (Self.conn_of self.old).pending ≡ None }
        requires callable { F.IsAlwaysCallable f }
        ensures idle { (Self.conn_of self.new).pending ≡ None }
        ensures loans { Self.loans_of self.new ≡ Self.loans_of self.old }
        ensures folds { FoldsFirst Self.L.looks (ExecuteIs Self.L.looks (S.like_of stmt.now) params)
            T.row_converts T.row_becomes (λ p x y v q. F.step p x y v q) init f
            (Self.conn_of self.old) (Self.conn_of self.new) result }
    {
        let begun = execute::<S, Self>(self, alloc, stmt, params);
        fold_answer::<T, U, F, Self>(self, alloc, begun, init, f)
    }

    /// Executes the statement that is named with these parameters, and drops the answer.
    fn exec_drop<S: StatementLike>(
        &mut self,
        alloc: Global,
        stmt: &S,
        params: Params,
    ) -> Result<(), QueryError>
        requires { (Self.conn_of self.old).pending ≡ None }
        ensures idle { (Self.conn_of self.new).pending ≡ None }
        ensures loans { Self.loans_of self.new ≡ Self.loans_of self.old }
        ensures drops { AnswerIs Self.L.looks (ExecuteIs Self.L.looks (S.like_of stmt.now) params) NothingIs
            (Self.conn_of self.old) (Self.conn_of self.new) result }
    {
        let begun = execute::<S, Self>(self, alloc, stmt, params);
        drop_answer(self, alloc, begun)
    }

    /// Asks whether the server is there.
    fn ping(&mut self, alloc: Global) -> Result<(), Error>
        requires { (Self.conn_of self.old).pending ≡ None }
        ensures done { DoneIs Self.L.looks kinds.Ping calls.Ping (Self.conn_of self.old) (Self.conn_of self.new) result }
        ensures loans { Self.loans_of self.new ≡ Self.loans_of self.old }
    {
        self.send_ping(alloc)
    }

    /// Prepares a statement of this text, which may have named parameters. One that is cached is returned at once.
    fn prep<Q: AsQuery>(&mut self, alloc: Global, query: &Q) -> Result<Statement, Error>
        requires { (Self.conn_of self.old).pending ≡ None }
        ensures prepares { StatementIs Self.L.looks (likes.Mediate (Q.text_of query.now))
            (Self.conn_of self.old) (Self.conn_of self.new) result }
        ensures loans { Self.loans_of self.new ≡ Self.loans_of self.old }
    {
        prepare_text::<Q, Self>(self, alloc, query)
    }

    /// Closes a statement: it isn't cached any more, and the server forgets it.
    fn close(&mut self, alloc: Global, statement: Statement) -> Result<(), Error>
        requires { (Self.conn_of self.old).pending ≡ None }
        ensures done { DoneIs Self.L.looks kinds.CloseStmt (calls.CloseStmt statement.inner.id)
            (Self.conn_of self.old) (Self.conn_of self.new) result }
        ensures loans { Self.loans_of self.new ≡ Self.loans_of self.old }
    {
        self.send_close(alloc, statement)
    }

    /// Executes the statement that is named once with each of these parameters, and passes over each result.
    fn exec_batch<S: StatementLike>(
        &mut self,
        alloc: Global,
        stmt: &S,
        lists: Vec<Params>,
    ) -> Result<(), Error>
        requires { (Self.conn_of self.old).pending ≡ None }
        ensures executes { BatchIs Self.L.looks (S.like_of stmt.now) lists.items
            (Self.conn_of self.old) (Self.conn_of self.new) result }
        ensures loans { Self.loans_of self.new ≡ Self.loans_of self.old }
    {
        execute_each::<S, Self>(self, alloc, stmt, lists)
    }

    /// Sends a query, and returns its result: its rows are still to be read.
    fn query_iter<Q: AsQuery>(
        &mut self,
        alloc: Global,
        query: &Q,
    ) -> Result<QueryResult<Lent<'_, Self>, TextProtocol>, Error>
        requires { (Self.conn_of self.old).pending ≡ None }
        ensures idle { IfOk result (λ r. (Self.conn_of r.holder.holder.now).pending ≡ None) }
        ensures loans { IfOk result (λ r. Self.loans_of r.holder.holder.now ≡ Self.loans_of self.old) }
        ensures name { IfOk result (λ r. r.holder.holder.ghost_name ≡ self.entry.ghost_name) }
        ensures begun { BegunIs (λ c. Self.conn_of c)
            (QueryIs Self.L.looks (Q.text_of query.now) (Self.conn_of self.old)) result }
    {
        match send_text::<Q, Self>(self, alloc, query) {
            Ok(()) => Ok(QueryResult {
                holder: Lent { holder: self },
                protocol: PhantomData,
            }),
            Err(error) => Err(error),
        }
    }

    /// Executes the statement that is named with these parameters, and returns its result: its rows are still to be
    /// read.
    fn exec_iter<S: StatementLike>(
        &mut self,
        alloc: Global,
        stmt: &S,
        params: Params,
    ) -> Result<QueryResult<Lent<'_, Self>, BinaryProtocol>, Error>
        requires { (Self.conn_of self.old).pending ≡ None }
        ensures idle { IfOk result (λ r. (Self.conn_of r.holder.holder.now).pending ≡ None) }
        ensures loans { IfOk result (λ r. Self.loans_of r.holder.holder.now ≡ Self.loans_of self.old) }
        ensures name { IfOk result (λ r. r.holder.holder.ghost_name ≡ self.entry.ghost_name) }
        ensures begun { BegunIs (λ c. Self.conn_of c)
            (ExecuteIs Self.L.looks (S.like_of stmt.now) params (Self.conn_of self.old)) result }
    {
        match execute::<S, Self>(self, alloc, stmt, params) {
            Ok(()) => Ok(QueryResult {
                holder: Lent { holder: self },
                protocol: PhantomData,
            }),
            Err(error) => Err(error),
        }
    }

    /// Sends a query, and returns the rows of the first set of its answer as a stream.
    fn query_stream<T: FromRow, Q: AsQuery>(
        &mut self,
        alloc: Global,
        query: &Q,
    ) -> Result<ResultSetStream<Lent<'_, Self>, T, TextProtocol>, Error>
        requires { (Self.conn_of self.old).pending ≡ None }
        ensures idle { IfOk result (λ s. (Self.conn_of s.result.holder.holder.now).pending ≡ None) }
        ensures loans { IfOk result (λ s. Self.loans_of s.result.holder.holder.now ≡ Self.loans_of self.old) }
        ensures name { IfOk result (λ s. s.result.holder.holder.ghost_name ≡ self.entry.ghost_name) }
        ensures begun { BegunStreamIs (λ c. Self.conn_of c)
            (TakesFirst Self.L.looks (QueryIs Self.L.looks (Q.text_of query.now)) (Self.conn_of self.old)) result }
    {
        query.stream::<T, Self>(alloc, self)
    }

    /// Executes the statement that is named with these parameters, and returns the rows of the first set of its
    /// answer as a stream.
    fn exec_stream<T: FromRow, S: StatementLike>(
        &mut self,
        alloc: Global,
        stmt: &S,
        params: Params,
    ) -> Result<ResultSetStream<Lent<'_, Self>, T, BinaryProtocol>, Error>
        requires { (Self.conn_of self.old).pending ≡ None }
        ensures idle { IfOk result (λ s. (Self.conn_of s.result.holder.holder.now).pending ≡ None) }
        ensures loans { IfOk result (λ s. Self.loans_of s.result.holder.holder.now ≡ Self.loans_of self.old) }
        ensures name { IfOk result (λ s. s.result.holder.holder.ghost_name ≡ self.entry.ghost_name) }
        ensures begun { BegunStreamIs (λ c. Self.conn_of c)
            (TakesFirst Self.L.looks (ExecuteIs Self.L.looks (S.like_of stmt.now) params) (Self.conn_of self.old))
            result }
    {
        let started = QueryWithParams {
            query: stmt,
            params,
        };
        started.stream::<T, Self>(alloc, self)
    }
}

/// Whatever holds a connection has these calls.
impl<C: Calls> Queryable for C {}
