//! What begins an answer: a text, or a statement with its parameters.
ghost use Rattle.std.specs.Prelude.{◌≡◌, None};

use my_params::Params;
use my_reading::Error;
use my_rows::{AsQuery, Calls, StatementLike, execute, send_text};
use std::alloc::Global;

/// What begins an answer: a text, or a statement with its parameters.
pub trait Starts: Sized {
    ghost use Rattle.my_query.specs.Starts.{Start, StartIs};

    /// How it begins the answer.
    ghost start_of: { Self → Start };

    /// Sends it, and waits until the server accepts it: its rows are still to be read. This says of the holder what
    /// it is afterwards, also where the call fails. None may be made while a call that was polled is open.
    fn start<C: Calls>(self, alloc: Global, conn: &mut C) -> Result<(), Error>
        requires { (C.conn_of conn.old).pending ≡ None }
        ensures idle { (C.conn_of conn.new).pending ≡ None }
        ensures loans { C.loans_of conn.new ≡ C.loans_of conn.old }
        ensures starts { StartIs C.L.looks (start_of self) (C.conn_of conn.old) (C.conn_of conn.new) result };
}

impl<Q: AsQuery + Drop> Starts for Q {
    ghost use Rattle.my_query.specs.Starts.{Asks};

    ghost start_of = { λ q. Asks (Q.text_of q) };

    fn start<C: Calls>(self, alloc: Global, conn: &mut C) -> Result<(), Error> {
        send_text::<Q, C>(conn, alloc, &self)
    }
}

/// What names a statement, and its parameters.
#[derive(Drop)]
pub struct QueryWithParams<Q, P> {
    pub query: Q,
    pub params: P,
}

/// What is given parameters.
pub trait WithParams: Sized {
    /// With these parameters: `Params`, or a list of them for `batch`.
    fn with<P>(self, params: P) -> QueryWithParams<Self, P>
        ensures query { result.query ≡ self }
        ensures params { result.params ≡ params };
}

impl<Q: StatementLike> WithParams for Q {
    fn with<P>(self, params: P) -> QueryWithParams<Q, P> {
        QueryWithParams {
            query: self,
            params,
        }
    }
}

impl<Q: StatementLike + Drop> Starts for QueryWithParams<Q, Params> {
    ghost use Rattle.my_query.specs.Starts.{Executes};

    ghost start_of = { λ q. Executes (Q.like_of q.query) q.params };

    fn start<C: Calls>(self, alloc: Global, conn: &mut C) -> Result<(), Error> {
        let QueryWithParams { query, params } = self;
        execute::<Q, C>(conn, alloc, &query, params)
    }
}
