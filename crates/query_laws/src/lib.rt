//! What the bytes that a connection took say of what its callers were given. Each function's clause is the law; it does nothing.
#![tactic(auto)]

ghost use Rattle.query_laws.specs.Answers.{ExecutionIsCollected, ExecutionIsFirst, ExecutionIsGathered, ExecutionIsRead, QueryHasSet, QueryIsCollected, QueryIsFirst, QueryIsGathered, QueryIsRead};
ghost use Rattle.query_laws.specs.Commits.{CommitIsAnswered};
ghost use Rattle.query_laws.specs.Made.{NewIsTaped};
ghost use Rattle.query_laws.specs.Tried.{AreTried};

use my_link::BlockingLink;
use my_rows::Gather;
use my_value::FromRow;

/// A connection that was made connected, with the login of its options, and did nothing else: so the reading accepts its tape, and each law
/// here holds of it from then on.
pub fn new_connections_are_taped<L: BlockingLink>()
    ensures { NewIsTaped L.looks }
{}

/// Where a query, or an execution, was accepted and rows were read up to an end, the newest exchange that the grammar finds in the bytes
/// taken is this command's, and its first set has exactly these rows, in order, and its end (`query`, `execution`). No read before that
/// end says that nothing is left (`set`).
pub fn reads_are_of_the_first_set<L: BlockingLink>()
    ensures query { QueryIsRead L.looks }
    ensures execution { ExecutionIsRead L.looks }
    ensures set { QueryHasSet L.looks }
{}

/// A call that gathered the first set of a query's answer (`query`), or of the answer to an execution of the statement that is named
/// (`execution`), and dropped the rest, gathered exactly the rows of the first set that the grammar finds so.
pub fn gathers_are_of_the_first_set<L: BlockingLink, T: FromRow, G: Gather<T>>()
    ensures query { QueryIsGathered L.looks T.row_converts T.row_becomes G.takes }
    ensures execution { ExecutionIsGathered L.looks T.row_converts T.row_becomes G.takes }
{}

/// So the values that `query` and `exec` return are what the rows of that set became: all of them, in order.
pub fn values_are_of_the_first_set<L: BlockingLink, T: FromRow, A>()
    ensures query { QueryIsCollected A L.looks T.row_converts T.row_becomes }
    ensures execution { ExecutionIsCollected A L.looks T.row_converts T.row_becomes }
{}

/// `query_first` and `exec_first` return what the first row of that set became, or nothing where it has no row.
pub fn first_values_are_of_the_first_set<L: BlockingLink, T: FromRow>()
    ensures query { QueryIsFirst L.looks T.row_converts T.row_becomes }
    ensures execution { ExecutionIsFirst L.looks T.row_converts T.row_becomes }
{}

/// A commit that was done was answered: the newest exchange that the grammar finds in the bytes taken is that of its COMMIT, is over, and
/// has no ERR.
pub fn commits_are_answered<L: BlockingLink>()
    ensures { CommitIsAnswered L.looks }
{}

/// The definitions of these laws accept right values, and refute wrong ones: another text, another command, another row, another order,
/// a row too few or too many, a set without its end, a later set or none, values in another order, a command that wasn't answered.
pub fn wrong_values_are_refuted()
    ensures { AreTried }
{}
