//! Routines: what is done on a connection, each as the call that it begins.

ghost use Rattle.std.specs.Prelude.{◌≡◌, IfOk};
ghost use Rattle.my_opts.specs.ChangeUser.{no_change};
ghost use Rattle.my_reading.specs.declared.call.Call.{Call as CallOf};
ghost use Rattle.my_reading.specs.declared.call.Call.TheVariants as calls;

use my_frame::{Blob, Listed, NoMemory};
use my_opts::ChangeUserOpts;
use my_params::Params;
use my_reading::Call;
use my_statements::Statement;

/// What is done on a connection.
pub trait Routine: Sized {
    /// The call of a routine.
    ghost call_of: { Self → CallOf };

    /// The call that it begins.
    fn into_call(self) -> Result<Call, NoMemory>
        ensures { IfOk result (λ call. call ≡ call_of self) };
}

/// Sends a query, and reads the head of its first result.
#[derive(Drop)]
pub struct QueryRoutine {
    pub(crate) text: Blob,
}

impl QueryRoutine {
    pub fn new(text: Blob) -> QueryRoutine
        ensures { result.text ≡ text }
    {
        QueryRoutine { text }
    }
}

impl Routine for QueryRoutine {
    ghost call_of = { λ routine. calls.Query routine.text };

    fn into_call(self) -> Result<Call, NoMemory> {
        Ok(Call::Query(self.text))
    }
}

/// Prepares a statement, or finds it in the cache. The text may have named parameters.
#[derive(Drop)]
pub struct PrepareRoutine {
    pub(crate) text: Blob,
}

impl PrepareRoutine {
    pub fn new(text: Blob) -> PrepareRoutine
        ensures { result.text ≡ text }
    {
        PrepareRoutine { text }
    }
}

impl Routine for PrepareRoutine {
    ghost call_of = { λ routine. calls.Prepare routine.text };

    fn into_call(self) -> Result<Call, NoMemory> {
        Ok(Call::Prepare(self.text))
    }
}

/// Executes a statement, and reads the head of its first result.
#[derive(Drop)]
pub struct ExecRoutine {
    pub(crate) statement: Statement,
    pub(crate) params: Params,
}

impl ExecRoutine {
    pub fn new(statement: Statement, params: Params) -> ExecRoutine
        ensures statement { result.statement ≡ statement }
        ensures params { result.params ≡ params }
    {
        ExecRoutine { statement, params }
    }
}

impl Routine for ExecRoutine {
    ghost call_of = { λ routine. calls.Execute routine.statement routine.params };

    fn into_call(self) -> Result<Call, NoMemory> {
        Ok(Call::Execute(self.statement, self.params))
    }
}

/// Executes a statement once with each of these parameters, and reads each result whole.
#[derive(Drop)]
pub struct ExecBulkRoutine {
    pub(crate) statement: Statement,
    pub(crate) lists: Listed<Params>,
}

impl ExecBulkRoutine {
    pub fn new(statement: Statement, lists: Listed<Params>) -> ExecBulkRoutine
        ensures statement { result.statement ≡ statement }
        ensures lists { result.lists ≡ lists }
    {
        ExecBulkRoutine { statement, lists }
    }
}

impl Routine for ExecBulkRoutine {
    ghost call_of = { λ routine. calls.Batch routine.statement routine.lists };

    fn into_call(self) -> Result<Call, NoMemory> {
        Ok(Call::Batch(self.statement, self.lists))
    }
}

/// Reads on: the next row of the set that is read, its end, or that nothing is left.
#[derive(Clone, Copy, Drop)]
pub struct NextSetRoutine;

impl NextSetRoutine {
    pub fn new() -> NextSetRoutine {
        NextSetRoutine
    }
}

impl Routine for NextSetRoutine {
    ghost call_of = { λ routine. calls.NextRow };

    fn into_call(self) -> Result<Call, NoMemory> {
        Ok(Call::NextRow)
    }
}

/// Pings the server.
#[derive(Clone, Copy, Drop)]
pub struct PingRoutine;

impl PingRoutine {
    pub fn new() -> PingRoutine {
        PingRoutine
    }
}

impl Routine for PingRoutine {
    ghost call_of = { λ routine. calls.Ping };

    fn into_call(self) -> Result<Call, NoMemory> {
        Ok(Call::Ping)
    }
}

/// Resets the server's session, where the server can.
#[derive(Clone, Copy, Drop)]
pub struct ResetRoutine;

impl ResetRoutine {
    pub fn new() -> ResetRoutine {
        ResetRoutine
    }
}

impl Routine for ResetRoutine {
    ghost call_of = { λ routine. calls.Reset };

    fn into_call(self) -> Result<Call, NoMemory> {
        Ok(Call::Reset)
    }
}

/// Gives the session of the server anew to its user: no part of the account changes.
#[derive(Clone, Copy, Drop)]
pub struct ChangeUser;

impl ChangeUser {
    pub fn new() -> ChangeUser {
        ChangeUser
    }
}

impl Routine for ChangeUser {
    ghost call_of = { λ routine. calls.ChangeUser no_change };

    fn into_call(self) -> Result<Call, NoMemory> {
        Ok(Call::ChangeUser(ChangeUserOpts::new()))
    }
}
