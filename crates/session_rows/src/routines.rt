//! Routines, each with the call that it begins.

use my_frame::{Blob, Listed, NoMemory};
use my_opts::ChangeUserOpts;
use my_params::Params;
use my_reading::Call;
use my_session::{
    ChangeUser, ExecBulkRoutine, ExecRoutine, NextSetRoutine, PingRoutine, PrepareRoutine,
    QueryRoutine, ResetRoutine, Routine,
};
use my_statements::{SetColumns, Statement, StmtInner};
use std::alloc::Global;
use std::sync::Arc;
use std::test::Fail;

// Whether this is the call that a routine begins.
fn gives<R: Routine>(routine: R, call: Call) -> Result<bool, NoMemory> {
    let given = routine.into_call()?;
    let same = given == call;
    drop(given);
    drop(call);
    Ok(same)
}

fn texts_give(alloc: Global) -> Result<bool, NoMemory> {
    let text = Blob::from_slice(alloc, b"DO ?")?;
    let query = QueryRoutine::new(text.copy(alloc)?);
    let prepare = PrepareRoutine::new(text.copy(alloc)?);
    Ok(gives(query, Call::Query(text.copy(alloc)?))? && gives(prepare, Call::Prepare(text))?)
}

fn executions_give(alloc: Global, statement: &Statement) -> Result<bool, NoMemory> {
    let exec = ExecRoutine::new(statement.copy(alloc)?, Params::Empty);
    let call = Call::Execute(statement.copy(alloc)?, Params::Empty);
    if !gives(exec, call)? {
        return Ok(false);
    }
    let mut lists = Listed::new(alloc);
    lists.push(Params::Empty)?;
    let bulk = ExecBulkRoutine::new(statement.copy(alloc)?, lists.copy(alloc)?);
    gives(bulk, Call::Batch(statement.copy(alloc)?, lists))
}

fn statement(alloc: Global) -> Result<Statement, NoMemory> {
    let inner = StmtInner {
        id: 1,
        connection_id: 7,
        num_params: 0,
        num_columns: 0,
        params: SetColumns::new(alloc)?,
    };
    Ok(Statement::new(Arc::new(alloc, inner)?, Listed::new(alloc)))
}

fn all_give(alloc: Global) -> Result<bool, NoMemory> {
    let statement = statement(alloc)?;
    let executions = executions_give(alloc, &statement);
    drop(statement);
    Ok(
        executions?
            && texts_give(alloc)?
            && gives(NextSetRoutine::new(), Call::NextRow)?
            && gives(PingRoutine::new(), Call::Ping)?
            && gives(ResetRoutine::new(), Call::Reset)?
            && gives(ChangeUser::new(), Call::ChangeUser(ChangeUserOpts::new()))?,
    )
}

#[test]
fn routines_begin_calls(rt: HostRuntime) -> Result<(), Fail> {
    assert!(rt; all_give(rt.alloc())?);
    Ok(())
}
