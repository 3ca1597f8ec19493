//! What a step does: the call that it begins, or what else.
ghost use Rattle.std.specs.Prelude.{◌≡◌, IfOk};
ghost use Rattle.std.specs.Option.{option_copied};
ghost use Rattle.my_script.specs.Actions.{action_of, at_place, close_work, execute_work, found_work};

use crate::aim::Aim;
use crate::step::Step;
use my_frame::NoMemory;
use my_link::WorldLine;
use my_params::Params;
use my_reading::Call;
use my_statements::Statement;
use std::alloc::Global;

/// What a step does at the connection that it names.
#[derive(Drop)]
pub enum Work {
    /// Begins a call.
    Begin(Call),
    /// Reads what this aim says, once the rest of a set that a stream took is passed over.
    Read(Aim),
    /// Reads on in a stream's set.
    Item,
    /// Lets a stream go.
    LetGo,
    /// Finds no stream there, no transaction, or no statement.
    Miss,
    /// Shows the last OK.
    Fields,
    /// Continues the open call, which has this aim.
    Poll(Aim),
    /// Cancels the open call.
    Cancel,
}

/// What a step does.
#[derive(Drop)]
pub enum Action {
    /// Dials the next connection.
    Dial,
    /// Hands the world this line.
    Move(WorldLine),
    /// Does this at the connection of this number.
    Visit(u64, Work),
}

// Does this where the step finds what it needs.
fn where_found(found: bool, work: Work) -> Work
    ensures { result ≡ found_work found work }
{
    if found {
        return work;
    }
    drop(work);
    Work::Miss
}

// A statement is executed, and closed by its id, where one is there.
fn execute(alloc: Global, statement: Option<&Statement>, params: &Params) -> Result<Work, NoMemory>
    ensures { IfOk result (λ work. work ≡ execute_work (option_copied statement.entry) params.now) }
{
    let Some(statement) = statement else {
        return Ok(Work::Miss);
    };
    let statement = statement.copy(alloc)?;
    match params.copy(alloc) {
        Ok(params) => Ok(Work::Begin(Call::Execute(statement, params))),
        Err(error) => {
            drop(statement);
            Err(error)
        }
    }
}

fn close(statement: Option<&Statement>) -> Work
    ensures { result ≡ close_work (option_copied statement.entry) }
{
    match statement {
        Some(statement) => Work::Begin(Call::CloseStmt(statement.id())),
        None => Work::Miss,
    }
}

fn visit(number: u64, work: Work) -> Action
    ensures { result ≡ at_place number work }
{
    Action::Visit(number, work)
}

impl Step {
    /// What the step does, where it finds its stream or its transaction, or doesn't; the open call of its connection
    /// has this aim, and this is the statement that it names.
    pub fn begins(
        &self,
        alloc: Global,
        found: bool,
        aim: Aim,
        named: Option<&Statement>,
    ) -> Result<Action, NoMemory>
        ensures { IfOk result (λ action. action ≡ action_of found aim (option_copied named.entry) self.now) }
    {
        match self {
            Step::Conn => Ok(Action::Dial),
            Step::Query(number, text) => {
                let text = text.copy(alloc)?;
                Ok(visit(*number, Work::Begin(Call::Query(text))))
            }
            Step::Prepare(number, text) => {
                let text = text.copy(alloc)?;
                Ok(visit(*number, Work::Begin(Call::Prepare(text))))
            }
            Step::Execute(number, _, params) => Ok(visit(*number, execute(alloc, named, params)?)),
            Step::CloseStatement(number, _) => Ok(visit(*number, close(named))),
            Step::Next(number) => Ok(visit(*number, Work::Read(Aim::Row))),
            Step::Drop(number) => Ok(visit(*number, Work::Begin(Call::DropResult))),
            Step::Ping(number) => Ok(visit(*number, Work::Begin(Call::Ping))),
            Step::Reset(number) => Ok(visit(*number, Work::Begin(Call::Reset))),
            Step::User(number, change) => {
                let change = change.copy(alloc)?;
                Ok(visit(*number, Work::Begin(Call::ChangeUser(change))))
            }
            Step::Begin(number, opts) => Ok(visit(*number, Work::Begin(Call::Begin(*opts)))),
            Step::Commit(number) => {
                let work = Work::Begin(Call::Commit);
                Ok(visit(*number, where_found(found, work)))
            }
            Step::Rollback(number) => {
                let work = Work::Begin(Call::Rollback);
                Ok(visit(*number, where_found(found, work)))
            }
            Step::ForgetTransaction(number) => {
                let work = Work::Begin(Call::ForgetTransaction);
                Ok(visit(*number, where_found(found, work)))
            }
            Step::Quit(number) => Ok(visit(*number, Work::Begin(Call::Quit))),
            Step::Fields(number) => Ok(visit(*number, Work::Fields)),
            Step::Cancel(number) => Ok(visit(*number, Work::Cancel)),
            Step::Collect(number) => Ok(visit(*number, Work::Read(Aim::Rows))),
            Step::Poll(number) => Ok(visit(*number, Work::Poll(aim))),
            Step::Stream(number) => Ok(visit(*number, Work::Read(Aim::Take))),
            Step::Item(number) => Ok(visit(*number, where_found(found, Work::Item))),
            Step::Unstream(number) => Ok(visit(*number, where_found(found, Work::LetGo))),
            Step::Advance(by) => Ok(Action::Move(WorldLine::Advance(*by))),
            Step::Random(word) => Ok(Action::Move(WorldLine::Random(*word))),
        }
    }
}
