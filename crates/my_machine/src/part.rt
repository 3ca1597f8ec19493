//! The parts of a call: what it does, in order.

ghost use Rattle.std.specs.Prelude.{◌≡◌, ◌∷◌, Some, drop, length, slice_get};
ghost use Rattle.my_reading.specs.Course.{parts_of_batch, parts_of_lists, renewed};
ghost use Rattle.my_reading.specs.Transactions.{begin_texts};
ghost use Rattle.my_machine.specs.Parts.{AreLists, IsFirst, IsPartAt, IsQueryAt, IsSetupAt, change_at, opts_at};
ghost use Rattle.my_machine.specs.Parts.{begin_parts, changed_parts, connecting_parts, reset_parts};

use crate::texts::has_text;
use my_grammar::Login;
use my_opts::ChangeUserOpts;
use my_opts_parts::TxOpts;
use my_params::Params;
use my_reading::{Call, TxStatus};

/// A part of a call. It has places in what the call carries, in place of what stands there.
#[derive(Clone, Copy)]
pub enum Part {
    /// The rest of the newest exchange is read.
    All,
    /// It is read to the head of its first set.
    Head,
    /// It is read to its next row or end.
    Item,
    /// A stream takes the set that is read, or the next one.
    Set,
    /// The rest of the set that is read is passed over, and its end.
    Rest,
    /// The call's next command is sent.
    Command,
    /// The statement of the text is looked for.
    Find,
    /// The parameters at this place are looked at.
    Check(usize),
    /// The call's statement is executed with them.
    Run(usize),
    /// The reply to a statement to prepare is read.
    Reply,
    /// Its statement is kept, and the one that has to go for it is closed.
    Keep,
    /// It is returned.
    Give,
    /// The columns of an execution's rows are learned.
    Learn,
    /// A statement isn't kept any more.
    Forget,
    /// The server has the command of the call, or nothing is sent and `false` is returned.
    Offered,
    /// No statement is kept any more.
    Clear,
    /// The query is sent that sets a session up after as many others.
    Text(usize),
    /// The query is sent that begins the call's transaction after as many others.
    Start(usize),
    /// This flag is returned.
    Flag(bool),
    /// The options are changed as the call says.
    Adopt,
    /// The server's session is renewed.
    Renew,
    /// The rest of the newest exchange is read, and an ERR in it dropped.
    Drain,
    /// A transaction that was given up is rolled back.
    Undo,
    /// Then there is none.
    Undone,
    /// The call's transaction is refused, where it may not begin.
    Refuse,
    /// The transaction stands so from now on.
    Settle(TxStatus),
    /// It is given up.
    GiveUp,
    /// It is to be committed.
    Try,
    /// The query that commits it is sent.
    Commit,
    /// It was rolled back since it couldn't be committed.
    Back,
}

// The parts of a call that cleans first, and has these after the four that clean.
fn cleaned(n: usize, then: &[Part]) -> Option<Part>
    ensures { result ≡ slice_get (Part.All ∷ Part.Undo ∷ Part.All ∷ Part.Undone ∷ then.now) n }
{
    match n {
        0 | 2 => Some(Part::All),
        1 => Some(Part::Undo),
        3 => Some(Part::Undone),
        _ => then.get(n - 4).copied(),
    }
}

// One of these parts.
fn among(parts: &[Part], n: usize) -> Option<Part>
    ensures { result ≡ slice_get parts.now n }
{
    parts.get(n).copied()
}

// The parts of calls whose parts are always the same, and which do something before they clean.
const PREPARE: [Part; 9] = [
    Part::Find,
    Part::All,
    Part::Undo,
    Part::All,
    Part::Undone,
    Part::Command,
    Part::Reply,
    Part::Keep,
    Part::Give,
];

const EXECUTE: [Part; 8] = [
    Part::Check(0),
    Part::All,
    Part::Undo,
    Part::All,
    Part::Undone,
    Part::Command,
    Part::Head,
    Part::Learn,
];

const CLOSE: [Part; 6] = [
    Part::Forget,
    Part::All,
    Part::Undo,
    Part::All,
    Part::Undone,
    Part::Command,
];

const COMMIT: [Part; 8] = [
    Part::Try,
    Part::All,
    Part::Undo,
    Part::All,
    Part::Undone,
    Part::Commit,
    Part::All,
    Part::Settle(TxStatus::None),
];

const ROLLBACK: [Part; 5] = [
    Part::Settle(TxStatus::RequiresRollback),
    Part::All,
    Part::Undo,
    Part::All,
    Part::Undone,
];

const CLEAN: [Part; 6] = [
    Part::Drain,
    Part::GiveUp,
    Part::All,
    Part::Undo,
    Part::All,
    Part::Undone,
];

// The part at this place of connecting.
fn connecting_part(login: &Login, call: &Call, n: usize) -> Option<Part>
    ensures { IsFirst login.now call.now result (drop n (connecting_parts login.now)) }
{
    if n == 0 {
        return Some(Part::All);
    }
    if !has_text(login, (n - 1) / 2) {
        return None;
    }
    if n % 2 == 1 {
        return Some(Part::Command);
    }
    Some(Part::All)
}

// The part at this place among those that send `count` queries, one by this part there, and then this one.
fn query_part(
    login: &Login,
    call: &Call,
    n: usize,
    count: usize,
    text: Part,
    last: Option<Part>,
) -> Option<Part>
    ensures { IsQueryAt login.now call.now n count text last result }
{
    let place = n / 2;
    if place > count {
        return None;
    }
    if n % 2 == 0 {
        return Some(Part::All);
    }
    if place < count {
        return Some(text);
    }
    last
}

// The part at this place among those that set a session up, and then this one.
fn setup_part(login: &Login, call: &Call, n: usize, last: Option<Part>) -> Option<Part>
    ensures { IsSetupAt login.now call.now n last result }
{
    query_part(login, call, n, login.setup.len(), Part::Text(n / 2), last)
}

// The part at this place of a reset.
fn reset_part(login: &Login, call: &Call, n: usize) -> Option<Part>
    ensures { IsFirst login.now call.now result (drop n (reset_parts login.now)) }
{
    match n {
        0 => Some(Part::Offered),
        1 | 3 | 6 => Some(Part::All),
        2 => Some(Part::Undo),
        4 => Some(Part::Undone),
        5 => Some(Part::Command),
        7 => Some(Part::Clear),
        _ => setup_part(login, call, n - 8, Some(Part::Flag(true))),
    }
}

// The part at this place where the server's session is renewed.
fn renewed_part(login: &Login, call: &Call, n: usize) -> Option<Part>
    ensures { IsFirst login.now call.now result (drop n (renewed login.now)) }
{
    match n {
        0 | 2 | 5 => Some(Part::All),
        1 => Some(Part::Undo),
        3 => Some(Part::Undone),
        4 => Some(Part::Renew),
        6 => Some(Part::Clear),
        _ => setup_part(login, call, n - 7, None),
    }
}

// The part at this place of such a change of user.
fn changed_part(login: &Login, call: &Call, change: &ChangeUserOpts, n: usize) -> Option<Part>
    requires { change_at call.now ≡ Some change.now }
    ensures { IsFirst login.now call.now result (drop n (changed_parts login.now change.now)) }
{
    match n {
        0 => Some(Part::Adopt),
        _ => renewed_part(login, call, n - 1),
    }
}

// How many queries begin such a transaction.
fn count_texts(opts: TxOpts) -> usize
    ensures { result ≡ length (begin_texts opts) }
{
    match (opts.isolation_level(), opts.readonly()) {
        (None, None) => 1,
        (None, Some(_)) | (Some(_), None) => 2,
        (Some(_), Some(_)) => 3,
    }
}

// The part at this place of the beginning of such a transaction.
fn begin_part(login: &Login, call: &Call, opts: TxOpts, n: usize) -> Option<Part>
    requires { opts_at call.now ≡ Some opts }
    ensures { IsFirst login.now call.now result (drop n (begin_parts opts)) }
{
    match n {
        0 | 2 => Some(Part::All),
        1 => Some(Part::Undo),
        3 => Some(Part::Undone),
        4 => Some(Part::Refuse),
        _ => {
            let place = n - 5;
            let settle = Part::Settle(TxStatus::InTransaction);
            query_part(
                login,
                call,
                place,
                count_texts(opts),
                Part::Start(place / 2),
                Some(settle),
            )
        }
    }
}

// The part at this place of a batch of these executions, after those of the first.
fn later_part(login: &Login, call: &Call, lists: &[Params], n: usize) -> Option<Part>
    requires { AreLists call.now lists.now }
    ensures { IsFirst login.now call.now result (drop n (parts_of_lists (drop 1 lists.now))) }
{
    let place = 1 + n / 6;
    if place >= lists.len() {
        return None;
    }
    match n % 6 {
        0 => Some(Part::Check(place)),
        2 => Some(Part::Run(place)),
        3 => Some(Part::Head),
        4 => Some(Part::Learn),
        _ => Some(Part::All),
    }
}

// The part at this place of a batch of these executions.
fn batch_part(login: &Login, call: &Call, lists: &[Params], n: usize) -> Option<Part>
    requires { AreLists call.now lists.now }
    ensures { IsFirst login.now call.now result (drop n (parts_of_batch lists.now)) }
{
    if lists.len() == 0 {
        return None;
    }
    match n {
        0 => Some(Part::Check(0)),
        1 | 3 | 8 => Some(Part::All),
        2 => Some(Part::Undo),
        4 => Some(Part::Undone),
        5 => Some(Part::Run(0)),
        6 => Some(Part::Head),
        7 => Some(Part::Learn),
        _ => later_part(login, call, lists, n - 9),
    }
}

/// The part at this place of a call; none where it is done.
pub fn part_at(login: &Login, call: &Call, n: usize) -> Option<Part>
    ensures { IsPartAt login.now call.now n result }
{
    match call {
        Call::Connect => connecting_part(login, call, n),
        Call::Query(_) => cleaned(n, &[Part::Command, Part::Head]),
        Call::Prepare(_) => among(&PREPARE, n),
        Call::Execute(_, _) => among(&EXECUTE, n),
        Call::Batch(_, lists) => batch_part(login, call, lists.as_slice(), n),
        Call::CloseStmt(_) => among(&CLOSE, n),
        Call::NextRow => among(&[Part::Item], n),
        Call::DropResult => among(&[Part::All], n),
        Call::TakeSet => among(&[Part::Set], n),
        Call::SkipTaken => among(&[Part::Rest], n),
        Call::Ping => cleaned(n, &[Part::Command, Part::All]),
        Call::Reset => reset_part(login, call, n),
        Call::ChangeUser(change) => changed_part(login, call, change, n),
        Call::Begin(opts) => begin_part(login, call, *opts, n),
        Call::Commit => among(&COMMIT, n),
        Call::Rollback => among(&ROLLBACK, n),
        Call::ForgetTransaction => among(&[Part::GiveUp], n),
        Call::CleanForPool => among(&CLEAN, n),
        Call::ResetForPool => renewed_part(login, call, n),
        Call::Quit => cleaned(n, &[Part::Command]),
    }
}
