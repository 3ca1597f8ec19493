//! What a script asks for.

use my_frame::Blob;
use my_opts::ChangeUserOpts;
use my_opts_parts::TxOpts;
use my_params::Params;

/// A step of a script. Each but the first and the last two names a connection by its number.
#[derive(Drop)]
pub enum Step {
    /// Dials and connects the next connection.
    Conn,
    /// Sends a text to this connection.
    Query(u64, Blob),
    /// Prepares a statement of this text at this connection.
    Prepare(u64, Blob),
    /// Executes at this connection the statement of this number with these parameters.
    Execute(u64, u64, Params),
    /// Closes at this connection the statement of this number.
    CloseStatement(u64, u64),
    /// Reads on in this connection's result.
    Next(u64),
    /// Reads all rows that are left of the set that is read.
    Collect(u64),
    /// Lets a stream take the set that is read, or the next one.
    Stream(u64),
    /// Reads on in this connection's stream.
    Item(u64),
    /// Lets this connection's stream go.
    Unstream(u64),
    /// Passes over all that is left of this connection's result.
    Drop(u64),
    /// Asks whether the server is there.
    Ping(u64),
    /// Has the server reset this connection's session.
    Reset(u64),
    /// Changes the user of this connection's session, the password and the database.
    User(u64, ChangeUserOpts),
    /// Begins a transaction at this connection.
    Begin(u64, TxOpts),
    /// Commits this connection's transaction.
    Commit(u64),
    /// Rolls this connection's transaction back.
    Rollback(u64),
    /// Gives this connection's transaction up, which is rolled back before the next command.
    ForgetTransaction(u64),
    /// Leaves the server.
    Quit(u64),
    /// Shows what the server's last OK said.
    Fields(u64),
    /// Goes on with this connection's open call.
    Poll(u64),
    /// Drops this connection's open call.
    Cancel(u64),
    /// Moves the world's moment by this many milliseconds.
    Advance(u64),
    /// Adds this word after the world's random words.
    Random(u64),
}
