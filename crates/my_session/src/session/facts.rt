//! What a session knows: what it was made with, what the server said of itself, and whether something is left of earlier calls.

ghost use Rattle.std.specs.Prelude.{◌≡◌};
ghost use Rattle.std.specs.Option.{option_copied};
ghost use Rattle.my_session.specs.Login.{with_account};
ghost use Rattle.my_session.specs.Sessions.{is_dirty, is_taken, known_by};

use super::Session;
use my_grammar::Spot;
use my_opts::Opts;
use my_reading::{SetColumns, TxStatus};
use my_reply::OkPacket;
use my_statements::Statement;

impl Session {
    /// The options in force: those that it was made with, as each change of user changed them.
    pub fn opts(&self) -> &Opts
        ensures { result.now ≡ with_account self.now.seen.stand.account self.now.lifetime.opts }
    {
        &self.opts
    }

    /// Whether its link is a local socket.
    pub fn is_socket(&self) -> bool
        ensures { result ≡ self.now.lifetime.is_socket }
    {
        self.is_socket
    }

    /// The moment at which the connection ends, in milliseconds, where it has one.
    pub fn deadline(&self) -> Option<u128>
        ensures { result ≡ self.now.lifetime.deadline }
    {
        self.deadline
    }

    /// The moment at which the last whole payload was read, in milliseconds; 0 before the first.
    pub fn last_io(&self) -> u64
        ensures { result ≡ self.now.lifetime.last_io }
    {
        self.last_io
    }

    /// The number of the connection, as the server reported it.
    pub fn connection_id(&self) -> u32
        ensures { result ≡ self.now.seen.stand.facts.connection }
    {
        self.stand.facts.connection
    }

    /// The server's version, as it reported it.
    pub fn version(&self) -> &[u8]
        ensures { result.now ≡ self.now.seen.stand.facts.version }
    {
        self.stand.facts.version.as_slice()
    }

    /// The longest payload of a command and its answer, in bytes.
    pub fn limit(&self) -> u64
        ensures { result ≡ self.now.seen.stand.facts.settings.limit }
    {
        self.stand.facts.settings.limit
    }

    /// After this many seconds without a command the server ends the connection.
    pub fn wait_timeout(&self) -> u64
        ensures { result ≡ self.now.seen.stand.facts.settings.wait_timeout }
    {
        self.stand.facts.settings.wait_timeout
    }

    /// The last OK, or the OK that ended a set; none after an ERR.
    pub fn last_ok(&self) -> Option<&OkPacket>
        ensures { option_copied result ≡ self.now.seen.stand.facts.ok }
    {
        self.stand.facts.ok.as_ref()
    }

    /// The columns of the rows of a prepared statement, where they are known. A closed session knows none.
    pub fn columns_of(&self, statement: &Statement) -> Option<&SetColumns>
        ensures { option_copied result ≡ known_by statement.now.inner.id self.now.seen }
    {
        if self.closed {
            return None;
        }
        self.stand.statements.columns_of(statement.id())
    }

    /// Whether a stream took the set that is read, or whose end is still to be returned.
    pub fn is_taken(&self) -> bool
        ensures { result ≡ is_taken self.now.seen }
    {
        self.stand.taken && (self.stand.end_left || self.stand.context.spot == Spot::Rows)
    }

    /// Whether something is left of earlier calls: rows, a further set, or the end of a lone OK of a response; or a
    /// transaction.
    pub fn is_dirty(&self) -> bool
        ensures { result ≡ is_dirty self.now.seen }
    {
        match (self.stand.context.spot, self.stand.status) {
            (Spot::Idle, TxStatus::None) => self.stand.end_left,
            _ => true,
        }
    }
}
