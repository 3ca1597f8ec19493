//! The place of the reading in an exchange, and how it moves on with each payload.

ghost use Rattle.std.specs.Prelude.{◌≡◌};
ghost use Rattle.my_grammar.specs.Contexts.{after_column, after_authentication, after_columns, after_field, after_greeting, after_head, after_parameter, after_parameters, after_prepare, after_prepared, after_row, columns_after, context_after, more, spot_after, kept_after};

use crate::login::Login;
use my_auth::{AuthAsk, AuthPlugin, AuthRules, AuthStand};
use my_flags::{CapabilityFlags, StatusFlags};
use my_frame::limits::DEFAULT_MAX_ALLOWED_PACKET;

/// What the reading awaits.
#[derive(Clone, Copy, PartialEq, Eq)]
pub enum Spot {
    /// Nothing: the exchange is over, or has no reply.
    Idle,
    /// The server's greeting, with which a connection begins: then the client may answer by these rules.
    Greeting(AuthRules),
    /// The next payload of the chain in which a client shows who it is, which stands so.
    Authentication(AuthStand),
    /// The one OK or ERR that answers a simple command.
    Single,
    /// The head of a response's first set.
    Head,
    /// The head of a further set.
    Further,
    /// This many column packets, at least one.
    Columns(u16),
    /// The EOF after the columns, which a server sends that doesn't deprecate it.
    ColumnsEnd,
    /// A row, or the set's end.
    Rows,
    /// The head of the reply to a statement to prepare.
    Prepare,
    /// This many parameters of a statement, at least one, and then its columns.
    Parameters { left: u16, columns: u16 },
    /// The EOF after the parameters, and then this many columns.
    ParametersEnd(u16),
    /// This many columns of a statement, at least one.
    Fields(u16),
    /// The EOF after them.
    FieldsEnd,
}

/// How the rows of an exchange's sets are written.
#[derive(Clone, Copy, PartialEq, Eq)]
pub enum RowFormat {
    /// Each cell is `NULL` or bytes.
    Text,
    /// Each cell is what its column's type and flags say.
    Binary,
}

/// What a server offers in its greeting.
#[derive(Clone, Copy, PartialEq, Eq)]
pub struct Offer {
    pub capabilities: CapabilityFlags,
    /// Whether its nonce is to be answered by `caching_sha2_password`.
    pub caching: bool,
}

/// What a payload is in its context.
#[derive(Clone, Copy, PartialEq, Eq)]
pub enum Kind {
    /// A greeting, of a server that offers this.
    Greets(Offer),
    /// A request in a chain in which the client shows who it is.
    Asks(AuthAsk),
    /// An OK with this status.
    Good(StatusFlags),
    /// An ERR.
    Failed,
    /// A set's head, with the number of columns that follow, at least one.
    Count(u16),
    /// A column.
    Column,
    /// The EOF after the columns, or after the parameters of a statement.
    ColumnsDone,
    /// A row.
    Row,
    /// A set's end with this status.
    End(StatusFlags),
    /// The head of the reply to a statement to prepare, with the numbers of its parameters and of its columns.
    Prepared { params: u16, columns: u16 },
    /// A parameter of a statement.
    Parameter,
    /// A column of a statement.
    Field,
    /// Nothing that fits there.
    Bad,
}

/// What client and server keep to in an exchange.
#[derive(Clone, Copy, PartialEq, Eq)]
pub struct Terms {
    /// The capabilities of both, as far as both have sent them.
    pub kept: CapabilityFlags,
    /// The length of the longest payload that is read, in bytes.
    pub limit: u64,
}

/// All that the reading of the next payload needs to know of those before, but for the columns of its set.
#[derive(Clone, Copy, PartialEq, Eq)]
pub struct Context {
    pub spot: Spot,
    pub rows: RowFormat,
    /// The number of columns of the set that is being read, 0 between sets.
    pub columns: u16,
    pub terms: Terms,
}

fn after_end(status: StatusFlags) -> Spot
    ensures { result ≡ more status }
{
    if status.has_more_results() {
        Spot::Further
    } else {
        Spot::Idle
    }
}

fn at_columns_end(ends_with_ok: bool) -> Spot
    ensures { result ≡ after_columns ends_with_ok }
{
    if ends_with_ok {
        Spot::Rows
    } else {
        Spot::ColumnsEnd
    }
}

fn at_column(ends_with_ok: bool, left: u16) -> Spot
    ensures { result ≡ after_column ends_with_ok left }
{
    if left <= 1 {
        at_columns_end(ends_with_ok)
    } else {
        Spot::Columns(left - 1)
    }
}

fn at_greeting(rules: AuthRules, kind: Kind) -> Spot
    ensures { result ≡ after_greeting rules kind }
{
    match kind {
        Kind::Greets(offer) => {
            let plugin = AuthPlugin::of_challenge(offer.caching);
            Spot::Authentication(AuthStand::first(rules, plugin))
        }
        _ => Spot::Idle,
    }
}

fn at_authentication(stand: AuthStand, kind: Kind) -> Spot
    ensures { result ≡ after_authentication stand kind }
{
    match kind {
        Kind::Asks(ask) => Spot::Authentication(stand.after(ask)),
        _ => Spot::Idle,
    }
}

fn at_head(kind: Kind) -> Spot
    ensures { result ≡ after_head kind }
{
    match kind {
        Kind::Good(status) => after_end(status),
        Kind::Count(columns) => Spot::Columns(columns),
        _ => Spot::Idle,
    }
}

fn at_row(kind: Kind) -> Spot
    ensures { result ≡ after_row kind }
{
    match kind {
        Kind::Row => Spot::Rows,
        Kind::End(status) => after_end(status),
        _ => Spot::Idle,
    }
}

fn at_parameters_end(columns: u16) -> Spot
    ensures { result ≡ after_parameters columns }
{
    if columns == 0 {
        Spot::Idle
    } else {
        Spot::Fields(columns)
    }
}

fn at_prepared(params: u16, columns: u16) -> Spot
    ensures { result ≡ after_prepared params columns }
{
    if params == 0 {
        at_parameters_end(columns)
    } else {
        Spot::Parameters {
            left: params,
            columns,
        }
    }
}

fn at_prepare(kind: Kind) -> Spot
    ensures { result ≡ after_prepare kind }
{
    match kind {
        Kind::Prepared { params, columns } => at_prepared(params, columns),
        _ => Spot::Idle,
    }
}

fn at_parameter(ends_with_ok: bool, left: u16, columns: u16) -> Spot
    ensures { result ≡ after_parameter ends_with_ok left columns }
{
    if left > 1 {
        Spot::Parameters {
            left: left - 1,
            columns,
        }
    } else if ends_with_ok {
        at_parameters_end(columns)
    } else {
        Spot::ParametersEnd(columns)
    }
}

fn at_field(ends_with_ok: bool, left: u16) -> Spot
    ensures { result ≡ after_field ends_with_ok left }
{
    if left > 1 {
        Spot::Fields(left - 1)
    } else if ends_with_ok {
        Spot::Idle
    } else {
        Spot::FieldsEnd
    }
}

fn next_spot(ends_with_ok: bool, spot: Spot, kind: Kind) -> Spot
    ensures { result ≡ spot_after ends_with_ok spot kind }
{
    match spot {
        Spot::Idle | Spot::Single | Spot::FieldsEnd => Spot::Idle,
        Spot::Greeting(rules) => at_greeting(rules, kind),
        Spot::Authentication(stand) => at_authentication(stand, kind),
        Spot::Head | Spot::Further => at_head(kind),
        Spot::Columns(left) => at_column(ends_with_ok, left),
        Spot::ColumnsEnd => Spot::Rows,
        Spot::Rows => at_row(kind),
        Spot::Prepare => at_prepare(kind),
        Spot::Parameters { left, columns } => at_parameter(ends_with_ok, left, columns),
        Spot::ParametersEnd(columns) => at_parameters_end(columns),
        Spot::Fields(left) => at_field(ends_with_ok, left),
    }
}

fn next_columns(columns: u16, kind: Kind) -> u16
    ensures { result ≡ columns_after columns kind }
{
    match kind {
        Kind::Count(columns) => columns,
        Kind::Column | Kind::ColumnsDone | Kind::Row => columns,
        _ => 0,
    }
}

fn next_kept(kept: CapabilityFlags, kind: Kind) -> CapabilityFlags
    ensures { result ≡ kept_after kept kind }
{
    match kind {
        Kind::Greets(offer) => kept.intersection(offer.capabilities),
        _ => kept,
    }
}

impl Context {
    ghost use Rattle.my_grammar.specs.Talk.{Start, context_of};

    /// Where the reading of a connection begins.
    pub fn start(login: &Login) -> Context
        ensures { result ≡ context_of (Start login.now) }
    {
        Context {
            spot: Spot::Greeting(login.rules),
            rows: RowFormat::Text,
            columns: 0,
            terms: Terms {
                kept: login.capabilities,
                limit: DEFAULT_MAX_ALLOWED_PACKET,
            },
        }
    }

    /// Where the reading follows a payload of this kind.
    pub fn after(self, kind: Kind) -> Context
        ensures { result ≡ context_after self kind }
    {
        Context {
            spot: next_spot(self.terms.kept.deprecates_eof(), self.spot, kind),
            rows: self.rows,
            columns: next_columns(self.columns, kind),
            terms: Terms {
                kept: next_kept(self.terms.kept, kind),
                limit: self.terms.limit,
            },
        }
    }
}
