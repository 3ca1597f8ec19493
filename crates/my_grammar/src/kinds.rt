//! What a payload is in its context. No call allocates.

ghost use Rattle.std.specs.Prelude.{◌≡◌, is_some, true, false};
ghost use Rattle.my_flags.specs.Sets.{deprecates_eof};
ghost use Rattle.my_grammar.specs.Kinds.{auth_kind, cells_at, cells_kind, columns_end_kind, count_kind, described_kind, end_kind, failed_kind, good_kind, greeting_kind, greets_kind, head_kind, is_caching, kind_there, offer_kind, or_else, prepare_kind, prepared_kind, row_kind, single_kind};
ghost use Rattle.my_reply.specs.ColumnCount.{column_count_at};
ghost use Rattle.my_reply.specs.Column.{column_at};
ghost use Rattle.my_reply.specs.ErrPacket.{err_at};
ghost use Rattle.my_handshake.specs.Greeting.{greeting_at};
ghost use Rattle.my_reply.specs.OkPacket.{ok_at};
ghost use Rattle.my_reply.specs.Replies.{prepare_ok_at};

use crate::spot::{Context, Kind, Offer, RowFormat, Spot};
use my_auth::{AuthMove, AuthStand};
use my_flags::CapabilityFlags;
use my_handshake::greeting_offer;
use my_reply::glance::{end_ok_status, is_column, is_err, ok_status};
use my_reply::{Column, read_column_count, read_eof, read_prepare_ok};
use my_value::{is_binary_row, is_text_row};

// An ERR, or else what the payload was found to be.
fn failed(payload: &[u8], before_response: bool) -> Kind
    ensures { result ≡ failed_kind (err_at before_response payload.now) }
{
    if is_err(payload, before_response) {
        Kind::Failed
    } else {
        Kind::Bad
    }
}

fn first_of(first: Kind, second: Kind) -> Kind
    ensures { result ≡ or_else first second }
{
    match first {
        Kind::Bad => second,
        _ => first,
    }
}

/// Whether a plugin's name is `caching_sha2_password`.
pub fn is_caching(plugin: &[u8]) -> bool
    ensures { result ≡ is_caching plugin.now }
{
    plugin == b"caching_sha2_password".as_slice()
}

fn offer(capabilities: CapabilityFlags, plugin: &[u8]) -> Kind
    ensures { result ≡ offer_kind capabilities plugin.now }
{
    if capabilities.deprecates_eof() {
        Kind::Greets(Offer {
            capabilities,
            caching: is_caching(plugin),
        })
    } else {
        Kind::Bad
    }
}

fn greets(payload: &[u8]) -> Kind
    ensures { result ≡ greets_kind (greeting_at payload.now) }
{
    match greeting_offer(payload) {
        Some((capabilities, plugin)) => offer(capabilities, plugin),
        None => Kind::Bad,
    }
}

fn good(payload: &[u8]) -> Kind
    ensures { result ≡ good_kind (ok_at payload.now) }
{
    match ok_status(payload) {
        Some(status) => Kind::Good(status),
        None => Kind::Bad,
    }
}

fn counts(payload: &[u8]) -> Kind
    ensures { result ≡ count_kind (column_count_at false payload.now) }
{
    match read_column_count(payload, false) {
        Ok(columns) => Kind::Count(columns.count),
        Err(_) => Kind::Bad,
    }
}

// A column packet is of this kind.
fn described(kind: Kind, payload: &[u8]) -> Kind
    ensures { result ≡ described_kind kind (column_at payload.now) }
{
    if is_column(payload) { kind } else { Kind::Bad }
}

fn done(payload: &[u8]) -> Kind
    ensures { result ≡ columns_end_kind payload.now }
{
    match read_eof(payload) {
        Ok(_) => Kind::ColumnsDone,
        Err(_) => Kind::Bad,
    }
}

fn ended_by_ok(payload: &[u8]) -> Kind
    ensures { result ≡ end_kind true payload.now }
{
    match end_ok_status(payload) {
        Some(status) => Kind::End(status),
        None => Kind::Bad,
    }
}

fn ended_by_eof(payload: &[u8]) -> Kind
    ensures { result ≡ end_kind false payload.now }
{
    match read_eof(payload) {
        Ok(eof) => Kind::End(eof.status),
        Err(_) => Kind::Bad,
    }
}

fn ended(with_ok: bool, payload: &[u8]) -> Kind
    ensures { result ≡ end_kind with_ok payload.now }
{
    if with_ok {
        ended_by_ok(payload)
    } else {
        ended_by_eof(payload)
    }
}

fn has_cells(rows: RowFormat, count: u16, columns: &[Column], payload: &[u8]) -> bool
    ensures { result ≡ is_some (cells_at rows count columns.now payload.now) }
{
    match rows {
        RowFormat::Text => is_text_row(count as usize, payload),
        RowFormat::Binary => is_binary_row(columns, payload),
    }
}

fn cells(rows: RowFormat, count: u16, columns: &[Column], payload: &[u8]) -> Kind
    ensures { result ≡ cells_kind (cells_at rows count columns.now payload.now) }
{
    if has_cells(rows, count, columns, payload) {
        Kind::Row
    } else {
        Kind::Bad
    }
}

fn single(payload: &[u8]) -> Kind
    ensures { result ≡ single_kind payload.now }
{
    first_of(good(payload), failed(payload, false))
}

// A payload of a chain in which the client shows who it is.
fn authentication(stand: AuthStand, payload: &[u8]) -> Kind
    ensures { result ≡ auth_kind stand payload.now }
{
    match stand.read(payload) {
        AuthMove::Over => single(payload),
        AuthMove::Ask(ask) => Kind::Asks(ask),
        AuthMove::Refuse(_) => Kind::Bad,
    }
}

fn head(payload: &[u8]) -> Kind
    ensures { result ≡ head_kind payload.now }
{
    first_of(
        good(payload),
        first_of(failed(payload, false), counts(payload)),
    )
}

fn row(context: Context, columns: &[Column], payload: &[u8]) -> Kind
    ensures { result ≡ row_kind context.rows (deprecates_eof context.terms.kept)
        context.columns columns.now payload.now }
{
    let cells = cells(context.rows, context.columns, columns, payload);
    first_of(
        ended(context.terms.kept.deprecates_eof(), payload),
        first_of(failed(payload, false), cells),
    )
}

fn greeting(payload: &[u8]) -> Kind
    ensures { result ≡ greeting_kind payload.now }
{
    first_of(greets(payload), failed(payload, true))
}

fn prepared(payload: &[u8]) -> Kind
    ensures { result ≡ prepared_kind (prepare_ok_at payload.now) }
{
    match read_prepare_ok(payload) {
        Ok(head) => Kind::Prepared {
            params: head.params,
            columns: head.columns,
        },
        Err(_) => Kind::Bad,
    }
}

fn prepare(payload: &[u8]) -> Kind
    ensures { result ≡ prepare_kind payload.now }
{
    first_of(prepared(payload), failed(payload, false))
}

/// What the payload is in this context, where the columns of the set that is being read are these.
pub fn kind_at(context: Context, columns: &[Column], payload: &[u8]) -> Kind
    ensures { result ≡ kind_there context columns.now payload.now }
{
    match context.spot {
        Spot::Idle => Kind::Bad,
        Spot::Greeting(_) => greeting(payload),
        Spot::Authentication(stand) => authentication(stand, payload),
        Spot::Single => single(payload),
        Spot::Head | Spot::Further => head(payload),
        Spot::Columns(_) => described(Kind::Column, payload),
        Spot::ColumnsEnd | Spot::ParametersEnd(_) | Spot::FieldsEnd => done(payload),
        Spot::Rows => row(context, columns, payload),
        Spot::Prepare => prepare(payload),
        Spot::Parameters { .. } => described(Kind::Parameter, payload),
        Spot::Fields(_) => described(Kind::Field, payload),
    }
}
