//! Reads a line of a script.
ghost use Rattle.std.specs.Prelude.{◌≡◌, IfOk, option_map};
ghost use Rattle.my_script.specs.Beginning.{begin_parts};
ghost use Rattle.my_script.specs.Changing.{user_parts};
ghost use Rattle.my_script.specs.Execution.{statement_parts};
ghost use Rattle.my_script.specs.Line.{query_parts, query_view, text_as, text_item, no_params, executed_with, execute_item, close_item, begin_item, user_item, connection_item, moving_item, bare_item, item_with, line_of};

use super::beginning::{begin_parts, options_in};
use super::changing::{change, user_parts};
use super::cut::cut;
use super::execution::{params_in, statement_parts};
use super::item::Item;
use super::keyword::{Keyword, known_keyword};
use super::number::{number, number_to};
use super::plan::{LAST_LINK, accept_line, bytes_line, dial_line, link_line, packet_line};
use crate::Step;
use my_frame::{Blob, Listed, NoMemory};
use my_params::Params;
use std::alloc::Global;

// What follows `query` and `prep`: a connection and a text, which may be empty.
#[derive(Clone, Copy)]
struct QueryParts<'a> {
    connection: u64,
    text: &'a [u8],
}

#[tactic(auto, unfolding(crate::specs::Line::query_parts))]
fn connection_and_text(rest: &[u8]) -> Option<QueryParts<'_>>
    ensures { option_map query_view result ≡ query_parts rest.now }
{
    let first = cut(b' ', rest);
    let connection = number(first.first)?;
    let text = first.rest?;
    Some(QueryParts { connection, text })
}

// A text is sent, or prepared.
fn text_as(keyword: Keyword, connection: u64, text: Blob) -> Item
    ensures { result ≡ text_as keyword connection text }
{
    match keyword {
        Keyword::Query => Item::Steps(Step::Query(connection, text)),
        Keyword::Prepare => Item::Steps(Step::Prepare(connection, text)),
        _ => Item::Wrong,
    }
}

fn text_line(alloc: Global, keyword: Keyword, rest: &[u8]) -> Result<Item, NoMemory>
    ensures { IfOk result (λ item. item ≡ text_item keyword (query_parts rest.now)) }
{
    match connection_and_text(rest) {
        None => Ok(Item::Wrong),
        Some(parts) => {
            let text = Blob::from_slice(alloc, parts.text)?;
            Ok(text_as(keyword, parts.connection, text))
        }
    }
}

fn no_params(alloc: Global, keyword: Keyword) -> Params
    ensures { result ≡ no_params keyword }
{
    match keyword {
        Keyword::ExecuteNamed => Params::Named(Listed::new(alloc)),
        _ => Params::Positional(Listed::new(alloc)),
    }
}

fn executed_with(connection: u64, statement: u64, params: Option<Params>) -> Item
    ensures { result ≡ executed_with connection statement params }
{
    match params {
        None => Item::Wrong,
        Some(params) => Item::Steps(Step::Execute(connection, statement, params)),
    }
}

fn execute_line(alloc: Global, keyword: Keyword, rest: &[u8]) -> Result<Item, NoMemory>
    ensures { IfOk result (λ item. item ≡ execute_item keyword (statement_parts rest.now)) }
{
    match statement_parts(rest) {
        None => Ok(Item::Wrong),
        Some(parts) => {
            let params = params_in(alloc, no_params(alloc, keyword), parts.rest)?;
            Ok(executed_with(parts.connection, parts.statement, params))
        }
    }
}

fn close_line(rest: &[u8]) -> Item
    ensures { result ≡ close_item (statement_parts rest.now) }
{
    match statement_parts(rest) {
        None => Item::Wrong,
        Some(parts) => match parts.rest {
            None => Item::Steps(Step::CloseStatement(parts.connection, parts.statement)),
            Some(_) => Item::Wrong,
        },
    }
}

fn begin_line(rest: &[u8]) -> Item
    ensures { result ≡ begin_item (begin_parts rest.now) }
{
    match begin_parts(rest) {
        None => Item::Wrong,
        Some(parts) => match options_in(parts.rest) {
            None => Item::Wrong,
            Some(opts) => Item::Steps(Step::Begin(parts.connection, opts)),
        },
    }
}

fn user_line(alloc: Global, rest: &[u8]) -> Result<Item, NoMemory>
    ensures { IfOk result (λ item. item ≡ user_item (user_parts rest.now)) }
{
    match user_parts(rest) {
        None => Ok(Item::Wrong),
        Some(parts) => {
            let change = change(alloc, parts.words)?;
            Ok(Item::Steps(Step::User(parts.connection, change)))
        }
    }
}

// The steps that name a connection and nothing else.
fn connection_line(keyword: Keyword, connection: Option<u64>) -> Item
    ensures { result ≡ connection_item keyword connection }
{
    match connection {
        None => Item::Wrong,
        Some(connection) => match keyword {
            Keyword::Next => Item::Steps(Step::Next(connection)),
            Keyword::Collect => Item::Steps(Step::Collect(connection)),
            Keyword::Stream => Item::Steps(Step::Stream(connection)),
            Keyword::StreamItem => Item::Steps(Step::Item(connection)),
            Keyword::Unstream => Item::Steps(Step::Unstream(connection)),
            Keyword::Drop => Item::Steps(Step::Drop(connection)),
            Keyword::Ping => Item::Steps(Step::Ping(connection)),
            Keyword::Reset => Item::Steps(Step::Reset(connection)),
            Keyword::Commit => Item::Steps(Step::Commit(connection)),
            Keyword::Rollback => Item::Steps(Step::Rollback(connection)),
            Keyword::Forget => Item::Steps(Step::ForgetTransaction(connection)),
            Keyword::Quit => Item::Steps(Step::Quit(connection)),
            Keyword::Fields => Item::Steps(Step::Fields(connection)),
            Keyword::Poll => Item::Steps(Step::Poll(connection)),
            Keyword::Cancel => Item::Steps(Step::Cancel(connection)),
            _ => Item::Wrong,
        },
    }
}

// The steps that name a number and no connection.
fn moving_line(keyword: Keyword, number: Option<u64>) -> Item
    ensures { result ≡ moving_item keyword number }
{
    match number {
        None => Item::Wrong,
        Some(number) => match keyword {
            Keyword::Advance => Item::Steps(Step::Advance(number)),
            Keyword::Random => Item::Steps(Step::Random(number)),
            _ => Item::Wrong,
        },
    }
}

// The steps of one word.
fn bare(keyword: Keyword) -> Item
    ensures { result ≡ bare_item keyword }
{
    match keyword {
        Keyword::Conn => Item::Steps(Step::Conn),
        _ => Item::Wrong,
    }
}

fn with_arguments(alloc: Global, keyword: Keyword, rest: &[u8]) -> Result<Item, NoMemory>
    ensures { IfOk result (λ item. item ≡ item_with keyword rest.now) }
{
    match keyword {
        Keyword::Packet | Keyword::Drip => packet_line(alloc, keyword, rest),
        Keyword::Bytes => bytes_line(alloc, rest),
        Keyword::Accept => Ok(accept_line(rest)),
        Keyword::Dial => Ok(dial_line(rest)),
        Keyword::Query | Keyword::Prepare => text_line(alloc, keyword, rest),
        Keyword::Execute | Keyword::ExecuteNamed => execute_line(alloc, keyword, rest),
        Keyword::CloseStatement => Ok(close_line(rest)),
        Keyword::Begin => Ok(begin_line(rest)),
        Keyword::User => user_line(alloc, rest),
        Keyword::Turn
        | Keyword::Wait
        | Keyword::Fail
        | Keyword::End
        | Keyword::WriteWait
        | Keyword::WriteFail => Ok(link_line(keyword, number_to(LAST_LINK, rest))),
        Keyword::Next
        | Keyword::Collect
        | Keyword::Stream
        | Keyword::StreamItem
        | Keyword::Unstream
        | Keyword::Drop
        | Keyword::Ping
        | Keyword::Reset
        | Keyword::Commit
        | Keyword::Rollback
        | Keyword::Forget
        | Keyword::Quit
        | Keyword::Fields
        | Keyword::Poll
        | Keyword::Cancel => Ok(connection_line(keyword, number(rest))),
        Keyword::Advance | Keyword::Random => Ok(moving_line(keyword, number(rest))),
        Keyword::Conn | Keyword::Unknown => Ok(Item::Wrong),
    }
}

/// Reads a line, which has no line end.
pub fn read_line(alloc: Global, line: &[u8]) -> Result<Item, NoMemory>
    ensures { IfOk result (λ item. item ≡ line_of line.now) }
{
    if line.is_empty() || line[0] == b'#' {
        return Ok(Item::Nothing);
    }
    let pieces = cut(b' ', line);
    let keyword = known_keyword(pieces.first);
    match pieces.rest {
        None => Ok(bare(keyword)),
        Some(rest) => with_arguments(alloc, keyword, rest),
    }
}
