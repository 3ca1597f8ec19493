//! Reads the lines of a script that plan its world.
ghost use Rattle.std.specs.Prelude.{◌≡◌, IfOk, option_map};
ghost use Rattle.my_script.specs.Line.{packet_parts, link_parts, accept_parts, packet_view, link_view, accept_view, packet_as, packet_with, bytes_with, dial_with, packet_item, bytes_item, dial_item, accept_item, link_item};

use super::cut::cut;
use super::item::Item;
use super::keyword::Keyword;
use super::number::{bytes, number, number_to};
use my_frame::{Blob, NoMemory};
use my_link::WorldLine;
use std::alloc::Global;

/// The largest number of a link in a world's lines.
pub const LAST_LINK: u64 = 65535;

/// The longest payload of a packet line, which has one header.
pub const LONGEST_PAYLOAD: usize = 0xFFFFFE;

// What follows `packet` and `drip`: a link, a packet's number and a payload's digits.
#[derive(Clone, Copy)]
struct PacketParts<'a> {
    link: u64,
    number: u8,
    digits: &'a [u8],
}

#[tactic(auto, unfolding(crate::specs::Line::packet_parts))]
fn packet(rest: &[u8]) -> Option<PacketParts<'_>>
    ensures { option_map packet_view result ≡ packet_parts rest.now }
{
    let first = cut(b' ', rest);
    let link = number_to(LAST_LINK, first.first)?;
    let second = cut(b' ', first.rest?);
    let number = number_to(255, second.first)?;
    let digits = second.rest?;
    Some(PacketParts {
        link,
        number: number as u8,
        digits,
    })
}

// What follows `bytes` and `dial`: a link and what is said of it.
#[derive(Clone, Copy)]
struct LinkParts<'a> {
    link: u64,
    rest: &'a [u8],
}

#[tactic(auto, unfolding(crate::specs::Line::link_parts))]
fn link_and_rest(rest: &[u8]) -> Option<LinkParts<'_>>
    ensures { option_map link_view result ≡ link_parts rest.now }
{
    let first = cut(b' ', rest);
    let link = number_to(LAST_LINK, first.first)?;
    let rest = first.rest?;
    Some(LinkParts { link, rest })
}

// What follows `accept`: a link and how many bytes.
#[derive(Clone, Copy)]
struct AcceptParts {
    link: u64,
    count: u64,
}

#[tactic(auto, unfolding(crate::specs::Line::accept_parts))]
fn link_and_count(rest: &[u8]) -> Option<AcceptParts>
    ensures { option_map accept_view result ≡ accept_parts rest.now }
{
    let first = cut(b' ', rest);
    let link = number_to(LAST_LINK, first.first)?;
    let count = number(first.rest?)?;
    Some(AcceptParts { link, count })
}

// A packet comes whole, or byte by byte.
fn packet_as(keyword: Keyword, link: u64, number: u8, payload: Blob) -> Item
    ensures { result ≡ packet_as keyword link number payload }
{
    match keyword {
        Keyword::Packet => Item::Plans(WorldLine::Packet(link, number, payload)),
        Keyword::Drip => Item::Plans(WorldLine::Drip(link, number, payload)),
        _ => Item::Wrong,
    }
}

fn planned_packet(keyword: Keyword, link: u64, number: u8, payload: Option<Blob>) -> Item
    ensures { result ≡ packet_with keyword link number payload }
{
    match payload {
        None => Item::Wrong,
        Some(payload) => {
            if payload.len() > LONGEST_PAYLOAD {
                return Item::Wrong;
            }
            packet_as(keyword, link, number, payload)
        }
    }
}

fn planned_bytes(link: u64, bytes: Option<Blob>) -> Item
    ensures { result ≡ bytes_with link bytes }
{
    match bytes {
        None => Item::Wrong,
        Some(bytes) => {
            if bytes.is_empty() {
                return Item::Wrong;
            }
            Item::Plans(WorldLine::Bytes(link, bytes))
        }
    }
}

/// Reads what follows `packet` and `drip`.
pub fn packet_line(alloc: Global, keyword: Keyword, rest: &[u8]) -> Result<Item, NoMemory>
    ensures { IfOk result (λ item. item ≡ packet_item keyword (packet_parts rest.now)) }
{
    match packet(rest) {
        None => Ok(Item::Wrong),
        Some(parts) => {
            let payload = bytes(alloc, parts.digits)?;
            Ok(planned_packet(keyword, parts.link, parts.number, payload))
        }
    }
}

/// Reads what follows `bytes`.
pub fn bytes_line(alloc: Global, rest: &[u8]) -> Result<Item, NoMemory>
    ensures { IfOk result (λ item. item ≡ bytes_item (link_parts rest.now)) }
{
    match link_and_rest(rest) {
        None => Ok(Item::Wrong),
        Some(parts) => {
            let read = bytes(alloc, parts.rest)?;
            Ok(planned_bytes(parts.link, read))
        }
    }
}

// A dial waits or fails.
fn planned_dial(link: u64, word: &[u8]) -> Item
    ensures { result ≡ dial_with link word.now }
{
    if word == b"wait".as_slice() {
        return Item::Plans(WorldLine::DialWait(link));
    }
    if word == b"fail".as_slice() {
        return Item::Plans(WorldLine::DialFail(link));
    }
    Item::Wrong
}

/// Reads what follows `dial`.
pub fn dial_line(rest: &[u8]) -> Item
    ensures { result ≡ dial_item (link_parts rest.now) }
{
    match link_and_rest(rest) {
        None => Item::Wrong,
        Some(parts) => planned_dial(parts.link, parts.rest),
    }
}

/// Reads what follows `accept`.
pub fn accept_line(rest: &[u8]) -> Item
    ensures { result ≡ accept_item (accept_parts rest.now) }
{
    match link_and_count(rest) {
        None => Item::Wrong,
        Some(parts) => Item::Plans(WorldLine::Accept(parts.link, parts.count)),
    }
}

/// The lines that name a link and nothing else.
pub fn link_line(keyword: Keyword, link: Option<u64>) -> Item
    ensures { result ≡ link_item keyword link }
{
    match link {
        None => Item::Wrong,
        Some(link) => match keyword {
            Keyword::Turn => Item::Plans(WorldLine::Turn(link)),
            Keyword::Wait => Item::Plans(WorldLine::Wait(link)),
            Keyword::Fail => Item::Plans(WorldLine::Fail(link)),
            Keyword::End => Item::Plans(WorldLine::End(link)),
            Keyword::WriteWait => Item::Plans(WorldLine::WriteWait(link)),
            Keyword::WriteFail => Item::Plans(WorldLine::WriteFail(link)),
            _ => Item::Wrong,
        },
    }
}
