//! Reads values, which are written as they are printed.
ghost use Rattle.std.specs.Prelude.{◌≡◌, ◌≤◌, IfOk, IfSome, option_map};
ghost use Rattle.my_script.specs.ValueWord.{NumberWords, number_before, number_view, day_of, clock_of, date_of, time_of, bits_in, float_of, double_of, digits_value, value_with, value_of};

use super::cut::cut;
use super::number::{number, number_to, pairs, signed};
use my_frame::{Blob, NoMemory};
use my_value::Value;
use std::alloc::Global;

// A number before a mark, and what follows the mark.
#[derive(Clone, Copy)]
struct NumberAnd<'a> {
    number: u64,
    rest: &'a [u8],
}

#[tactic(auto, unfolding(crate::specs::ValueWord::number_before))]
fn number_before(mark: u8, most: u64, bytes: &[u8]) -> Option<NumberAnd<'_>>
    ensures words { option_map number_view result ≡ number_before mark most bytes.now }
    ensures within { IfSome result (λ n. n.number ≤ most) }
{
    let pieces = cut(mark, bytes);
    let number = number_to(most, pieces.first)?;
    let rest = pieces.rest?;
    Some(NumberAnd { number, rest })
}

/// Year, month and day.
#[derive(Clone, Copy)]
pub struct Day {
    pub year: u16,
    pub month: u8,
    pub day: u8,
}

#[tactic(auto, unfolding(crate::specs::ValueWord::day_of))]
fn read_day(bytes: &[u8]) -> Option<Day>
    ensures { result ≡ day_of bytes.now }
{
    let year = number_before(b'-', 65535, bytes)?;
    let month = number_before(b'-', 255, year.rest)?;
    let day = number_to(255, month.rest)?;
    Some(Day {
        year: year.number as u16,
        month: month.number as u8,
        day: day as u8,
    })
}

/// Hours, minutes, seconds and microseconds.
#[derive(Clone, Copy)]
pub struct Clock {
    pub hour: u8,
    pub minute: u8,
    pub second: u8,
    pub micros: u32,
}

#[tactic(auto, unfolding(crate::specs::ValueWord::clock_of))]
fn read_clock(bytes: &[u8]) -> Option<Clock>
    ensures { result ≡ clock_of bytes.now }
{
    let hour = number_before(b':', 255, bytes)?;
    let minute = number_before(b':', 255, hour.rest)?;
    let second = number_before(b'.', 255, minute.rest)?;
    let micros = number_to(4294967295, second.rest)?;
    Some(Clock {
        hour: hour.number as u8,
        minute: minute.number as u8,
        second: second.number as u8,
        micros: micros as u32,
    })
}

#[tactic(auto, unfolding(crate::specs::ValueWord::date_of))]
fn date(bytes: &[u8]) -> Option<Value>
    ensures { result ≡ date_of bytes.now }
{
    let pieces = cut(b'_', bytes);
    let day = read_day(pieces.first)?;
    let clock = read_clock(pieces.rest?)?;
    Some(Value::Date(
        day.year,
        day.month,
        day.day,
        clock.hour,
        clock.minute,
        clock.second,
        clock.micros,
    ))
}

#[tactic(auto, unfolding(crate::specs::ValueWord::time_of))]
fn time(bytes: &[u8]) -> Option<Value>
    ensures { result ≡ time_of bytes.now }
{
    let sign = number_before(b'_', 1, bytes)?;
    let days = number_before(b'_', 4294967295, sign.rest)?;
    let clock = read_clock(days.rest)?;
    Some(Value::Time(
        sign.number == 1,
        days.number as u32,
        clock.hour,
        clock.minute,
        clock.second,
        clock.micros,
    ))
}

fn float(bits: &[u8]) -> Option<Value>
    ensures { result ≡ float_of bits.now }
{
    if bits.len() != 4 {
        return None;
    }
    let bits = u32::from_be_bytes([bits[0], bits[1], bits[2], bits[3]]);
    Some(Value::FloatBits(bits))
}

fn double(bits: &[u8]) -> Option<Value>
    ensures { result ≡ double_of bits.now }
{
    if bits.len() != 8 {
        return None;
    }
    let bits = u64::from_be_bytes([
        bits[0], bits[1], bits[2], bits[3], bits[4], bits[5], bits[6], bits[7],
    ]);
    Some(Value::DoubleBits(bits))
}

fn digits_value(kind: &[u8], bytes: Option<Blob>) -> Option<Value>
    ensures { result ≡ digits_value kind.now bytes }
{
    let bytes = bytes?;
    if kind == b"b".as_slice() {
        return Some(Value::Bytes(bytes));
    }
    if kind == b"f".as_slice() {
        return float(bytes.as_slice());
    }
    if kind == b"d".as_slice() {
        return double(bytes.as_slice());
    }
    None
}

fn value_with(alloc: Global, kind: &[u8], rest: &[u8]) -> Result<Option<Value>, NoMemory>
    ensures { IfOk result (λ read. read ≡ value_with kind.now (Some rest.now)) }
{
    if kind == b"i".as_slice() {
        return Ok(signed(rest).map(Value::Int));
    }
    if kind == b"u".as_slice() {
        return Ok(number(rest).map(Value::UInt));
    }
    if kind == b"D".as_slice() {
        return Ok(date(rest));
    }
    if kind == b"T".as_slice() {
        return Ok(time(rest));
    }
    let bytes = pairs(alloc, rest)?;
    Ok(digits_value(kind, bytes))
}

/// A value as it is printed.
pub fn value(alloc: Global, word: &[u8]) -> Result<Option<Value>, NoMemory>
    ensures { IfOk result (λ read. read ≡ value_of word.now) }
{
    let pieces = cut(b':', word);
    match pieces.rest {
        Some(rest) => value_with(alloc, pieces.first, rest),
        None => {
            if pieces.first == b"NULL".as_slice() {
                return Ok(Some(Value::NULL));
            }
            Ok(None)
        }
    }
}
