//! Values as they are sent as parameters.

ghost use Rattle.std.specs.Prelude.{◌≡◌, ◌+◌, ◌-◌, ◌<◌, ◌≤◌, ◌^◌, ◌++◌, [], ◌∷◌, List, OnOk, length, min};
ghost use Rattle.my_frame.specs.Writing.{len_bytes};
ghost use Rattle.my_params.specs.Sending.{date_len, date_parts, sized_bytes, time_len, time_parts, type_of, value_bytes, values_len};

use my_command::statement::ParameterType;
use my_frame::NoMemory;
use my_frame::writing::{put_text, put_u32, put_u64};
use my_value::Value;

/// The type that a value is sent with.
pub fn type_of(value: &Value) -> ParameterType
    ensures { result ≡ type_of value.now }
{
    let (kind, flag) = match value {
        Value::NULL => (6, 0),
        Value::Bytes(_) => (253, 0),
        Value::Int(_) => (8, 0),
        Value::UInt(_) => (8, 0x80),
        Value::FloatBits(_) => (4, 0),
        Value::DoubleBits(_) => (5, 0),
        Value::Date(..) => (12, 0),
        Value::Time(..) => (11, 0),
    };
    ParameterType { kind, flag }
}

// Writes the first `len` parts after their number.
fn put_parts(out: &mut Vec<u8>, parts: &[u8], len: usize) -> Result<(), NoMemory>
    requires small { len < 256 }
    requires within { len ≤ length parts.now }
    ensures { OnOk result (out.new.items ≡ out.old.items ++ sized_bytes len parts.now) }
{
    out.push(len as u8)?;
    out.extend_from_slice(&parts[..len])?;
    Ok(())
}

// How many bytes of a date's parts are sent.
fn date_len(year: u16, month: u8, day: u8, hour: u8, minute: u8, second: u8, micros: u32) -> usize
    ensures len { result ≡ date_len year month day hour minute second micros }
    ensures within { result ≤ 11 }
{
    if micros != 0 {
        return 11;
    }
    if hour != 0 || minute != 0 || second != 0 {
        return 7;
    }
    if year != 0 || month != 0 || day != 0 {
        return 4;
    }
    0
}

// How many bytes of a time's parts are sent.
fn time_len(negative: bool, days: u32, hours: u8, minutes: u8, seconds: u8, micros: u32) -> usize
    ensures len { result ≡ time_len negative days hours minutes seconds micros }
    ensures within { result ≤ 12 }
{
    if micros != 0 {
        return 12;
    }
    if negative || days != 0 || hours != 0 || minutes != 0 || seconds != 0 {
        return 8;
    }
    0
}

#[tactic(auto, unfolding(my_frame::specs::Writing::le_bytes))]
fn date_parts(
    year: u16,
    month: u8,
    day: u8,
    hour: u8,
    minute: u8,
    second: u8,
    micros: u32,
) -> [u8; 11]
    ensures { result ≡ date_parts year month day hour minute second micros }
{
    [
        (year % 256) as u8,
        (year / 256 % 256) as u8,
        month,
        day,
        hour,
        minute,
        second,
        (micros % 256) as u8,
        (micros / 256 % 256) as u8,
        (micros / 256 / 256 % 256) as u8,
        (micros / 256 / 256 / 256 % 256) as u8,
    ]
}

#[tactic(auto, unfolding(my_frame::specs::Writing::le_bytes))]
fn time_parts(
    negative: bool,
    days: u32,
    hours: u8,
    minutes: u8,
    seconds: u8,
    micros: u32,
) -> [u8; 12]
    ensures { result ≡ time_parts negative days hours minutes seconds micros }
{
    let sign = if negative { 1 } else { 0 };
    [
        sign,
        (days % 256) as u8,
        (days / 256 % 256) as u8,
        (days / 256 / 256 % 256) as u8,
        (days / 256 / 256 / 256 % 256) as u8,
        hours,
        minutes,
        seconds,
        (micros % 256) as u8,
        (micros / 256 % 256) as u8,
        (micros / 256 / 256 % 256) as u8,
        (micros / 256 / 256 / 256 % 256) as u8,
    ]
}

/// Writes a value.
pub fn put_value(out: &mut Vec<u8>, value: &Value) -> Result<(), NoMemory>
    ensures { OnOk result (out.new.items ≡ out.old.items ++ value_bytes value.now) }
{
    match value {
        Value::NULL => Ok(()),
        Value::Bytes(text) => put_text(out, text.as_slice()),
        Value::Int(n) => put_u64(out, n.cast_unsigned()),
        Value::UInt(n) => put_u64(out, *n),
        Value::FloatBits(bits) => put_u32(out, *bits),
        Value::DoubleBits(bits) => put_u64(out, *bits),
        Value::Date(year, month, day, hour, minute, second, micros) => {
            let parts = date_parts(*year, *month, *day, *hour, *minute, *second, *micros);
            let len = date_len(*year, *month, *day, *hour, *minute, *second, *micros);
            put_parts(out, &parts, len)
        }
        Value::Time(negative, days, hours, minutes, seconds, micros) => {
            let parts = time_parts(*negative, *days, *hours, *minutes, *seconds, *micros);
            let len = time_len(*negative, *days, *hours, *minutes, *seconds, *micros);
            put_parts(out, &parts, len)
        }
    }
}

// How many bytes a length-encoded number takes.
#[tactic(auto, unfolding(my_frame::specs::Writing::le_bytes, my_frame::specs::Writing::len_bytes))]
fn len_len(number: u64) -> u64
    ensures len { result ≡ length (len_bytes number) }
    ensures within { result ≤ 9 }
{
    if number < 0xFB {
        1
    } else if number < 0x1_0000 {
        3
    } else if number < 0x100_0000 {
        4
    } else {
        9
    }
}

// How many bytes a value takes.
#[tactic(auto, unfolding(my_frame::specs::Writing::le_bytes, my_frame::specs::Writing::len_bytes, my_frame::specs::Writing::text_bytes))]
fn value_len(value: &Value) -> u64
    ensures { result ≡ length (value_bytes value.now) }
{
    match value {
        Value::NULL => 0,
        Value::Bytes(text) => {
            let len = text.as_slice().len() as u64;
            len_len(len) + len
        }
        Value::Int(_) | Value::UInt(_) | Value::DoubleBits(_) => 8,
        Value::FloatBits(_) => 4,
        Value::Date(year, month, day, hour, minute, second, micros) => {
            1 + date_len(*year, *month, *day, *hour, *minute, *second, *micros) as u64
        }
        Value::Time(negative, days, hours, minutes, seconds, micros) => {
            1 + time_len(*negative, *days, *hours, *minutes, *seconds, *micros) as u64
        }
    }
}

/// How many bytes the values take, or 2^64 - 1 where they take more.
pub fn values_len(values: &[Value]) -> u64
    ensures { result ≡ min (values_len values.now) (2 ^ 64 - 1) }
{
    let mut len = 0u64;
    for value in values {
        len = len.saturating_add(value_len(value));
    }
    len
}
