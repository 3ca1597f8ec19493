//! Conversion to whole numbers.

ghost use Rattle.std.specs.Prelude.{◌≡◌, ℤ, MatchOption, FitsSigned};
ghost use Rattle.std.specs.Int.{w8, w16, w32, w64, w128};
ghost use Rattle.my_value.specs.Conversions.{Becomes, IsDecimal, IsSigned, IsUnsigned, IsWhole};

use crate::conversion::{FromValue, FromValueError};
use crate::value::Value;
use std::alloc::Global;

// The whole number that a text writes.
fn decimal(text: &[u8]) -> Option<i128>
    ensures { MatchOption result ((z : ℤ) → IsDecimal text.now z → FitsSigned w128 z → ⊥) (IsDecimal text.now) }
{
    match str::from_utf8(text) {
        Ok(text) => match text.parse::<i128>() {
            Ok(n) => Some(n),
            Err(_) => None,
        },
        Err(_) => None,
    }
}

// The whole number that a value is.
fn whole(value: &Value) -> Option<i128>
    ensures { MatchOption result ((z : ℤ) → IsWhole value.now z → FitsSigned w128 z → ⊥) (IsWhole value.now) }
{
    match value {
        Value::Int(n) => Some(i128::from(*n)),
        Value::UInt(n) => Some(i128::from(*n)),
        Value::Bytes(text) => decimal(text.as_slice()),
        _ => None,
    }
}

impl FromValue for u8 {
    ghost converts = { Becomes (IsUnsigned 8) };

    ghost becomes = { IsUnsigned 8 };

    ghost only_what_converts = { λ v n h. (n, h) };

    fn from_value_opt(_alloc: Global, value: Value) -> Result<u8, FromValueError> {
        match whole(&value) {
            Some(n) => match u8::try_from(n) {
                Ok(n) => Ok(n),
                Err(_) => Err(FromValueError::Value(value)),
            },
            None => Err(FromValueError::Value(value)),
        }
    }
}

impl FromValue for u16 {
    ghost converts = { Becomes (IsUnsigned 16) };

    ghost becomes = { IsUnsigned 16 };

    ghost only_what_converts = { λ v n h. (n, h) };

    fn from_value_opt(_alloc: Global, value: Value) -> Result<u16, FromValueError> {
        match whole(&value) {
            Some(n) => match u16::try_from(n) {
                Ok(n) => Ok(n),
                Err(_) => Err(FromValueError::Value(value)),
            },
            None => Err(FromValueError::Value(value)),
        }
    }
}

impl FromValue for u32 {
    ghost converts = { Becomes (IsUnsigned 32) };

    ghost becomes = { IsUnsigned 32 };

    ghost only_what_converts = { λ v n h. (n, h) };

    fn from_value_opt(_alloc: Global, value: Value) -> Result<u32, FromValueError> {
        match whole(&value) {
            Some(n) => match u32::try_from(n) {
                Ok(n) => Ok(n),
                Err(_) => Err(FromValueError::Value(value)),
            },
            None => Err(FromValueError::Value(value)),
        }
    }
}

impl FromValue for u64 {
    ghost converts = { Becomes (IsUnsigned 64) };

    ghost becomes = { IsUnsigned 64 };

    ghost only_what_converts = { λ v n h. (n, h) };

    fn from_value_opt(_alloc: Global, value: Value) -> Result<u64, FromValueError> {
        match whole(&value) {
            Some(n) => match u64::try_from(n) {
                Ok(n) => Ok(n),
                Err(_) => Err(FromValueError::Value(value)),
            },
            None => Err(FromValueError::Value(value)),
        }
    }
}

impl FromValue for i8 {
    ghost converts = { Becomes (IsSigned w8) };

    ghost becomes = { IsSigned w8 };

    ghost only_what_converts = { λ v z h. (z, h) };

    fn from_value_opt(_alloc: Global, value: Value) -> Result<i8, FromValueError> {
        match whole(&value) {
            Some(n) => match i8::try_from(n) {
                Ok(n) => Ok(n),
                Err(_) => Err(FromValueError::Value(value)),
            },
            None => Err(FromValueError::Value(value)),
        }
    }
}

impl FromValue for i16 {
    ghost converts = { Becomes (IsSigned w16) };

    ghost becomes = { IsSigned w16 };

    ghost only_what_converts = { λ v z h. (z, h) };

    fn from_value_opt(_alloc: Global, value: Value) -> Result<i16, FromValueError> {
        match whole(&value) {
            Some(n) => match i16::try_from(n) {
                Ok(n) => Ok(n),
                Err(_) => Err(FromValueError::Value(value)),
            },
            None => Err(FromValueError::Value(value)),
        }
    }
}

impl FromValue for i32 {
    ghost converts = { Becomes (IsSigned w32) };

    ghost becomes = { IsSigned w32 };

    ghost only_what_converts = { λ v z h. (z, h) };

    fn from_value_opt(_alloc: Global, value: Value) -> Result<i32, FromValueError> {
        match whole(&value) {
            Some(n) => match i32::try_from(n) {
                Ok(n) => Ok(n),
                Err(_) => Err(FromValueError::Value(value)),
            },
            None => Err(FromValueError::Value(value)),
        }
    }
}

impl FromValue for i64 {
    ghost converts = { Becomes (IsSigned w64) };

    ghost becomes = { IsSigned w64 };

    ghost only_what_converts = { λ v z h. (z, h) };

    fn from_value_opt(_alloc: Global, value: Value) -> Result<i64, FromValueError> {
        match whole(&value) {
            Some(n) => match i64::try_from(n) {
                Ok(n) => Ok(n),
                Err(_) => Err(FromValueError::Value(value)),
            },
            None => Err(FromValueError::Value(value)),
        }
    }
}
