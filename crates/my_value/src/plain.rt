//! Conversion to truth values, text, bytes, and to what may be missing.

ghost use Rattle.std.specs.Prelude.{◌≡◌, ◌⊎◌, Option, IsUtf8, string_bytes};
ghost use Rattle.my_value.specs.Conversions.{Becomes, HoldsBytes, HoldsText, IsOptional, IsTruth};
ghost use Rattle.my_value.specs.ConversionLaws.{optional_converts};
ghost use Rattle.my_value.specs.declared.value.Value.TheVariants as values;

use crate::conversion::{FromValue, FromValueError};
use crate::value::Value;
use my_frame::Blob;
use std::alloc::Global;

impl FromValue for bool {
    ghost converts = { Becomes IsTruth };

    ghost becomes = { IsTruth };

    ghost only_what_converts = { λ v b h. (b, h) };

    fn from_value_opt(_alloc: Global, value: Value) -> Result<bool, FromValueError> {
        match &value {
            Value::Int(0) | Value::UInt(0) => Ok(false),
            Value::Int(1) | Value::UInt(1) => Ok(true),
            Value::Bytes(text) => match text.as_slice() {
                b"0" => Ok(false),
                b"1" => Ok(true),
                _ => Err(FromValueError::Value(value)),
            },
            _ => Err(FromValueError::Value(value)),
        }
    }
}

impl FromValue for Vec<u8> {
    ghost converts = { Becomes HoldsBytes };

    ghost becomes = { λ v x. HoldsBytes v x.items };

    ghost only_what_converts = { λ v x h. (x.items, h) };

    fn from_value_opt(_alloc: Global, value: Value) -> Result<Vec<u8>, FromValueError> {
        match value {
            Value::Bytes(bytes) => Ok(bytes.into_vec()),
            value => Err(FromValueError::Value(value)),
        }
    }
}

impl FromValue for String {
    ghost converts = { Becomes HoldsText };

    ghost becomes = { λ v s. HoldsText v (string_bytes s) };

    ghost only_what_converts = { λ v s h. (string_bytes s, h) };

    fn from_value_opt(_alloc: Global, value: Value) -> Result<String, FromValueError> {
        match value {
            Value::Bytes(bytes) => match String::from_utf8(bytes.into_vec()) {
                Ok(text) => Ok(text),
                Err(e) => Err(FromValueError::Value(Value::Bytes(Blob::from(e.into_bytes())))),
            },
            value => Err(FromValueError::Value(value)),
        }
    }
}

impl<T: FromValue> FromValue for Option<T> {
    ghost converts = { λ v. (v ≡ values.NULL) ⊎ T.converts v };

    ghost becomes = { IsOptional T.becomes };

    ghost only_what_converts = { λ v x h. optional_converts T.converts T.becomes T.only_what_converts v x h };

    fn from_value_opt(alloc: Global, value: Value) -> Result<Option<T>, FromValueError> {
        match value {
            Value::NULL => Ok(None),
            value => Ok(Some(T::from_value_opt(alloc, value)?)),
        }
    }
}
