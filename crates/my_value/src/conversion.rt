//! Conversion of one value.

ghost use Rattle.std.specs.Prelude.{◌≡◌, IfOk, IfErr};
ghost use Rattle.my_value.specs.Refusals.{Refuses};

use crate::shown::ShownValue;
use crate::value::Value;
use my_frame::NoMemory;
use std::alloc::Global;
use std::fmt;

/// Why a value wasn't converted.
#[derive(Debug, Drop, PartialEq, Eq)]
pub enum FromValueError {
    /// The value, which doesn't convert to the type that was asked for.
    Value(Value),
    NoMemory,
}

impl fmt::Display for FromValueError {
    fn fmt<W: fmt::Write>(&self, f: &mut fmt::Formatter<W>) -> fmt::Result {
        match self {
            FromValueError::Value(value) => {
                write!(f, "the value doesn't convert: {}", ShownValue(value))
            }
            FromValueError::NoMemory => f.write_str("out of memory"),
        }
    }
}

impl std::error::Error for FromValueError {}

impl FromValueError {
    /// A second value of the same error.
    pub fn copy(&self, alloc: Global) -> Result<FromValueError, NoMemory>
        ensures { IfOk result (λ copy. copy ≡ self.now) }
    {
        match self {
            FromValueError::Value(value) => Ok(FromValueError::Value(value.copy(alloc)?)),
            FromValueError::NoMemory => Ok(FromValueError::NoMemory),
        }
    }
}

/// A type that values of cells convert to.
pub trait FromValue: Sized {
    ghost use Rattle.my_value.specs.declared.value.Value as value;

    /// The values that convert.
    ghost converts: { value.Value → Type 0 };

    /// What a value becomes.
    ghost becomes: { value.Value → Self → Type 0 };

    /// The converted value; where it doesn't convert it is given back.
    fn from_value_opt(alloc: Global, value: Value) -> Result<Self, FromValueError>
        ensures converted { IfOk result (becomes value) }
        ensures refused { IfErr result (Refuses (converts value) value) };

    /// What becomes something converts.
    ghost only_what_converts: { (v : value.Value) (x : Self) → becomes v x → converts v };
}

/// Converts a value.
pub fn from_value<T: FromValue>(alloc: Global, value: Value) -> Result<T, FromValueError>
    ensures converted { IfOk result (T.becomes value) }
    ensures refused { IfErr result (Refuses (T.converts value) value) }
{
    T::from_value_opt(alloc, value)
}

impl FromValue for Value {
    ghost converts = { λ _. Unit {0} };

    ghost becomes = { λ v x. x ≡ v };

    ghost only_what_converts = { λ v x h. tt };

    fn from_value_opt(_alloc: Global, value: Value) -> Result<Value, FromValueError> {
        Ok(value)
    }
}
