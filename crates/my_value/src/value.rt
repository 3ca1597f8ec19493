//! The value of a cell or of a parameter.

ghost use Rattle.std.specs.Prelude.{◌≡◌, IfOk};

use my_frame::{Blob, Copied, NoMemory};
use std::alloc::Global;

/// A value as the server and the client send it. Floats are kept and compared by their bits.
#[derive(Debug, Drop, PartialEq, Eq)]
pub enum Value {
    NULL,
    /// Bytes, text among them, as they were received.
    Bytes(Blob),
    Int(i64),
    UInt(u64),
    /// The bits of a FLOAT.
    FloatBits(u32),
    /// The bits of a DOUBLE.
    DoubleBits(u64),
    /// Year, month, day, hour, minute, second, microseconds.
    Date(u16, u8, u8, u8, u8, u8, u32),
    /// Whether it is negative, days, hours, minutes, seconds, microseconds.
    Time(bool, u32, u8, u8, u8, u32),
}

impl Value {
    /// A second value like this one.
    pub fn copy(&self, alloc: Global) -> Result<Value, NoMemory>
        ensures { IfOk result (λ v. v ≡ self.now) }
    {
        match self {
            Value::NULL => Ok(Value::NULL),
            Value::Bytes(bytes) => Ok(Value::Bytes(bytes.copy(alloc)?)),
            Value::Int(n) => Ok(Value::Int(*n)),
            Value::UInt(n) => Ok(Value::UInt(*n)),
            Value::FloatBits(bits) => Ok(Value::FloatBits(*bits)),
            Value::DoubleBits(bits) => Ok(Value::DoubleBits(*bits)),
            Value::Date(year, month, day, hour, minute, second, micros) => Ok(Value::Date(
                *year, *month, *day, *hour, *minute, *second, *micros,
            )),
            Value::Time(negative, days, hours, minutes, seconds, micros) => Ok(Value::Time(
                *negative, *days, *hours, *minutes, *seconds, *micros,
            )),
        }
    }
}

impl Copied for Value {
    fn copy(&self, alloc: Global) -> Result<Value, NoMemory> {
        Value::copy(self, alloc)
    }
}
