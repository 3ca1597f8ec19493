//! Values and parameters, made of what a program has.
ghost use Rattle.std.specs.Prelude.{◌≡◌, IfOk};
ghost use Rattle.my_params.specs.declared.params.Params.TheVariants as params;
ghost use Rattle.my_value.specs.declared.value.Value.TheVariants as values;

use my_frame::{Blob, Listed, NoMemory};
use my_params::Params;
use my_value::Value;
use std::alloc::Global;

/// The value of a text, which is copied.
pub fn text(alloc: Global, text: &str) -> Result<Value, NoMemory>
    ensures { IfOk result (λ v. v ≡ values.Bytes text.now) }
{
    Ok(Value::Bytes(Blob::from_slice(alloc, text.as_bytes())?))
}

/// The value of these bytes, which are copied.
pub fn bytes(alloc: Global, bytes: &[u8]) -> Result<Value, NoMemory>
    ensures { IfOk result (λ v. v ≡ values.Bytes bytes.now) }
{
    Ok(Value::Bytes(Blob::from_slice(alloc, bytes)?))
}

/// Parameters by their places: one value for each `?`.
pub fn positional<const N: usize>(alloc: Global, values: [Value; N]) -> Result<Params, NoMemory>
    ensures { IfOk result (λ p. p ≡ params.Positional values.entry) }
{
    let values = Vec::from_array(alloc, values)?;
    Ok(Params::Positional(Listed::from(values)))
}

/// Parameters by their names: a value for each name. Of several pairs with one name the last counts.
pub fn named<const N: usize>(alloc: Global, pairs: [(Blob, Value); N]) -> Result<Params, NoMemory>
    ensures { IfOk result (λ p. p ≡ params.Named pairs.entry) }
{
    let pairs = Vec::from_array(alloc, pairs)?;
    Ok(Params::Named(Listed::from(pairs)))
}
