//! Parameters of a statement.

ghost use Rattle.std.specs.Prelude.{◌≡◌, [], ◌∷◌, ◌++◌, OnOk, IfOk, Option, length};
ghost use Rattle.std.specs.List.{list_any};
ghost use Rattle.my_params.specs.declared.params.Params.TheVariants.{Empty, Named, Positional};
ghost use Rattle.my_params.specs.ParamValues.{FillsTo, HasLastValues, MissesOrFails, ResolvesTo, filled, is_float, resolved, sendable};

use my_frame::{Blob, Copied, Listed, NoMemory, copy_items};
use my_value::Value;
use my_value::shown::Lossy;
use std::alloc::Global;
use std::collections::BTreeMap;
use std::fmt;

/// The parameters that a caller gives with a statement.
///
/// `Listed::from` makes a list of a `Vec` without taking memory, as `Blob::from` makes one of bytes.
#[derive(Drop, PartialEq, Eq)]
pub enum Params {
    Empty,
    /// One value for each `?`.
    Positional(Listed<Value>),
    /// A value for each name; of several pairs with one name the last counts.
    Named(Listed<(Blob, Value)>),
}

// A second list of these pairs.
fn copy_pairs(alloc: Global, pairs: &[(Blob, Value)]) -> Result<Listed<(Blob, Value)>, NoMemory>
    ensures { IfOk result (λ copies. copies ≡ pairs.now) }
{
    let mut copies = Vec::new(alloc);
    for (name, value) in pairs {
        copies.push((name.copy(alloc)?, value.copy(alloc)?))?;
    }
    Ok(Listed::from(copies))
}

impl Params {
    /// Second parameters with the same values.
    pub fn copy(&self, alloc: Global) -> Result<Params, NoMemory>
        ensures { IfOk result (λ copy. copy ≡ self.now) }
    {
        match self {
            Params::Empty => Ok(Params::Empty),
            Params::Positional(values) => Ok(Params::Positional(values.copy(alloc)?)),
            Params::Named(pairs) => Ok(Params::Named(copy_pairs(alloc, pairs.as_slice())?)),
        }
    }
}

impl Copied for Params {
    fn copy(&self, alloc: Global) -> Result<Params, NoMemory> {
        Params::copy(self, alloc)
    }
}

/// Why parameters aren't sent.
#[derive(Debug, Drop, PartialEq, Eq)]
pub enum ParamsError {
    /// The first name of the text that has no value.
    Missing(Blob),
    /// Parameters by place for a text with names, or the other way round, or a float.
    Kind,
    NoMemory,
}

impl fmt::Display for ParamsError {
    fn fmt<W: fmt::Write>(&self, f: &mut fmt::Formatter<W>) -> fmt::Result {
        match self {
            ParamsError::Missing(name) => {
                write!(f, "no value for the parameter {}", Lossy(name.as_slice()))
            }
            ParamsError::Kind => f.write_str("parameters of another kind than the text's"),
            ParamsError::NoMemory => f.write_str("out of memory"),
        }
    }
}

impl std::error::Error for ParamsError {}

impl ParamsError {
    /// A second value of the same error.
    pub fn copy(&self, alloc: Global) -> Result<ParamsError, NoMemory>
        ensures { IfOk result (λ copy. copy ≡ self.now) }
    {
        match self {
            ParamsError::Missing(name) => Ok(ParamsError::Missing(name.copy(alloc)?)),
            ParamsError::Kind => Ok(ParamsError::Kind),
            ParamsError::NoMemory => Ok(ParamsError::NoMemory),
        }
    }
}

// Whether a value is a float, which isn't sent.
fn holds_float(value: &Value) -> bool
    ensures { result ≡ is_float value.now }
{
    matches!(value, Value::FloatBits(_) | Value::DoubleBits(_))
}

// Whether one of the values is a float.
fn any_float(values: &[Value]) -> bool
    ensures { result ≡ list_any is_float values.now }
{
    for value in values {
        if holds_float(value) {
            return true;
        }
    }
    false
}

// The values, unless one is a float.
fn without_floats(values: Vec<Value>) -> Result<Vec<Value>, ParamsError>
    ensures { ResolvesTo result (sendable values.items) }
{
    if any_float(values.as_slice()) {
        return Err(ParamsError::Kind);
    }
    Ok(values)
}

// The value of each name that has one: that of the last pair with it.
fn index_of<'a>(
    alloc: Global,
    pairs: &'a [(Blob, Value)],
) -> Result<BTreeMap<&'a [u8], &'a Value>, NoMemory>
    ensures { IfOk result (HasLastValues pairs.now) }
{
    let mut index = BTreeMap::new(alloc);
    for (name, value) in pairs {
        index.insert(name.as_slice(), value)?;
    }
    Ok(index)
}

fn missing(alloc: Global, name: &Blob) -> ParamsError
    ensures { MissesOrFails result name.now }
{
    match name.copy(alloc) {
        Ok(name) => ParamsError::Missing(name),
        Err(_) => ParamsError::NoMemory,
    }
}

// Each name's value.
fn fill(alloc: Global, names: &[Blob], pairs: &[(Blob, Value)]) -> Result<Vec<Value>, ParamsError>
    ensures { FillsTo result (filled names.now pairs.now) }
{
    let Ok(index) = index_of(alloc, pairs) else {
        return Err(ParamsError::NoMemory);
    };
    let mut values = Vec::new(alloc);
    for name in names {
        match index.get(name.as_slice()) {
            None => return Err(missing(alloc, name)),
            Some(value) => {
                if push_copy(alloc, &mut values, *value).is_err() {
                    return Err(ParamsError::NoMemory);
                }
            }
        }
    }
    Ok(values)
}

// Adds a copy of a value.
fn push_copy(alloc: Global, values: &mut Vec<Value>, value: &Value) -> Result<(), NoMemory>
    ensures { OnOk result (values.new.items ≡ values.old.items ++ value.now ∷ []) }
{
    values.push(value.copy(alloc)?)?;
    Ok(())
}

// Nothing is given.
fn nothing_for(alloc: Global, names: &[Blob]) -> Result<Vec<Value>, ParamsError>
    ensures { ResolvesTo result (resolved Empty names.now) }
{
    match names {
        [] => Ok(Vec::new(alloc)),
        [first, ..] => Err(missing(alloc, first)),
    }
}

// Values are given by place.
fn placed_for(values: Vec<Value>, names: &[Blob]) -> Result<Vec<Value>, ParamsError>
    ensures { ResolvesTo result (resolved (Positional values.items) names.now) }
{
    if !names.is_empty() {
        return Err(ParamsError::Kind);
    }
    without_floats(values)
}

// Values are given by name.
fn named_for(
    alloc: Global,
    pairs: &[(Blob, Value)],
    names: &[Blob],
) -> Result<Vec<Value>, ParamsError>
    ensures { ResolvesTo result (resolved (Named pairs.now) names.now) }
{
    if names.is_empty() {
        if pairs.is_empty() {
            return Ok(Vec::new(alloc));
        }
        return Err(ParamsError::Kind);
    }
    match fill(alloc, names, pairs) {
        Ok(values) => without_floats(values),
        Err(e) => Err(e),
    }
}

/// The values that are sent for the parameters of a text with these names, each name's value at each of its
/// places; `names` is empty for a text without names.
pub fn into_values(alloc: Global, params: Params, names: &[Blob]) -> Result<Vec<Value>, ParamsError>
    ensures { ResolvesTo result (resolved params names.now) }
{
    match params {
        Params::Empty => nothing_for(alloc, names),
        Params::Positional(values) => placed_for(values.into_vec(), names),
        Params::Named(pairs) => named_for(alloc, pairs.as_slice(), names),
    }
}

/// The same of parameters that are kept: copies of their values.
pub fn values_for(alloc: Global, params: &Params, names: &[Blob]) -> Result<Vec<Value>, ParamsError>
    ensures { ResolvesTo result (resolved params.now names.now) }
{
    match params {
        Params::Empty => nothing_for(alloc, names),
        Params::Positional(values) => match copy_items(alloc, values.as_slice()) {
            Ok(values) => placed_for(values, names),
            Err(_) => Err(ParamsError::NoMemory),
        },
        Params::Named(pairs) => named_for(alloc, pairs.as_slice(), names),
    }
}
