//! The payload that executes a prepared statement.

ghost use Rattle.std.specs.Prelude.{◌≡◌, ◌≤◌, ◌++◌, IfOk, OnOk, length, map};
ghost use Rattle.std.specs.List.{flat_map};
ghost use Rattle.my_command.specs.Client.Statement.{written_value};
ghost use Rattle.my_params.specs.Parameters.{body_of, needs_long, parameter_of, sent_head, sent_value};

use crate::sending::{put_value, type_of, values_len};
use my_command::statement::{Parameter, ParameterHead, put_execute_head};
use my_frame::{Blob, FULL_LENGTH, NoMemory};
use my_value::Value;
use std::alloc::Global;

// The type of a value, and whether it is NULL.
fn head_of(value: &Value) -> ParameterHead
    ensures { result ≡ sent_head value.now }
{
    ParameterHead {
        form: type_of(value),
        is_null: matches!(value, Value::NULL),
    }
}

fn heads_of(alloc: Global, values: &[Value]) -> Result<Vec<ParameterHead>, NoMemory>
    ensures { IfOk result (λ heads. heads.items ≡ map sent_head values.now) }
{
    let mut heads = Vec::new(alloc);
    for value in values {
        heads.push(head_of(value))?;
    }
    Ok(heads)
}

// Writes a value; with `ahead` the values of bytes were sent before.
fn put_sent(out: &mut Vec<u8>, ahead: bool, value: &Value) -> Result<(), NoMemory>
    ensures { OnOk result (out.new.items ≡ out.old.items ++ written_value (sent_value ahead value.now)) }
{
    match value {
        Value::Bytes(_) if ahead => Ok(()),
        _ => put_value(out, value),
    }
}

fn put_values(out: &mut Vec<u8>, ahead: bool, values: &[Value]) -> Result<(), NoMemory>
    ensures { OnOk result (out.new.items
        ≡ out.old.items ++ flat_map (λ v. written_value (sent_value ahead v)) values.now) }
{
    for value in values {
        put_sent(out, ahead, value)?;
    }
    Ok(())
}

/// A value as a parameter of a statement; with `ahead` the values of bytes were sent before by themselves.
pub fn parameter_of(alloc: Global, value: &Value, ahead: bool) -> Result<Parameter, NoMemory>
    ensures { IfOk result (λ p. p ≡ parameter_of ahead value.now) }
{
    let form = type_of(value);
    if matches!(value, Value::NULL) {
        return Ok(Parameter { form, value: None });
    }
    let mut bytes = Vec::new(alloc);
    put_sent(&mut bytes, ahead, value)?;
    Ok(Parameter {
        form,
        value: Some(Blob::from(bytes)),
    })
}

// Whether the payload with all values in it is longer than a chunk.
pub(crate) fn is_long(values: &[Value]) -> bool
    requires { length values.now ≤ 65535 }
    ensures { result ≡ needs_long values.now }
{
    let count = values.len() as u64;
    let head = 11 + (count + 7) / 8 + 2 * count;
    values_len(values) > FULL_LENGTH as u64 - head
}

/// The payload that executes the statement with these values, and whether the values of bytes among them are
/// sent before by themselves, and so aren't in it: they are where the payload would be longer than a chunk.
/// No value is copied but into the payload.
pub fn execute_body(alloc: Global, id: u32, values: &[Value]) -> Result<(Vec<u8>, bool), NoMemory>
    requires { length values.now ≤ 65535 }
    ensures body { IfOk result (λ r. r.0.items ≡ body_of id values.now) }
    ensures long { IfOk result (λ r. r.1 ≡ needs_long values.now) }
{
    let long = is_long(values);
    let heads = heads_of(alloc, values)?;
    let mut body = Vec::new(alloc);
    put_execute_head(&mut body, id, heads.as_slice())?;
    put_values(&mut body, long, values)?;
    Ok((body, long))
}
