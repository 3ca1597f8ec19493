//! Lists of values as the rows of a bulk execution, and the types of their columns.
//!
//! The payload begins with what `my_command::statement::put_bulk_head` writes; each list follows.

ghost use Rattle.std.specs.Prelude.{◌≡◌, ◌+◌, ◌-◌, ◌^◌, ◌++◌, IfOk, List, OnOk, length, map, min};
ghost use Rattle.my_command.specs.Client.Statement.{cell_bytes};
ghost use Rattle.my_params.specs.Sending.{type_of, values_len};
ghost use Rattle.my_params.specs.Parameters.{cell_of};
ghost use Rattle.my_params.specs.BulkBody.{agree, joined, joined_types, list_bytes, types_agree};

use crate::sending::{put_value, type_of, values_len};
use my_command::statement::{ParameterType, put_indicator};
use my_frame::NoMemory;
use my_value::Value;
use std::alloc::Global;

// Whether values of these two types can be in one column.
fn agree(column: ParameterType, value: ParameterType) -> bool
    ensures { result ≡ agree column value }
{
    column.kind == 6 || value.kind == 6 || (column.kind == value.kind && column.flag == value.flag)
}

// The type of a column that gets one more value.
fn joined(column: ParameterType, value: ParameterType) -> ParameterType
    ensures { result ≡ joined column value }
{
    if column.kind == 6 { value } else { column }
}

/// The types that a first list of values is sent with.
pub fn types_of(alloc: Global, values: &[Value]) -> Result<Vec<ParameterType>, NoMemory>
    ensures { IfOk result (λ v. v.items ≡ map type_of values.now) }
{
    let mut types = Vec::new(alloc);
    for value in values {
        types.push(type_of(value))?;
    }
    Ok(types)
}

/// Whether a list has a value for each column, each of a type that agrees with the column's; `NULL` agrees
/// with all.
pub fn types_agree(types: &[ParameterType], values: &[Value]) -> bool
    ensures { result ≡ types_agree types.now values.now }
{
    match types {
        [] => values.is_empty(),
        [column, columns @ ..] => match values {
            [] => false,
            [value, others @ ..] => {
                agree(*column, type_of(value)) && types_agree(columns, others)
            }
        },
    }
}

/// The columns' types with those of one more list.
pub fn join_types(
    alloc: Global,
    types: &[ParameterType],
    values: &[Value],
) -> Result<Vec<ParameterType>, NoMemory>
    ensures { IfOk result (λ v. v.items ≡ joined_types types.now values.now) }
{
    let mut columns = types;
    let mut others = values;
    let mut all = Vec::new(alloc);
    loop {
        match columns {
            [] => return Ok(all),
            [column, more @ ..] => match others {
                [] => return Ok(all),
                [value, rest @ ..] => {
                    all.push(joined(*column, type_of(value)))?;
                    columns = more;
                    others = rest;
                }
            },
        }
    }
}

/// How many bytes a list takes, or 2^64 - 1 where it takes more.
pub fn bulk_list_len(values: &[Value]) -> u64
    ensures { result ≡ min (length (list_bytes values.now)) (2 ^ 64 - 1) }
{
    (values.len() as u64).saturating_add(values_len(values))
}

// Writes a value after its indicator.
fn put_cell(out: &mut Vec<u8>, value: &Value) -> Result<(), NoMemory>
    ensures { OnOk result (out.new.items ≡ out.old.items ++ cell_bytes (cell_of value.now)) }
{
    put_indicator(out, matches!(value, Value::NULL))?;
    put_value(out, value)
}

/// Writes one list as a row.
pub fn put_bulk_list(out: &mut Vec<u8>, values: &[Value]) -> Result<(), NoMemory>
    ensures { OnOk result (out.new.items ≡ out.old.items ++ list_bytes values.now) }
{
    for value in values {
        put_cell(out, value)?;
    }
    Ok(())
}
