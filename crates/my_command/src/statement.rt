//! The packets that execute a statement.
//!
//! A caller that keeps its values elsewhere writes the head of a packet by `put_execute_head` or `put_bulk_head`,
//! and each value after it, so that no value is copied into a packet first.

ghost use Rattle.std.specs.Prelude.{◌≡◌, ◌≤◌, ◌++◌, IfOk, OnOk, Option, drop, map, slice_get};
ghost use Rattle.std.specs.List.{flat_map};
ghost use Rattle.my_command.specs.Client.Statement.{bulk_bytes, bulk_head, cell_bytes, execute_bytes, execute_head, head_of, heads_bytes, indicator_bytes, null_bit, null_bitmap, null_byte, row_bytes, rows_bytes, type_bytes, values_bytes, written_value};

use my_frame::writing::{put_u8, put_u16, put_u32};
use my_frame::{Blob, Copied, Listed, NoMemory};
use std::alloc::Global;

/// The type of a parameter.
#[derive(Clone, Copy, PartialEq, Eq)]
pub struct ParameterType {
    /// The number of the type.
    pub kind: u8,
    /// 0x80 for numbers without a sign, else 0.
    pub flag: u8,
}

/// A parameter of a statement.
#[derive(Drop)]
pub struct Parameter {
    pub form: ParameterType,
    /// The value as it is written, empty where it was sent before; `None` is NULL.
    pub value: Option<Blob>,
}

/// What is sent of a parameter before all values: its type, and whether it is NULL.
#[derive(Clone, Copy, PartialEq, Eq)]
pub struct ParameterHead {
    pub form: ParameterType,
    pub is_null: bool,
}

/// Executes a statement.
#[derive(Drop)]
pub struct Execute {
    pub statement: u32,
    pub parameters: Listed<Parameter>,
}

/// Executes a statement of a MariaDB once for each row.
#[derive(Drop)]
pub struct BulkExecute {
    pub statement: u32,
    pub types: Listed<ParameterType>,
    /// The values as they are written; `None` is NULL.
    pub rows: Listed<Listed<Option<Blob>>>,
}

impl Copied for ParameterType {
    fn copy(&self, _alloc: Global) -> Result<ParameterType, NoMemory> {
        Ok(*self)
    }
}

impl Copied for Parameter {
    fn copy(&self, alloc: Global) -> Result<Parameter, NoMemory> {
        Ok(Parameter {
            form: self.form,
            value: self.value.copy(alloc)?,
        })
    }
}

impl Execute {
    /// A second value of the same packet.
    pub fn copy(&self, alloc: Global) -> Result<Execute, NoMemory>
        ensures { IfOk result (λ copy. copy ≡ self.now) }
    {
        Ok(Execute {
            statement: self.statement,
            parameters: self.parameters.copy(alloc)?,
        })
    }
}

impl BulkExecute {
    /// A second value of the same packet.
    pub fn copy(&self, alloc: Global) -> Result<BulkExecute, NoMemory>
        ensures { IfOk result (λ copy. copy ≡ self.now) }
    {
        Ok(BulkExecute {
            statement: self.statement,
            types: self.types.copy(alloc)?,
            rows: self.rows.copy(alloc)?,
        })
    }
}

// 1 where there is a parameter and it is NULL.
fn null_bit(heads: &[ParameterHead], place: usize) -> u8
    ensures value { result ≡ null_bit (slice_get heads.now place) }
    ensures small { result ≤ 1 }
{
    match heads.get(place) {
        Some(head) if head.is_null => 1,
        _ => 0,
    }
}

// The bits of the first eight parameters, the first one's lowest.
fn null_byte(heads: &[ParameterHead]) -> u8
    ensures { result ≡ null_byte heads.now }
{
    let low = null_bit(heads, 0)
        + 2 * null_bit(heads, 1)
        + 4 * null_bit(heads, 2)
        + 8 * null_bit(heads, 3);
    let high = null_bit(heads, 4)
        + 2 * null_bit(heads, 5)
        + 4 * null_bit(heads, 6)
        + 8 * null_bit(heads, 7);
    low + 16 * high
}

fn after_eight(heads: &[ParameterHead]) -> &[ParameterHead]
    ensures { result.now ≡ drop 8 heads.now }
{
    if heads.len() < 8 {
        &heads[heads.len()..]
    } else {
        &heads[8..]
    }
}

fn put_bitmap(out: &mut Vec<u8>, heads: &[ParameterHead]) -> Result<(), NoMemory>
    ensures { OnOk result (out.new.items ≡ out.old.items ++ null_bitmap heads.now) }
{
    let mut rest = heads;
    for _ in 0..heads.len().div_ceil(8) {
        put_u8(out, null_byte(rest))?;
        rest = after_eight(rest);
    }
    Ok(())
}

fn put_type(out: &mut Vec<u8>, form: ParameterType) -> Result<(), NoMemory>
    ensures { OnOk result (out.new.items ≡ out.old.items ++ type_bytes form) }
{
    put_u8(out, form.kind)?;
    put_u8(out, form.flag)
}

fn put_forms(out: &mut Vec<u8>, heads: &[ParameterHead]) -> Result<(), NoMemory>
    ensures { OnOk result (out.new.items ≡ out.old.items ++ flat_map (λ h. type_bytes h.form) heads.now) }
{
    for head in heads {
        put_type(out, head.form)?;
    }
    Ok(())
}

fn put_heads(out: &mut Vec<u8>, heads: &[ParameterHead]) -> Result<(), NoMemory>
    ensures { OnOk result (out.new.items ≡ out.old.items ++ heads_bytes heads.now) }
{
    if heads.is_empty() {
        return Ok(());
    }
    put_bitmap(out, heads)?;
    put_u8(out, 1)?;
    put_forms(out, heads)
}

/// Writes the payload that executes a statement up to the values of its parameters.
pub fn put_execute_head(
    out: &mut Vec<u8>,
    statement: u32,
    heads: &[ParameterHead],
) -> Result<(), NoMemory>
    ensures { OnOk result (out.new.items ≡ out.old.items ++ execute_head statement heads.now) }
{
    put_u8(out, 0x17)?;
    put_u32(out, statement)?;
    put_u8(out, 0)?;
    put_u32(out, 1)?;
    put_heads(out, heads)
}

fn head_of(parameter: &Parameter) -> ParameterHead
    ensures { result ≡ head_of parameter.now }
{
    ParameterHead {
        form: parameter.form,
        is_null: parameter.value.is_none(),
    }
}

fn heads_of(alloc: Global, parameters: &[Parameter]) -> Result<Vec<ParameterHead>, NoMemory>
    ensures { IfOk result (λ heads. heads.items ≡ map head_of parameters.now) }
{
    let mut heads = Vec::new(alloc);
    for parameter in parameters {
        heads.push(head_of(parameter))?;
    }
    Ok(heads)
}

fn put_value(out: &mut Vec<u8>, value: &Option<Blob>) -> Result<(), NoMemory>
    ensures { OnOk result (out.new.items ≡ out.old.items ++ written_value value.now) }
{
    match value {
        None => Ok(()),
        Some(bytes) => {
            out.extend_from_slice(bytes.as_slice())?;
            Ok(())
        }
    }
}

fn put_values(out: &mut Vec<u8>, parameters: &[Parameter]) -> Result<(), NoMemory>
    ensures { OnOk result (out.new.items ≡ out.old.items ++ values_bytes parameters.now) }
{
    for parameter in parameters {
        put_value(out, &parameter.value)?;
    }
    Ok(())
}

/// Adds the packet at the end of `out`.
pub fn put_execute(alloc: Global, out: &mut Vec<u8>, execute: &Execute) -> Result<(), NoMemory>
    ensures { OnOk result (out.new.items
        ≡ out.old.items ++ execute_bytes execute.now.statement execute.now.parameters) }
{
    let heads = heads_of(alloc, execute.parameters.as_slice())?;
    put_execute_head(out, execute.statement, heads.as_slice())?;
    put_values(out, execute.parameters.as_slice())
}

fn put_types(out: &mut Vec<u8>, types: &[ParameterType]) -> Result<(), NoMemory>
    ensures { OnOk result (out.new.items ≡ out.old.items ++ flat_map type_bytes types.now) }
{
    for form in types {
        put_type(out, *form)?;
    }
    Ok(())
}

/// Writes the payload that executes a statement once for each row up to the rows.
pub fn put_bulk_head(
    out: &mut Vec<u8>,
    statement: u32,
    types: &[ParameterType],
) -> Result<(), NoMemory>
    ensures { OnOk result (out.new.items ≡ out.old.items ++ bulk_head statement types.now) }
{
    put_u8(out, 0xFA)?;
    put_u32(out, statement)?;
    put_u16(out, 0x0080)?;
    put_types(out, types)
}

/// Writes the byte before the value of a row: 1 for NULL, which has no value, else 0.
pub fn put_indicator(out: &mut Vec<u8>, is_null: bool) -> Result<(), NoMemory>
    ensures { OnOk result (out.new.items ≡ out.old.items ++ indicator_bytes is_null) }
{
    put_u8(out, u8::from(is_null))
}

fn put_cell(out: &mut Vec<u8>, cell: &Option<Blob>) -> Result<(), NoMemory>
    ensures { OnOk result (out.new.items ≡ out.old.items ++ cell_bytes cell.now) }
{
    match cell {
        None => put_indicator(out, true),
        Some(bytes) => {
            put_indicator(out, false)?;
            out.extend_from_slice(bytes.as_slice())?;
            Ok(())
        }
    }
}

fn put_cells(out: &mut Vec<u8>, cells: &[Option<Blob>]) -> Result<(), NoMemory>
    ensures { OnOk result (out.new.items ≡ out.old.items ++ row_bytes cells.now) }
{
    for cell in cells {
        put_cell(out, cell)?;
    }
    Ok(())
}

fn put_rows(out: &mut Vec<u8>, rows: &[Listed<Option<Blob>>]) -> Result<(), NoMemory>
    ensures { OnOk result (out.new.items ≡ out.old.items ++ rows_bytes rows.now) }
{
    for row in rows {
        put_cells(out, row.as_slice())?;
    }
    Ok(())
}

/// Adds the packet at the end of `out`.
pub fn put_bulk(out: &mut Vec<u8>, bulk: &BulkExecute) -> Result<(), NoMemory>
    ensures { OnOk result (out.new.items ≡ out.old.items ++ bulk_bytes bulk.now) }
{
    put_bulk_head(out, bulk.statement, bulk.types.as_slice())?;
    put_rows(out, bulk.rows.as_slice())
}
