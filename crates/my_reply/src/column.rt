//! The packet that describes one column of a set of rows.

ghost use Rattle.std.specs.Prelude.{◌≡◌, IfOk, List, ℕ, Some};
ghost use Rattle.std.specs.Option.{option_map};
ghost use Rattle.my_frame.specs.Reading.{Gives, ReadsExactly};
ghost use Rattle.my_reply.specs.Column.{IsColumn, column_at, column_of, form_at, names_at};

use my_frame::numbers::{take_len, take_text, take_u8, take_u16, take_u32};
use my_frame::{Blob, Copied, NoMemory, ReadError};
use std::alloc::Global;

/// One column of a set of rows.
#[derive(Debug, Drop, PartialEq, Eq)]
pub struct Column {
    pub schema: Blob,
    /// The table's name in the query.
    pub table: Blob,
    /// The table's own name.
    pub org_table: Blob,
    /// The column's name in the query.
    pub name: Blob,
    /// The column's own name.
    pub org_name: Blob,
    /// The number of the collation.
    pub charset: u16,
    /// The most bytes that a value takes as text.
    pub length: u32,
    /// The number of the type.
    pub column_type: u8,
    pub flags: u16,
    /// The number of digits after the point that are shown.
    pub decimals: u8,
}

impl Column {
    /// A second value of the same column.
    pub fn copy(&self, alloc: Global) -> Result<Column, NoMemory>
        ensures { IfOk result (λ copy. copy ≡ self.now) }
    {
        let names = LentNames {
            schema: self.schema.as_slice(),
            table: self.table.as_slice(),
            org_table: self.org_table.as_slice(),
            name: self.name.as_slice(),
            org_name: self.org_name.as_slice(),
        };
        let form = Form {
            charset: self.charset,
            length: self.length,
            column_type: self.column_type,
            flags: self.flags,
            decimals: self.decimals,
        };
        Ok(column_from(copied_names(alloc, names)?, form))
    }
}

impl Copied for Column {
    fn copy(&self, alloc: Global) -> Result<Column, NoMemory> {
        Column::copy(self, alloc)
    }
}

// The names of a column, of its table and of its schema.
#[derive(Drop)]
struct Names {
    schema: Blob,
    table: Blob,
    org_table: Blob,
    name: Blob,
    org_name: Blob,
}

// The same, still in the payload.
#[derive(Clone, Copy)]
pub(crate) struct LentNames<'a> {
    schema: &'a [u8],
    table: &'a [u8],
    org_table: &'a [u8],
    name: &'a [u8],
    org_name: &'a [u8],
}

// What a column's values look like.
#[derive(Clone, Copy)]
pub(crate) struct Form {
    charset: u16,
    length: u32,
    column_type: u8,
    flags: u16,
    decimals: u8,
}

fn copied_names(alloc: Global, names: LentNames<'_>) -> Result<Names, NoMemory>
    ensures { IfOk result (λ copy. copy ≡ record {
      schema = names.entry.schema.now;
      table = names.entry.table.now;
      org_table = names.entry.org_table.now;
      name = names.entry.name.now;
      org_name = names.entry.org_name.now;
    }) }
{
    Ok(Names {
        schema: Blob::from_slice(alloc, names.schema)?,
        table: Blob::from_slice(alloc, names.table)?,
        org_table: Blob::from_slice(alloc, names.org_table)?,
        name: Blob::from_slice(alloc, names.name)?,
        org_name: Blob::from_slice(alloc, names.org_name)?,
    })
}

// The catalog comes before the names, and is ignored.
#[tactic(auto, unfolding(crate::specs::Column::names_at))]
fn names_of(bytes: &[u8]) -> Option<(LentNames<'_>, &[u8])>
    ensures { option_map {U = Names × List ℕ} (λ x. (
      record {
        schema = x.0.schema.now;
        table = x.0.table.now;
        org_table = x.0.org_table.now;
        name = x.0.name.now;
        org_name = x.0.org_name.now;
      },
      x.1.now,
    )) result ≡ names_at bytes.now }
{
    let (_catalog, rest) = take_text(bytes)?;
    let (schema, rest) = take_text(rest)?;
    let (table, rest) = take_text(rest)?;
    let (org_table, rest) = take_text(rest)?;
    let (name, rest) = take_text(rest)?;
    let (org_name, rest) = take_text(rest)?;
    let names = LentNames {
        schema,
        table,
        org_table,
        name,
        org_name,
    };
    Some((names, rest))
}

#[tactic(auto, unfolding(crate::specs::Column::form_at))]
fn form_of(bytes: &[u8]) -> Option<Form>
    ensures { result ≡ form_at bytes.now }
{
    let (size, rest) = take_len(bytes)?;
    let (charset, rest) = take_u16(rest)?;
    let (length, rest) = take_u32(rest)?;
    let (column_type, rest) = take_u8(rest)?;
    let (flags, rest) = take_u16(rest)?;
    let (decimals, rest) = take_u8(rest)?;
    if size != 0x0C || rest.len() != 2 {
        return None;
    }
    Some(Form {
        charset,
        length,
        column_type,
        flags,
        decimals,
    })
}

// Names and form of a column, before memory is asked for.
pub(crate) fn parts_of(payload: &[u8]) -> Option<(LentNames<'_>, Form)>
    ensures { option_map (λ x. column_of (record {
      schema = x.0.schema.now;
      table = x.0.table.now;
      org_table = x.0.org_table.now;
      name = x.0.name.now;
      org_name = x.0.org_name.now;
    }) x.1) result ≡ column_at payload.now }
{
    let (names, rest) = names_of(payload)?;
    let form = form_of(rest)?;
    Some((names, form))
}

fn column_from(names: Names, form: Form) -> Column
    ensures { result ≡ column_of names form }
{
    Column {
        schema: names.schema,
        table: names.table,
        org_table: names.org_table,
        name: names.name,
        org_name: names.org_name,
        charset: form.charset,
        length: form.length,
        column_type: form.column_type,
        flags: form.flags,
        decimals: form.decimals,
    }
}

fn column_of(alloc: Global, payload: &[u8]) -> Result<Column, ReadError>
    ensures { Gives result (column_at payload.now) }
{
    match parts_of(payload) {
        None => Err(ReadError::Malformed),
        Some((names, form)) => Ok(column_from(copied_names(alloc, names)?, form)),
    }
}

/// Reads the description of a column.
pub fn read_column(alloc: Global, payload: &[u8]) -> Result<Column, ReadError>
    ensures gives { Gives result (column_at payload.now) }
    ensures exact { ReadsExactly (IsColumn payload.now) result }
{
    column_of(alloc, payload)
}
