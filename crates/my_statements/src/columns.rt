//! The columns of a set: gathered one by one, and then shared by its rows.

ghost use Rattle.std.specs.Prelude.{◌≡◌, [], ◌∷◌, ◌++◌, OnOk, OnErr, IfOk, length};
ghost use Rattle.my_value.specs.RowParts.{columns_of};

use my_frame::{Listed, NoMemory};
use my_reply::Column;
use my_value::Columns;
use std::alloc::Global;
use std::marker::Model;
use std::mem;
use std::sync::Arc;

/// The columns of a whole head, which contracts see as their list.
#[derive(Drop)]
pub struct SetColumns {
    columns: Columns,
}

impl Model for SetColumns {
    ghost use Rattle.std.specs.Prelude.{List};
    ghost use Rattle.my_reply.specs.declared.column.Column.{Column as AnyColumn};
    ghost use Rattle.my_value.specs.RowParts.{columns_of};

    ghost Value = { List AnyColumn };

    ghost view = { λ c. columns_of c.columns };
}

impl PartialEq for SetColumns {
    ghost use Rattle.my_reply.specs.contracts.column.ColumnPartialEq.TheImpl.Laws as of_column;
    ghost use Rattle.std.specs.Cmp.Lexicographic.{lists_per, pointwise};

    ghost eq = { pointwise ⟦<Column as PartialEq>⟧.eq };

    ghost laws = { lists_per of_column.laws-law };

    fn eq(&self, other: &SetColumns) -> bool {
        self.as_slice() == other.as_slice()
    }
}

impl Eq for SetColumns {
    ghost use Rattle.my_reply.specs.contracts.column.ColumnEq.TheImpl.Laws as of_column;
    ghost use Rattle.std.specs.Cmp.Lexicographic.{lists_equiv};

    ghost laws = { lists_equiv of_column.laws-law };
}

impl SetColumns {
    /// No columns.
    pub fn new(alloc: Global) -> Result<SetColumns, NoMemory>
        ensures { IfOk result (λ c. c ≡ []) }
    {
        match Arc::new(alloc, Vec::new(alloc)) {
            Ok(columns) => Ok(SetColumns { columns }),
            Err(_) => Err(NoMemory),
        }
    }

    /// Columns that rows share.
    pub fn from_columns(columns: Columns) -> SetColumns
        ensures { result ≡ columns_of columns }
    {
        SetColumns { columns }
    }

    /// All columns that were gathered.
    pub fn from_listed(alloc: Global, gathered: Listed<Column>) -> Result<SetColumns, NoMemory>
        ensures { IfOk result (λ c. c ≡ gathered) }
    {
        match Arc::new(alloc, gathered.into_vec()) {
            Ok(columns) => Ok(SetColumns { columns }),
            Err(_) => Err(NoMemory),
        }
    }

    /// The columns of a head that was gathered, with its last one. Nothing is gathered any more.
    pub fn finish(
        alloc: Global,
        gathered: &mut Listed<Column>,
        last: Column,
    ) -> Result<SetColumns, NoMemory>
        ensures ok { IfOk result (λ c. c ≡ gathered.old ++ last ∷ []) }
        ensures none { OnOk result (gathered.new ≡ []) }
        ensures err { OnErr result (gathered.new ≡ gathered.old) }
    {
        gathered.push(last)?;
        let all = mem::replace(gathered, Listed::new(alloc));
        match Arc::new(alloc, all.into_vec()) {
            Ok(columns) => Ok(SetColumns { columns }),
            Err(failed) => {
                let mut all = failed.value;
                let _ = all.pop();
                *gathered = Listed::from(all);
                Err(NoMemory)
            }
        }
    }

    /// Another holder of the same columns.
    pub fn share(&self) -> Result<SetColumns, NoMemory>
        ensures { IfOk result (λ other. other ≡ self.now) }
    {
        Ok(SetColumns {
            columns: Arc::try_clone(&self.columns)?,
        })
    }

    /// The columns in order.
    pub fn as_slice(&self) -> &[Column]
        ensures { result.now ≡ self.now }
    {
        self.columns.as_slice()
    }

    /// The number of columns.
    pub fn len(&self) -> usize
        ensures { result ≡ length self.now }
    {
        self.columns.len()
    }

    /// The columns, as rows share them.
    pub fn shared(&self) -> &Columns
        ensures { columns_of result.now ≡ self.now }
    {
        &self.columns
    }
}
