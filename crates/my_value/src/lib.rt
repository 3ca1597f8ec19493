//! Values and rows of the MySQL client/server protocol: how they are read and converted. Values are sent as `my_params`
//! says.
#![tactic(auto)]

mod binary_cell;
mod binary_row;
mod cell;
mod conversion;
mod form;
pub mod laws;
mod plain;
mod row;
mod row_conversion;
pub mod shown;
mod single;
mod text_row;
mod tuples;
mod value;
mod whole;

pub use binary_row::{is_binary_row, read_binary_row};
pub use conversion::{FromValue, FromValueError, from_value};
pub use row::{Columns, Row};
pub use row_conversion::{FromRow, FromRowError, from_row};
pub use text_row::{is_text_row, read_text_row};
pub use value::Value;
