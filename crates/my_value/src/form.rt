//! How the cells of a binary row are spelled.

ghost use Rattle.std.specs.Prelude.{◌≡◌};
ghost use Rattle.my_value.specs.CellForm.{form_of_type, is_unsigned};

/// The spellings of a cell in a binary row.
#[derive(Clone, Copy, PartialEq, Eq)]
pub enum CellForm {
    /// A number of one byte.
    Tiny,
    /// A number of two bytes.
    Short,
    /// A number of four bytes.
    Long,
    /// A number of eight bytes.
    LongLong,
    Float,
    Double,
    /// Parts of a date after their length.
    Date,
    /// Parts of a time after their length.
    Time,
    /// No bytes.
    Null,
    /// A text after its length.
    Text,
}

/// The form of a column's cells by its type.
pub fn form_of(column_type: u8) -> Option<CellForm>
    ensures { result ≡ form_of_type column_type }
{
    match column_type {
        1 => Some(CellForm::Tiny),
        2 | 13 => Some(CellForm::Short),
        3 | 9 => Some(CellForm::Long),
        8 => Some(CellForm::LongLong),
        4 => Some(CellForm::Float),
        5 => Some(CellForm::Double),
        7 | 10 | 12 => Some(CellForm::Date),
        11 => Some(CellForm::Time),
        6 => Some(CellForm::Null),
        0 | 15 | 16 | 242 | 245..=255 => Some(CellForm::Text),
        _ => None,
    }
}

/// Whether these flags of a column say that its numbers have no sign.
pub fn has_no_sign(flags: u16) -> bool
    ensures { result ≡ is_unsigned flags }
{
    (flags >> 5) % 2 == 1
}
