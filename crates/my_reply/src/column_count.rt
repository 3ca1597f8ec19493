//! The packet that begins a set of rows.

ghost use Rattle.std.specs.Prelude.{◌≡◌, Some};
ghost use Rattle.std.specs.Option.{ok_or};
ghost use Rattle.my_frame.specs.Reading.{ReadsExactly};
ghost use Rattle.my_reply.specs.ColumnCount.{IsColumnCount, column_count_at, skipped_at};

use my_frame::ReadError;
use my_frame::numbers::take_len;

/// The number of columns that the rows have.
#[derive(Clone, Copy, PartialEq, Eq)]
pub struct ColumnCount {
    /// At least 1.
    pub count: u16,
    /// The columns don't follow: the statement has the same columns as before.
    pub skipped: bool,
}

fn skipped_of(cached: bool, left: &[u8]) -> Option<bool>
    ensures { result ≡ skipped_at cached left.now }
{
    match left {
        [] => Some(false),
        [0] if cached => Some(true),
        [1] if cached => Some(false),
        _ => None,
    }
}

fn column_count_of(payload: &[u8], cached: bool) -> Option<ColumnCount>
    ensures { result ≡ column_count_at cached payload.now }
{
    let (count, rest) = take_len(payload)?;
    let skipped = skipped_of(cached, rest)?;
    if count == 0 || count > 65_535 {
        return None;
    }
    Some(ColumnCount {
        count: count as u16,
        skipped,
    })
}

/// Reads the number of columns that the rows have. Only where both sides cache columns (`cached`)
/// may a byte say whether they follow.
pub fn read_column_count(payload: &[u8], cached: bool) -> Result<ColumnCount, ReadError>
    ensures gives { result ≡ ok_or (column_count_at cached payload.now) ReadError.Malformed }
    ensures exact { ReadsExactly (IsColumnCount cached payload.now) result }
{
    column_count_of(payload, cached).ok_or(ReadError::Malformed)
}
