//! Laws of parameters: each is a function that does nothing, and its contract is the law.

ghost use Rattle.std.specs.Prelude.{◌≡◌, ◌<◌, ◌^◌, ◌++◌, ◌↔◌, ℕ, Bool, List, Some, map};
ghost use Rattle.std.specs.List.{flat_map};
ghost use Rattle.my_command.specs.Client.Statement.{bulk_bytes, bulk_head};
ghost use Rattle.my_command.specs.declared.statement.BulkExecute.{BulkExecute};
ghost use Rattle.my_params.specs.BulkBody.{list_bytes, row_of};
ghost use Rattle.my_params.specs.Sending.{value_bytes};
ghost use Rattle.my_params.specs.SqlText.{IsSplit, SqlPiece, split};
ghost use Rattle.my_value.specs.BinaryCell.{date_of, sized_at, time_of};
ghost use Rattle.my_value.specs.declared.value.Value as value;
ghost use Rattle.my_value.specs.declared.value.Value.TheVariants as values;

/// A date and a time are sent so that reading gives them back, whatever follows.
pub fn dates_are_read_back()
    ensures dates { (year month day hour minute second micros : ℕ) (rest : List ℕ)
        → year < 2 ^ 16 → micros < 2 ^ 32
        → sized_at date_of (value_bytes (values.Date year month day hour minute second micros) ++ rest)
        ≡ Some (values.Date year month day hour minute second micros, rest) }
    ensures times { (negative : Bool) (days hours minutes seconds micros : ℕ) (rest : List ℕ)
        → days < 2 ^ 32 → micros < 2 ^ 32
        → sized_at time_of (value_bytes (values.Time negative days hours minutes seconds micros) ++ rest)
        ≡ Some (values.Time negative days hours minutes seconds micros, rest) }
{}

/// The payload of a bulk execution whose rows are these lists is its head and each list as it is written.
pub fn lists_are_rows()
    ensures { (bulk : BulkExecute) (lists : List (List value.Value)) → bulk.rows ≡ map row_of lists
        → bulk_bytes bulk ≡ bulk_head bulk.statement bulk.types ++ flat_map list_bytes lists }
{}

/// Each text falls into pieces in one way.
pub fn texts_are_split()
    ensures { (text : List ℕ) (pieces : List SqlPiece) → IsSplit pieces text ↔ (split text ≡ pieces) }
{}
