//! Laws on what is left of results, and on streams.
ghost use Rattle.my_query.specs.Tried.{EmptyIsTried, StreamsAreTried};

use my_value::FromRow;

/// A set with columns isn't empty, nor is a further set that follows; where there is neither, a result is empty.
pub fn left_sets_are_known<L>()
    ensures { EmptyIsTried L }
{}

/// A stream goes on after a row that doesn't convert, ends by every other error, and reads nothing once it ended.
pub fn streams_end_by_errors<L, T: FromRow>()
    ensures { StreamsAreTried L T.row_converts T.row_becomes }
{}
