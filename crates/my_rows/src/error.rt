//! Why a call that gives rows failed.

ghost use Rattle.std.specs.Prelude.{◌≡◌};

use my_frame::NoMemory;
use my_reading::Error;
use my_value::Row;
use std::alloc::{AllocError, AllocFailed};
use thiserror::Error as ThisError;

/// Why a call that gives rows has no result.
#[derive(Debug, Drop, PartialEq, Eq, ThisError)]
pub enum QueryError {
    /// A call of the connection failed, or memory ran out.
    #[error(transparent)]
    Client(Error),
    /// The row doesn't convert to the type that was asked for. It was read, and the rest of the answer wasn't.
    #[error("a row doesn't convert")]
    FromRow(Row),
}

impl From<Error> for QueryError {
    ghost use Rattle.my_rows.specs.declared.error.QueryError.TheVariants as errors;

    ghost from_gives = { λ error e. e ≡ errors.Client error };

    fn from(error: Error) -> QueryError {
        QueryError::Client(error)
    }
}

impl From<NoMemory> for QueryError {
    ghost use Rattle.my_rows.specs.declared.error.QueryError.TheVariants as errors;
    ghost use Rattle.my_reading.specs.declared.error.Error.TheVariants as causes;

    ghost from_gives = { λ _ e. e ≡ errors.Client causes.NoMemory };

    fn from(_e: NoMemory) -> QueryError {
        QueryError::Client(Error::NoMemory)
    }
}

impl From<AllocError> for QueryError {
    ghost use Rattle.my_rows.specs.declared.error.QueryError.TheVariants as errors;
    ghost use Rattle.my_reading.specs.declared.error.Error.TheVariants as causes;

    ghost from_gives = { λ _ e. e ≡ errors.Client causes.NoMemory };

    fn from(_e: AllocError) -> QueryError {
        QueryError::Client(Error::NoMemory)
    }
}

impl<T: Drop> From<AllocFailed<T>> for QueryError {
    ghost use Rattle.my_rows.specs.declared.error.QueryError.TheVariants as errors;
    ghost use Rattle.my_reading.specs.declared.error.Error.TheVariants as causes;

    ghost from_gives = { λ _ e. e ≡ errors.Client causes.NoMemory };

    fn from(_e: AllocFailed<T>) -> QueryError {
        QueryError::Client(Error::NoMemory)
    }
}

impl QueryError {
    ghost use Rattle.my_rows.specs.Fatal.{is_fatal};

    /// Whether the connection is of no use after it: a server's error, and a row that doesn't convert, leave it open.
    pub fn is_fatal(&self) -> bool
        ensures { result ≡ is_fatal self.now }
    {
        match self {
            QueryError::Client(error) => error.is_fatal(),
            QueryError::FromRow(_) => false,
        }
    }
}
