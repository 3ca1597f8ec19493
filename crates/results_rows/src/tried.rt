//! Rows that may not convert.

use my_query::{FromRowError, QueryError};
use near_rows::{add, refused};
use std::alloc::{AllocError, Global};

/// What each row became.
pub fn kinds<T: Drop>(
    alloc: Global,
    tried: Result<Vec<Result<T, FromRowError>>, QueryError>,
) -> Result<String, AllocError> {
    let mut text = String::new(alloc);
    let mut well = Ok(());
    match &tried {
        Ok(items) => {
            for item in items {
                let word = match item {
                    Ok(_) => "Ok",
                    Err(FromRowError::Row(_)) => "row",
                    Err(FromRowError::NoMemory) => "memory",
                };
                well = add(&mut text, word);
            }
        }
        Err(error) => well = add(&mut text, refused(error)),
    }
    drop(tried);
    well?;
    Ok(text)
}
