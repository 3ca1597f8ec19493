//! Which values a statement is executed with, and the payloads that send them.

ghost use Rattle.std.specs.Prelude.{◌≡◌, ◌≤◌, IfOk, length};
ghost use Rattle.my_params.specs.LongData.{ahead_of};
ghost use Rattle.my_params.specs.Parameters.{body_of};
ghost use Rattle.my_reading.specs.Executions.{GivesValues, values_for};

use crate::error::{DriverError, Error};
use my_frame::{Blob, Listed, NoMemory};
use my_params::{Params, ParamsError, ahead_of, execute_body, values_for as resolved_values};
use my_statements::Statement;
use my_value::Value;
use std::alloc::Global;

/// How many values an execution can have: their number has two bytes.
pub const MOST_VALUES: u64 = 65_535;

/// The values that the statement is executed with, or the driver's refusal: parameters that don't fit the names, more values than
/// can be sent, or another number than the statement takes, in this order.
pub fn values_for(
    alloc: Global,
    statement: &Statement,
    params: &Params,
) -> Result<Vec<Value>, Error>
    ensures values { GivesValues result (values_for statement.now params.now) }
    ensures few { IfOk result (λ v. length v.items ≤ MOST_VALUES) }
{
    let values = match resolved_values(alloc, params, statement.names()) {
        Ok(values) => values,
        Err(ParamsError::NoMemory) => return Err(Error::NoMemory),
        Err(error) => return Err(Error::Driver(DriverError::Params(error))),
    };
    let supplied = values.len() as u64;
    if supplied > MOST_VALUES {
        return Err(Error::Driver(DriverError::StmtParamsNumberExceedsLimit { supplied }));
    }
    let required = statement.num_params();
    if supplied != u64::from(required) {
        return Err(Error::Driver(DriverError::StmtParamsMismatch { required, supplied }));
    }
    Ok(values)
}

/// The payloads of an execution of the statement of this id with these values: those that go ahead, and the command.
pub fn execution(alloc: Global, id: u32, values: &[Value]) -> Result<(Listed<Blob>, Blob), NoMemory>
    requires { length values.now ≤ MOST_VALUES }
    ensures ahead { IfOk result (λ r. r.0 ≡ ahead_of id values.now) }
    ensures command { IfOk result (λ r. r.1 ≡ body_of id values.now) }
{
    let ahead = ahead_of(alloc, id, values)?;
    let (body, _) = execute_body(alloc, id, values)?;
    Ok((ahead, Blob::from(body)))
}
