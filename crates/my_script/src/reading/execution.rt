//! Reads steps on prepared statements.
ghost use Rattle.std.specs.Prelude.{◌≡◌, [], ◌∷◌, ◌++◌, IfOk, option_map};
ghost use Rattle.my_params.specs.declared.params.Params.TheVariants.{Named, Positional};
ghost use Rattle.my_script.specs.Execution.{statement_parts, statement_view, pair_of, with_word, params_in};

use super::cut::cut;
use super::number::number;
use super::value::value;
use my_frame::{Blob, Listed, NoMemory};
use my_params::Params;
use my_value::Value;
use std::alloc::Global;

/// What follows `exec`, `execn` and `closestmt`: a connection, a statement, and what follows a blank after them.
#[derive(Clone, Copy)]
pub struct StatementParts<'a> {
    pub connection: u64,
    pub statement: u64,
    pub rest: Option<&'a [u8]>,
}

#[tactic(auto, unfolding(crate::specs::Execution::statement_parts))]
pub fn statement_parts(rest: &[u8]) -> Option<StatementParts<'_>>
    ensures { option_map statement_view result ≡ statement_parts rest.now }
{
    let first = cut(b' ', rest);
    let connection = number(first.first)?;
    let second = cut(b' ', first.rest?);
    let statement = number(second.first)?;
    Some(StatementParts {
        connection,
        statement,
        rest: second.rest,
    })
}

// `name=value`
fn pair(alloc: Global, word: &[u8]) -> Result<Option<(Blob, Value)>, NoMemory>
    ensures { IfOk result (λ read. read ≡ pair_of word.now) }
{
    let pieces = cut(b'=', word);
    if pieces.first.is_empty() {
        return Ok(None);
    }
    let Some(rest) = pieces.rest else {
        return Ok(None);
    };
    match value(alloc, rest)? {
        None => Ok(None),
        Some(value) => match Blob::from_slice(alloc, pieces.first) {
            Ok(name) => Ok(Some((name, value))),
            Err(error) => {
                drop(value);
                Err(error)
            }
        },
    }
}

fn with_value(mut values: Listed<Value>, value: Option<Value>) -> Result<Option<Params>, NoMemory>
    ensures { IfOk result (λ more. more ≡ option_map (λ v. Positional (values ++ v ∷ [])) value) }
{
    let Some(value) = value else {
        drop(values);
        return Ok(None);
    };
    match values.push(value) {
        Ok(()) => Ok(Some(Params::Positional(values))),
        Err(error) => {
            drop(values);
            Err(error)
        }
    }
}

fn with_pair(
    mut pairs: Listed<(Blob, Value)>,
    pair: Option<(Blob, Value)>,
) -> Result<Option<Params>, NoMemory>
    ensures { IfOk result (λ more. more ≡ option_map (λ p. Named (pairs ++ p ∷ [])) pair) }
{
    let Some(pair) = pair else {
        drop(pairs);
        return Ok(None);
    };
    match pairs.push(pair) {
        Ok(()) => Ok(Some(Params::Named(pairs))),
        Err(error) => {
            drop(pairs);
            Err(error)
        }
    }
}

// The parameters, and one more that a word says.
fn with_word(alloc: Global, params: Params, word: &[u8]) -> Result<Option<Params>, NoMemory>
    ensures { IfOk result (λ more. more ≡ with_word params word.now) }
{
    match params {
        Params::Empty => Ok(None),
        Params::Positional(values) => match value(alloc, word) {
            Ok(value) => with_value(values, value),
            Err(error) => {
                drop(values);
                Err(error)
            }
        },
        Params::Named(pairs) => match pair(alloc, word) {
            Ok(pair) => with_pair(pairs, pair),
            Err(error) => {
                drop(pairs);
                Err(error)
            }
        },
    }
}

/// These parameters and those that the words say after them.
pub fn params_in(
    alloc: Global,
    params: Params,
    rest: Option<&[u8]>,
) -> Result<Option<Params>, NoMemory>
    ensures { IfOk result (λ read. read ≡ params_in params (option_map (λ r. r.now) rest.entry)) }
{
    let mut params = params;
    let mut left = rest;
    'words: while let Some(text) = left {
        let pieces = cut(b' ', text);
        let Some(more) = with_word(alloc, params, pieces.first)? else {
            return Ok(None);
        };
        params = more;
        left = pieces.rest;
    }
    Ok(Some(params))
}
