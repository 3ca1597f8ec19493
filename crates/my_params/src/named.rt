//! Texts with named parameters.

ghost use Rattle.std.specs.Prelude.{◌≡◌, ◌↔◌, ◌++◌, ◌||◌, ℕ, IfOk, List, OnOk};
ghost use Rattle.my_params.specs.SqlText.{IsSplit, SqlPiece, seen, split};
ghost use Rattle.my_params.specs.NamedParams.{ParsesTo, all_names, all_sent, has_mark, is_mark, names_of, sent_of};

use crate::sql_text::{Piece, front_piece};
use my_frame::{Blob, NoMemory, copy_items};
use std::alloc::Global;
use std::marker::Model;
use thiserror::Error;

/// Why a text with named parameters wasn't parsed.
#[derive(Clone, Copy, Debug, PartialEq, Eq, Error)]
pub enum ParseFault {
    /// The text has both a name and a `?` outside quotes and comments.
    #[error("named and positional parameters in one text")]
    MixedParams,
    #[error("out of memory")]
    NoMemory,
}

/// A text that can be prepared, and the names of its parameters.
///
/// A name is `:` and a word of `_`, `a` to `z` and digits that begins with no digit. It is outside of
/// `'..'`, `".."` and backtick quotes and of comments (`#` and `-- ` to the line's end, `/* .. */`). A
/// backslash inside `'` and `"` skips one byte; what isn't closed runs to the end. `/*!` and `/*+` begin no
/// comment. Each name is replaced by `?`.
#[derive(Drop)]
pub struct ParsedNamedParams {
    query: Blob,
    params: Vec<Blob>,
}

impl Model for ParsedNamedParams {
    ghost use Rattle.my_params.specs.NamedParams.{Named};

    ghost Value = { Named };

    ghost view = { λ p. record { query = p.query; names = p.params.items } };
}

// What was gathered of a text.
#[derive(Drop)]
struct Gathered {
    query: Vec<u8>,
    params: Vec<Blob>,
    marked: bool,
}

// Adds a piece.
fn add(alloc: Global, gathered: &mut Gathered, piece: Piece<'_>) -> Result<(), NoMemory>
    ensures query { OnOk result (gathered.new.query.items ≡ gathered.old.query.items ++ sent_of (seen piece.entry)) }
    ensures params { OnOk result (gathered.new.params.items
        ≡ gathered.old.params.items ++ names_of (seen piece.entry)) }
    ensures marked { OnOk result (gathered.new.marked ≡ (gathered.old.marked || is_mark (seen piece.entry))) }
{
    match piece {
        Piece::Kept(bytes) => gathered.query.extend_from_slice(bytes)?,
        Piece::Plain(byte) => gathered.query.push(byte)?,
        Piece::Name(name) => {
            gathered.query.push(b'?')?;
            gathered.params.push(Blob::from_slice(alloc, name)?)?;
        }
        Piece::Mark => {
            gathered.query.push(b'?')?;
            gathered.marked = true;
        }
    }
    Ok(())
}

// What is in a text.
fn gather(alloc: Global, text: &[u8]) -> Result<Gathered, NoMemory>
    ensures query { IfOk result (λ g. g.query.items ≡ all_sent (split text.now)) }
    ensures params { IfOk result (λ g. g.params.items ≡ all_names (split text.now)) }
    ensures marked { IfOk result (λ g. g.marked ≡ has_mark (split text.now)) }
{
    let mut gathered = Gathered {
        query: Vec::new(alloc),
        params: Vec::new(alloc),
        marked: false,
    };
    let mut rest = text;
    for _ in 0..text.len() {
        match front_piece(rest) {
            None => return Ok(gathered),
            Some((piece, after)) => {
                add(alloc, &mut gathered, piece)?;
                rest = after;
            }
        }
    }
    Ok(gathered)
}

impl ParsedNamedParams {
    /// Finds the named parameters of a text.
    pub fn parse(alloc: Global, text: &[u8]) -> Result<ParsedNamedParams, ParseFault>
        ensures { ParsesTo result (split text.now) }
    {
        let Ok(gathered) = gather(alloc, text) else {
            return Err(ParseFault::NoMemory);
        };
        if gathered.marked && !gathered.params.is_empty() {
            return Err(ParseFault::MixedParams);
        }
        Ok(ParsedNamedParams {
            query: Blob::from(gathered.query),
            params: gathered.params,
        })
    }

    /// The text with `?` in the place of each name and its names, whether it has a `?` of its own or not.
    pub fn replaced(alloc: Global, text: &[u8]) -> Result<ParsedNamedParams, NoMemory>
        ensures query { IfOk result (λ p. p.query ≡ all_sent (split text.now)) }
        ensures names { IfOk result (λ p. p.names ≡ all_names (split text.now)) }
    {
        let gathered = gather(alloc, text)?;
        Ok(ParsedNamedParams {
            query: Blob::from(gathered.query),
            params: gathered.params,
        })
    }

    /// A second value of the same text and names.
    pub fn copy(&self, alloc: Global) -> Result<ParsedNamedParams, NoMemory>
        ensures { IfOk result (λ copy. copy ≡ self.now) }
    {
        Ok(ParsedNamedParams {
            query: self.query.copy(alloc)?,
            params: copy_items(alloc, self.params.as_slice())?,
        })
    }

    /// The text with `?` in the place of each name.
    pub fn query(&self) -> &[u8]
        ensures { result.now ≡ self.now.query }
    {
        self.query.as_slice()
    }

    /// The names in the order of their places, without colons.
    pub fn params(&self) -> &[Blob]
        ensures { result.now ≡ self.now.names }
    {
        self.params.as_slice()
    }
}
