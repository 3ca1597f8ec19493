//! Reads how a transaction begins.
ghost use Rattle.std.specs.Prelude.{◌≡◌, Some, option_map};
ghost use Rattle.my_script.specs.Beginning.{begin_parts, begin_view, level_at, level_in, options_in, with_option};

use super::cut::cut;
use super::number::number;
use my_opts_parts::{IsolationLevel, TxOpts};

/// What follows `begin`: a connection, and what follows a blank after it.
#[derive(Clone, Copy)]
pub struct BeginParts<'a> {
    pub connection: u64,
    pub rest: Option<&'a [u8]>,
}

#[tactic(auto, unfolding(crate::specs::Beginning::begin_parts))]
pub fn begin_parts(rest: &[u8]) -> Option<BeginParts<'_>>
    ensures { option_map begin_view result ≡ begin_parts rest.now }
{
    let first = cut(b' ', rest);
    let connection = number(first.first)?;
    Some(BeginParts {
        connection,
        rest: first.rest,
    })
}

fn level_at(number: u64) -> Option<IsolationLevel>
    ensures { result ≡ level_at number }
{
    match number {
        0 => Some(IsolationLevel::ReadUncommitted),
        1 => Some(IsolationLevel::ReadCommitted),
        2 => Some(IsolationLevel::RepeatableRead),
        3 => Some(IsolationLevel::Serializable),
        _ => None,
    }
}

// `level=N`
fn level(word: &[u8]) -> Option<IsolationLevel>
    ensures { result ≡ level_in word.now }
{
    let pieces = cut(b'=', word);
    if pieces.first != b"level".as_slice() {
        return None;
    }
    level_at(number(pieces.rest?)?)
}

// The options, and one more that a word says.
fn with_option(opts: TxOpts, word: &[u8]) -> Option<TxOpts>
    ensures { result ≡ with_option opts word.now }
{
    let mut more = opts;
    if word == b"snapshot".as_slice() {
        more.with_consistent_snapshot(true);
    } else if word == b"ro".as_slice() {
        more.with_readonly(Some(true));
    } else if word == b"rw".as_slice() {
        more.with_readonly(Some(false));
    } else {
        more.with_isolation_level(Some(level(word)?));
    }
    Some(more)
}

/// How a transaction begins, by the words that follow.
pub fn options_in(rest: Option<&[u8]>) -> Option<TxOpts>
    ensures { result ≡ options_in (option_map (λ r. r.now) rest.entry) }
{
    let mut opts = TxOpts::new();
    let mut left = rest;
    'words: while let Some(text) = left {
        let pieces = cut(b' ', text);
        let Some(more) = with_option(opts, pieces.first) else {
            return None;
        };
        opts = more;
        left = pieces.rest;
    }
    Some(opts)
}
