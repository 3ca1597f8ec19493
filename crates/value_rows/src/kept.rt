//! Prepared statements, the cache of a connection, and the columns that are known of statements.

use crate::cells::columns;
use crate::words::{byte, part, say, say_number, short, word};
use my_frame::{Blob, Listed, NoMemory};
use my_statements::{KnownColumns, SetColumns, Statement, StmtCache, StmtInner};
use my_value::shown::Lossy;
use std::alloc::Global;
use std::sync::Arc;

fn inner(alloc: Global, id: u32, num_columns: u16, kind: u8) -> Result<Arc<StmtInner>, NoMemory> {
    let params = SetColumns::from_columns(columns(alloc, 1, kind, 0)?);
    let inner = StmtInner {
        id,
        connection_id: 7,
        num_params: 1,
        num_columns,
        params,
    };
    match Arc::new(alloc, inner) {
        Ok(inner) => Ok(inner),
        Err(_) => Err(NoMemory),
    }
}

// A statement with one parameter. The words: its number, how many columns it gives, and the parameter's type and name.
fn statement(alloc: Global, words: &str) -> Result<Statement, NoMemory> {
    let name = Blob::from_slice(alloc, word(words, 3).as_bytes())?;
    let mut names = Listed::new(alloc);
    names.push(name)?;
    let inner = inner(alloc, part(words, 0), short(words, 1), byte(words, 2))?;
    Ok(Statement::new(inner, names))
}

fn say_numbers(text: &mut String, statement: &Statement) {
    say_number(text, "id=", u128::from(statement.id()));
    say_number(text, " connection=", u128::from(statement.connection_id()));
    say_number(text, " params=", u128::from(statement.num_params()));
    say_number(text, " columns=", u128::from(statement.num_columns()));
    for column in statement.params() {
        say_number(text, " type=", u128::from(column.column_type));
    }
    for name in statement.names() {
        let _ = write!(text, " name={}", Lossy(name.as_slice()));
    }
}

fn say_beside(alloc: Global, text: &mut String, one: &Statement, other: &Statement) {
    match one.copy(alloc) {
        Ok(copy) => {
            say_numbers(text, &copy);
            say(
                text,
                if copy == *one {
                    ""
                } else {
                    " other than itself"
                },
            );
            drop(copy);
        }
        Err(NoMemory) => say(text, "no copy"),
    }
    say(text, if *one == *other { " like" } else { " unlike" });
}

/// Adds what a copy of a statement says, and whether it is like the statement `1 2 3 foo`.
pub fn say_statement(alloc: Global, text: &mut String, words: &str) {
    let one = statement(alloc, words);
    match (one, statement(alloc, "1 2 3 foo")) {
        (Ok(one), Ok(other)) => {
            say_beside(alloc, text, &one, &other);
            drop(one);
            drop(other);
        }
        _ => say(text, "out of memory"),
    }
}

// A number, or a hyphen for none.
fn say_some(text: &mut String, number: Option<usize>) {
    match number {
        Some(number) => say_number(text, "", number as u128),
        None => say(text, "-"),
    }
}

// Puts the statement of a number, whose text is the digit.
fn put(alloc: Global, cache: &mut StmtCache, digit: u8) -> Result<Option<usize>, NoMemory> {
    let stmt = inner(alloc, u32::from(digit.wrapping_sub(b'0')), 0, 3)?;
    let query = Arc::new(alloc, Vec::from_slice(alloc, &[digit])?)?;
    if cache.contains(stmt.id) || cache.holds(query.as_slice()) {
        return Ok(None);
    }
    match cache.put(query, stmt)? {
        Some(last) => Ok(Some(last.id as usize)),
        None => Ok(None),
    }
}

// Adds the numbers that are held, and those whose text is held.
fn say_held(text: &mut String, cache: &StmtCache) {
    say(text, "[");
    for digit in b'0'..=b'7' {
        let id = u32::from(digit.wrapping_sub(b'0'));
        if cache.contains(id) {
            say_number(text, "", u128::from(id));
        }
        if cache.holds(&[digit]) != cache.contains(id) {
            say(text, "?");
        }
    }
    say(text, "]");
}

// Finds the statement of a text.
fn find(cache: &mut StmtCache, digit: u8) -> Option<usize> {
    match cache.by_query(&[digit]) {
        Some(entry) if entry.query().as_slice() == [digit].as_slice() => {
            Some(entry.stmt().id as usize)
        }
        Some(_) => Some(usize::MAX),
        None => None,
    }
}

fn say_call(alloc: Global, text: &mut String, cache: &mut StmtCache, kind: u8, digit: u8) {
    match kind {
        b'p' => match put(alloc, cache, digit) {
            Ok(last) => say_some(text, last),
            Err(NoMemory) => say(text, "out of memory"),
        },
        b'f' => say_some(text, find(cache, digit)),
        b'r' => cache.remove(u32::from(digit.wrapping_sub(b'0'))),
        b'c' => cache.clear(),
        _ => say_held(text, cache),
    }
}

/// Adds what a cache returns. The words: how many statements it keeps, and its calls, each a letter and a digit: `p` puts a
/// statement that isn't held, and returns the one that has to go; `f` finds one, `r` removes one, `c` clears all, and `h`
/// says which are held.
pub fn say_cached(alloc: Global, text: &mut String, words: &str) {
    match StmtCache::new(alloc, part(words, 0) as usize) {
        Ok(cache) => {
            let mut cache = cache;
            for call in word(words, 1).as_bytes().chunks(2) {
                if let [kind, digit] = call {
                    say_call(alloc, text, &mut cache, *kind, *digit);
                }
            }
            drop(cache);
        }
        Err(NoMemory) => say(text, "out of memory"),
    }
}

// Puts this many columns for each of the statements from `first` on and before `end`.
fn put_columns(
    alloc: Global,
    known: &mut KnownColumns,
    first: u32,
    end: u32,
    count: usize,
) -> Result<(), NoMemory> {
    let columns = SetColumns::from_columns(columns(alloc, count, 3, 0)?);
    for id in first..end {
        known.put(id, columns.share()?)?;
    }
    Ok(())
}

fn count_of(known: &KnownColumns, id: u32) -> Option<usize> {
    match known.get(id) {
        Some(columns) => Some(columns.len()),
        None => None,
    }
}

fn say_known_call(alloc: Global, text: &mut String, known: &mut KnownColumns, call: &str) {
    if word(call, 0) == "get" {
        say_some(text, count_of(known, part(call, 1)));
        return;
    }
    let count = part(call, 2) as usize;
    if put_columns(alloc, known, part(call, 0), part(call, 1), count).is_err() {
        say(text, "out of memory");
    }
}

/// Adds how many columns are known of statements. The words: calls with a comma between them, `get` with a statement, or the
/// first statement, the one after the last, and how many columns each has from now on.
pub fn say_known(alloc: Global, text: &mut String, words: &str) {
    match KnownColumns::new(alloc) {
        Ok(known) => {
            let mut known = known;
            for call in words.split(", ") {
                say_known_call(alloc, text, &mut known, call);
            }
            drop(known);
        }
        Err(NoMemory) => say(text, "out of memory"),
    }
}
