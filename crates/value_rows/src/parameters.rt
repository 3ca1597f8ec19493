//! Parameters: names in texts, which values are sent for them, and the payloads that carry these.

ghost use Rattle.std.specs.Prelude.{◌≤◌, length};

use crate::words::{
    blob_of, bytes_of, part, say, say_bytes, say_number, say_values, value_of, values_of,
};
use my_command::statement::{Parameter, put_bulk_head};
use my_frame::{Blob, Listed, NoMemory};
use my_params::bulk::{bulk_list_len, join_types, put_bulk_list, types_agree, types_of};
use my_params::{
    Params, ParamsError, ParsedNamedParams, ahead_of, execute_body, into_values, parameter_of,
    values_for,
};
use my_value::Value;
use my_value::shown::Lossy;
use std::alloc::Global;

// A name: a word, or hexadecimal digits after `x:`.
fn name_of(alloc: Global, word: &str) -> Blob {
    match word.strip_prefix("x:") {
        Some(digits) => Blob::from(bytes_of(alloc, digits)),
        None => blob_of(alloc, word),
    }
}

fn names_of(alloc: Global, written: &str) -> Vec<Blob> {
    let mut names = Vec::new(alloc);
    for word in written.split(' ') {
        if !word.is_empty() {
            let _ = names.push(name_of(alloc, word));
        }
    }
    names
}

// Each pair is a name and a value.
fn pairs_of(alloc: Global, written: &str) -> Vec<(Blob, Value)> {
    let mut pairs = Vec::new(alloc);
    for pair in written.split(", ") {
        if let Some((name, value)) = pair.split_once(' ') {
            let _ = pairs.push((name_of(alloc, name), value_of(alloc, value)));
        }
    }
    pairs
}

fn params_of(alloc: Global, written: &str) -> Params {
    let (kind, rest) = written.split_once(' ').unwrap_or((written, ""));
    match kind {
        "placed" => Params::Positional(Listed::from(values_of(alloc, rest))),
        "named" => Params::Named(Listed::from(pairs_of(alloc, rest))),
        _ => Params::Empty,
    }
}

// Adds the values, or what a copy of the error says.
fn say_filling(alloc: Global, text: &mut String, filling: Result<Vec<Value>, ParamsError>) {
    match filling {
        Ok(values) => {
            say_values(alloc, text, values.as_slice());
            drop(values);
        }
        Err(error) => {
            say_fault(alloc, text, &error);
            drop(error);
        }
    }
}

fn say_fault(alloc: Global, text: &mut String, error: &ParamsError) {
    match error.copy(alloc) {
        Ok(copy) => {
            let _ = write!(text, "{copy}");
            drop(copy);
        }
        Err(NoMemory) => say(text, "no copy"),
    }
}

// Adds the values of parameters that are given away, and whether those of a copy that is kept are others.
fn say_both(alloc: Global, text: &mut String, params: Params, copy: &Params, names: &[Blob]) {
    if *copy != params {
        say(text, "other copy: ");
    }
    let mut kept = String::new(alloc);
    say_filling(alloc, &mut kept, values_for(alloc, copy, names));
    let mut given = String::new(alloc);
    say_filling(alloc, &mut given, into_values(alloc, params, names));
    if kept.as_str() != given.as_str() {
        say(text, "otherwise kept: ");
    }
    say(text, given.as_str());
}

/// Adds the values for names. The words: the names, and after a slash what is given.
pub fn say_filled(alloc: Global, text: &mut String, words: &str) {
    let (written, given) = words.split_once("/ ").unwrap_or((words, ""));
    let names = names_of(alloc, written);
    let params = params_of(alloc, given);
    match params.copy(alloc) {
        Ok(copy) => {
            say_both(alloc, text, params, &copy, names.as_slice());
            drop(copy);
        }
        Err(NoMemory) => say(text, "out of memory"),
    }
    drop(names);
}

// Adds words for each number below `count`, with the number in place of each `#`.
fn say_each(text: &mut String, count: u32, words: &str) {
    for number in 0..count {
        let mut is_later = false;
        for piece in words.split('#') {
            if is_later {
                say_number(text, "", u128::from(number));
            }
            say(text, piece);
            is_later = true;
        }
    }
}

/// Adds what comes of many names with NULL for each and then its number, of which the second counts. The words: how many
/// names there are, and how many of these have pairs.
pub fn say_many_filled(alloc: Global, text: &mut String, words: &str) {
    let count = part(words, 1);
    let mut given = String::new(alloc);
    say_each(&mut given, part(words, 0), "n# ");
    say(&mut given, "/ named ");
    say_each(&mut given, count, "n# NULL, ");
    say_each(&mut given, count, "n# uint #, ");
    let mut wanted = String::new(alloc);
    say_each(&mut wanted, count, "uint #, ");
    let mut filled = String::new(alloc);
    say_filled(alloc, &mut filled, given.as_str());
    if wanted.as_str().strip_suffix(", ") == Some(filled.as_str()) {
        say(text, "the last number of each");
    } else {
        say(text, filled.as_str());
    }
}

fn say_names(alloc: Global, text: &mut String, named: &ParsedNamedParams) {
    match named.copy(alloc) {
        Ok(copy) => {
            let _ = write!(text, "[{}]", Lossy(copy.query()));
            for name in copy.params() {
                let _ = write!(text, " {}", Lossy(name.as_slice()));
            }
            drop(copy);
        }
        Err(NoMemory) => say(text, "no copy"),
    }
}

/// Adds what is prepared of a text, in brackets, and the names in it.
pub fn say_parsed(alloc: Global, text: &mut String, written: &str) {
    match ParsedNamedParams::parse(alloc, written.as_bytes()) {
        Ok(named) => {
            say_names(alloc, text, &named);
            drop(named);
        }
        Err(fault) => {
            let _ = write!(text, "{fault}");
        }
    }
}

// Adds a payload, or the beginning of a long one, as it sends bytes ahead, and its length.
fn say_body(alloc: Global, text: &mut String, body: &[u8]) {
    match body.get(..7) {
        Some(head) if body.len() > 1_000 => {
            say_bytes(alloc, text, head);
            say_number(text, "..", body.len() as u128);
        }
        _ => say_bytes(alloc, text, body),
    }
}

fn say_executed(alloc: Global, text: &mut String, statement: u32, values: &[Value])
    requires { length values.now ≤ 65535 }
{
    match execute_body(alloc, statement, values) {
        Ok((body, is_ahead)) => {
            say_body(alloc, text, body.as_slice());
            say(text, if is_ahead { " after bytes" } else { "" });
            drop(body);
        }
        Err(NoMemory) => say(text, "out of memory"),
    }
}

fn say_ahead(alloc: Global, text: &mut String, statement: u32, values: &[Value])
    requires { length values.now ≤ 65535 }
{
    match ahead_of(alloc, statement, values) {
        Ok(payloads) => {
            let mut between = "";
            for payload in payloads.as_slice() {
                say(text, between);
                say_body(alloc, text, payload.as_slice());
                between = ", ";
            }
            drop(payloads);
        }
        Err(NoMemory) => say(text, "out of memory"),
    }
}

/// Adds what is sent for values. The words: the statement's number, and the values.
pub fn say_sent(alloc: Global, text: &mut String, kind: &str, words: &str) {
    let (statement, written) = words.split_once(' ').unwrap_or((words, ""));
    let values = values_of(alloc, written);
    if values.len() > 65_535 {
        say(text, "too many");
    } else if kind == "ahead" {
        say_ahead(alloc, text, part(statement, 0), values.as_slice());
    } else {
        say_executed(alloc, text, part(statement, 0), values.as_slice());
    }
    drop(values);
}

// Two lists as one payload.
fn two_lists(alloc: Global, first: &[Value], second: &[Value]) -> Result<Vec<u8>, NoMemory> {
    let types = types_of(alloc, first)?;
    let types = join_types(alloc, types.as_slice(), second)?;
    let mut out = Vec::new(alloc);
    put_bulk_head(&mut out, 1, types.as_slice())?;
    put_bulk_list(&mut out, first)?;
    put_bulk_list(&mut out, second)?;
    Ok(out)
}

fn are_of_types(alloc: Global, first: &[Value], second: &[Value]) -> bool {
    match types_of(alloc, first) {
        Ok(types) => types_agree(types.as_slice(), second),
        Err(NoMemory) => false,
    }
}

fn say_bulk(alloc: Global, text: &mut String, first: &[Value], second: &[Value]) {
    match two_lists(alloc, first, second) {
        Ok(out) => {
            say_bytes(alloc, text, out.as_slice());
            drop(out);
        }
        Err(NoMemory) => say(text, "out of memory"),
    }
    say_number(text, " of ", u128::from(bulk_list_len(first)));
    say_number(text, " and ", u128::from(bulk_list_len(second)));
}

/// Adds two lists as they are sent to the statement 1. The words: a list, and after a slash the other one.
pub fn say_lists(alloc: Global, text: &mut String, words: &str) {
    let (written, after) = words.split_once(" / ").unwrap_or((words, ""));
    let first = values_of(alloc, written);
    let second = values_of(alloc, after);
    if are_of_types(alloc, first.as_slice(), second.as_slice()) {
        say_bulk(alloc, text, first.as_slice(), second.as_slice());
    } else {
        say(text, "of other types");
    }
    drop(first);
    drop(second);
}

fn say_form(alloc: Global, text: &mut String, parameter: &Parameter) {
    say_number(text, "", u128::from(parameter.form.kind));
    say_number(text, " ", u128::from(parameter.form.flag));
    if let Some(bytes) = &parameter.value {
        say(text, " bytes ");
        say_bytes(alloc, text, bytes.as_slice());
    }
}

/// Adds the type of a parameter and its bytes, none for NULL. The words: whether it was sent ahead, and the value.
pub fn say_parameter(alloc: Global, text: &mut String, words: &str) {
    let (when, written) = words.split_once(' ').unwrap_or((words, ""));
    let value = value_of(alloc, written);
    match parameter_of(alloc, &value, when == "ahead") {
        Ok(parameter) => {
            say_form(alloc, text, &parameter);
            drop(parameter);
        }
        Err(NoMemory) => say(text, "out of memory"),
    }
    drop(value);
}
