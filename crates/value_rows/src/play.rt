//! Plays the rows.

use crate::built::{say_built, say_changed, say_limited, say_url};
use crate::cells::{say_payload, say_taken};
use crate::conversions::{say_converted, say_tuple};
use crate::kept::{say_cached, say_known, say_statement};
use crate::parameters::{
    say_filled, say_lists, say_many_filled, say_parameter, say_parsed, say_sent,
};
use crate::pools::{say_constraints, say_defaults, say_end, say_kept};
use crate::rows::{OF_LINES, VALUES};
use crate::urls::OPTIONS;
use crate::words::{say, say_number};
use std::alloc::Global;

// Adds what comes of the words about options.
fn say_of_options(alloc: Global, text: &mut String, kind: &str, words: &str) {
    match kind {
        "url" | "flags" | "says" => say_url(alloc, text, kind, words),
        "built" => say_built(alloc, text, words),
        "limited" => say_limited(alloc, text, words),
        "change" => say_changed(alloc, text, words),
        "bounds" => say_constraints(text, words),
        "end" => say_end(text, words),
        "kept" => say_kept(text, words),
        "defaults" => say_defaults(alloc, text),
        _ => say(text, "no such row"),
    }
}

// Adds what comes of the words.
fn say_outcome(alloc: Global, text: &mut String, kind: &str, words: &str) {
    match kind {
        "binary" | "text" => say_payload(alloc, text, kind, words),
        "taken" => say_taken(alloc, text, words),
        "as" => say_converted(alloc, text, words),
        "tuple" => say_tuple(alloc, text, words),
        "names" => say_parsed(alloc, text, words),
        "fill" => say_filled(alloc, text, words),
        "fill_many" => say_many_filled(alloc, text, words),
        "execute" | "ahead" => say_sent(alloc, text, kind, words),
        "lists" => say_lists(alloc, text, words),
        "parameter" => say_parameter(alloc, text, words),
        "statement" => say_statement(alloc, text, words),
        "cache" => say_cached(alloc, text, words),
        "known" => say_known(alloc, text, words),
        _ => say_of_options(alloc, text, kind, words),
    }
}

// The row with the text that comes out in place of the wanted one.
fn played(alloc: Global, row: &str) -> String {
    let (given, _) = row.split_once(" -> ").unwrap_or((row, ""));
    let (kind, words) = given.split_once(' ').unwrap_or((given, ""));
    let mut text = String::new(alloc);
    say(&mut text, given);
    say(&mut text, " -> ");
    say_outcome(alloc, &mut text, kind, words);
    text
}

// How many rows there are, or the first that comes out otherwise, as it comes out.
fn play(alloc: Global, rows: &str, between: char) -> String {
    let mut count = 0_u128;
    for row in rows.split(between) {
        if !row.starts_with("# ") {
            let came = played(alloc, row);
            if came.as_str() != row {
                return came;
            }
            count = count.wrapping_add(1);
        }
    }
    let mut told = String::new(alloc);
    say_number(&mut told, "rows ", count);
    told
}

#[test]
fn ample_values(rt: HostRuntime) {
    let told = play(rt.alloc(), VALUES, '\n');
    assert!(rt; told.as_str() == "rows 223", "{told}");
    let told = play(rt.alloc(), OF_LINES, '|');
    assert!(rt; told.as_str() == "rows 4", "{told}");
}

#[test]
fn ample_options(rt: HostRuntime) {
    let told = play(rt.alloc(), OPTIONS, '\n');
    assert!(rt; told.as_str() == "rows 213", "{told}");
}
