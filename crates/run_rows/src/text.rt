//! Reads the lines of a row. The first one has its name. Lines of three marks make texts: `$` the words, a line for each (without
//! such lines: those of a plain script), `>` the script, `<` what is written first. After the mark and a space a line follows, in
//! which `|` parts lines; after `. ` one without its end; after `@ ` the names of shared parts; after `* ` a number of times, a first
//! number, and a text that is repeated, in which each `%` begins a number (`push_number`).
//!
//! Other lines: `status`; `cause` of a refusal, or the number and the text of a line that doesn't read; `room` of the sink; `whole`
//! where nothing more is written; `unjudged` where its transcript is not judged; and those of `judged`.

use crate::rows::parts::PARTS;
use std::alloc::{AllocError, Global};

/// What follows this mark in the first line that begins with it.
pub fn field<'a>(row: &'a str, mark: &str) -> Option<&'a str> {
    for line in row.lines() {
        if let Some(rest) = line.strip_prefix(mark) {
            return Some(rest);
        }
    }
    None
}

pub fn number(text: &str) -> u64 {
    text.parse::<u64>().unwrap_or(u64::MAX)
}

/// What stands before the first space, and what follows it.
pub fn cut(text: &str) -> (&str, &str) {
    text.split_once(' ').unwrap_or((text, ""))
}

// The shared part of this name.
fn part_of(name: &str) -> &'static str {
    for line in PARTS.lines() {
        let (found, text) = cut(line);
        if found == name {
            return text;
        }
    }
    "no part"
}

fn push_lines(text: &mut String, lines: &str) -> Result<(), AllocError> {
    for letter in lines.chars() {
        text.push(if letter == '|' { '\n' } else { letter })?;
    }
    Ok(())
}

fn push_parts(text: &mut String, names: &str) -> Result<(), AllocError> {
    for name in names.split(' ') {
        push_lines(text, part_of(name))?;
    }
    Ok(())
}

// The number in decimal; its last byte so; each of its digits in hexadecimal; its last four bytes, the lowest first, so.
fn push_number(
    alloc: Global,
    text: &mut String,
    form: &str,
    number: u64,
) -> Result<(), AllocError> {
    let low = (number & 0xffff_ffff) as u32;
    let swapped = low.swap_bytes();
    match form {
        "b" => text.push_str((number & 255).to_string(alloc)?.as_str()),
        "h" => {
            for digit in number.to_string(alloc)?.as_str().chars() {
                text.push('3')?;
                text.push(digit)?;
            }
            Ok(())
        }
        "l" => text.push_str(format!(in alloc; "{swapped:08x}")?.as_str()),
        _ => text.push_str(number.to_string(alloc)?.as_str()),
    }
}

// Each `%` is followed by a form, a space, what is added to the number, and a `;`.
fn push_numbered(
    alloc: Global,
    text: &mut String,
    template: &str,
    first: u64,
) -> Result<(), AllocError> {
    let mut is_later = false;
    for piece in template.split('%') {
        let (added, rest) = piece.split_once(';').unwrap_or(("", piece));
        if is_later {
            let (form, more) = cut(added);
            push_number(alloc, text, form, first.wrapping_add(number(more)))?;
        }
        push_lines(text, rest)?;
        is_later = true;
    }
    Ok(())
}

fn push_repeated(alloc: Global, text: &mut String, rest: &str) -> Result<(), AllocError> {
    let (count, rest) = cut(rest);
    let (first, template) = cut(rest);
    let first = number(first);
    for i in 0..number(count) {
        push_numbered(alloc, text, template, first.wrapping_add(i))?;
    }
    Ok(())
}

fn push_marked(alloc: Global, text: &mut String, rest: &str) -> Result<(), AllocError> {
    let (form, rest) = cut(rest);
    match form {
        "" => {
            push_lines(text, rest)?;
            text.push('\n')
        }
        "." => push_lines(text, rest),
        "@" => push_parts(text, rest),
        _ => push_repeated(alloc, text, rest),
    }
}

/// The text of the lines with this mark.
pub fn marked(alloc: Global, row: &str, mark: char) -> Result<String, AllocError> {
    let mut text = String::new(alloc);
    for line in row.lines() {
        if let Some(rest) = line.strip_prefix(mark) {
            push_marked(alloc, &mut text, rest)?;
        }
    }
    Ok(text)
}
