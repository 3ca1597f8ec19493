//! Reads how a connection's user changes.
ghost use Rattle.std.specs.Prelude.{◌≡◌, IfOk, None, option_map, string_bytes};
ghost use Rattle.my_script.specs.Changing.{change_of, change_view, last_part, part_of, part_view, text_in, user_parts, user_view};

use super::cut::{Pieces, cut};
use super::number::number;
use my_frame::NoMemory;
use my_opts::ChangeUserOpts;
use std::alloc::Global;

/// What a word makes of a part of the account.
#[derive(Clone, Copy)]
pub enum Part<'a> {
    /// It stays.
    Kept,
    /// It is none from then on.
    Cleared,
    /// It gets this value.
    Valued(&'a str),
}

/// What the words make of the user's name, the password and the database.
#[derive(Clone, Copy)]
pub struct ChangeWords<'a> {
    pub user: Part<'a>,
    pub pass: Part<'a>,
    pub db_name: Part<'a>,
}

/// What follows `user`: a connection, and what the words after it change.
#[derive(Clone, Copy)]
pub struct UserParts<'a> {
    pub connection: u64,
    pub words: ChangeWords<'a>,
}

fn text_in(word: &[u8]) -> Option<&str>
    ensures { option_map (λ t. t.now) result ≡ text_in word.now }
{
    match str::from_utf8(word) {
        Ok(text) => Some(text),
        Err(_) => None,
    }
}

fn read_part(word: &[u8]) -> Option<Part<'_>>
    ensures { option_map part_view result ≡ part_of word.now }
{
    if word.is_empty() {
        return None;
    }
    if word == b"=".as_slice() {
        return Some(Part::Kept);
    }
    if word == b"-".as_slice() {
        return Some(Part::Cleared);
    }
    Some(Part::Valued(text_in(word)?))
}

// The last word, which nothing follows.
fn last_part(pieces: Pieces<'_>) -> Option<Part<'_>>
    ensures { let rest = option_map (λ r. r.now) pieces.entry.rest in
        option_map part_view result ≡ last_part pieces.entry.first.now rest }
{
    match pieces.rest {
        None => read_part(pieces.first),
        Some(_) => None,
    }
}

#[tactic(auto, unfolding(crate::specs::Changing::change_of))]
fn change_words(words: &[u8]) -> Option<ChangeWords<'_>>
    ensures { option_map change_view result ≡ change_of words.now }
{
    let first = cut(b' ', words);
    let user = read_part(first.first)?;
    let second = cut(b' ', first.rest?);
    let pass = read_part(second.first)?;
    let third = cut(b' ', second.rest?);
    let db_name = last_part(third)?;
    Some(ChangeWords {
        user,
        pass,
        db_name,
    })
}

#[tactic(auto, unfolding(crate::specs::Changing::user_parts))]
pub fn user_parts(rest: &[u8]) -> Option<UserParts<'_>>
    ensures { option_map user_view result ≡ user_parts rest.now }
{
    let first = cut(b' ', rest);
    let connection = number(first.first)?;
    let words = change_words(first.rest?)?;
    Some(UserParts { connection, words })
}

// The part's new value as a change takes it; the outer None keeps the part.
fn value(alloc: Global, part: Part<'_>) -> Result<Option<Option<String>>, NoMemory>
    ensures { IfOk result (λ value. option_map (λ v. option_map string_bytes v) value ≡ part_view part.entry) }
{
    match part {
        Part::Kept => Ok(None),
        Part::Cleared => Ok(Some(None)),
        Part::Valued(text) => Ok(Some(Some(String::from_str(alloc, text)?))),
    }
}

fn with_user(change: ChangeUserOpts, user: Option<Option<String>>) -> ChangeUserOpts
    requires { change.user ≡ None }
    ensures { result ≡ record change { user = option_map (λ v. option_map string_bytes v) user } }
{
    match user {
        None => change,
        Some(user) => change.with_user(user),
    }
}

fn with_pass(change: ChangeUserOpts, pass: Option<Option<String>>) -> ChangeUserOpts
    requires { change.pass ≡ None }
    ensures { result ≡ record change { pass = option_map (λ v. option_map string_bytes v) pass } }
{
    match pass {
        None => change,
        Some(pass) => change.with_pass(pass),
    }
}

fn with_db_name(change: ChangeUserOpts, db_name: Option<Option<String>>) -> ChangeUserOpts
    requires { change.db_name ≡ None }
    ensures { result ≡ record change { db_name = option_map (λ v. option_map string_bytes v) db_name } }
{
    match db_name {
        None => change,
        Some(db_name) => change.with_db_name(db_name),
    }
}

/// The change that the words say.
pub fn change(alloc: Global, words: ChangeWords<'_>) -> Result<ChangeUserOpts, NoMemory>
    ensures { IfOk result (λ change. change ≡ change_view words.entry) }
{
    let user = value(alloc, words.user)?;
    let pass = value(alloc, words.pass)?;
    let db_name = value(alloc, words.db_name)?;
    let change = with_user(ChangeUserOpts::new(), user);
    let change = with_pass(change, pass);
    Ok(with_db_name(change, db_name))
}
