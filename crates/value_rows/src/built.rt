//! Options of URLs, options that are built by calls, and changes of user.

use crate::options::{say_opts, say_refusal, say_target};
use crate::words::{millis, number, say, short, word};
use my_frame::NoMemory;
use my_opts::{
    ChangeUserOpts, DEFAULT_POOL_CONSTRAINTS, Millis, Opts, OptsBuilder, PoolConstraints, PoolOpts,
    UrlFault,
};
use std::alloc::Global;
use std::collections::BTreeMap;
use std::net::IpAddr;

// The options of a URL of a row, none of which is long.
fn opts_of(alloc: Global, url: &str) -> Result<Opts, UrlFault> {
    if url.len() > 1_000 {
        return Err(UrlFault::NoMemory);
    }
    Opts::from_url(alloc, url)
}

fn say_look(text: &mut String, look: &str, opts: &Opts) {
    match look {
        "flags" => {
            let _ = write!(text, "{:#010x}", opts.get_capabilities().0);
        }
        _ => say_opts(text, opts),
    }
}

/// Adds what is looked at of a URL's options or refusal: the line, the flags, or what the refusal says.
pub fn say_url(alloc: Global, text: &mut String, look: &str, url: &str) {
    match opts_of(alloc, url) {
        Ok(opts) => {
            say_look(text, look, &opts);
            drop(opts);
        }
        Err(fault) => {
            say_refusal(alloc, text, look, &fault);
            drop(fault);
        }
    }
}

fn string_of(alloc: Global, written: &str) -> String {
    match String::from_str(alloc, written) {
        Ok(text) => text,
        Err(_) => String::new(alloc),
    }
}

// The texts of a list with semicolons; a hyphen is none.
fn strings_of(alloc: Global, written: &str) -> Vec<String> {
    let mut texts = Vec::new(alloc);
    for text in written.split(';').filter(|text| *text != "-") {
        let _ = texts.push(string_of(alloc, text));
    }
    texts
}

// The addresses of a list with semicolons; a hyphen is no list.
fn ips_of(alloc: Global, written: &str) -> Option<Vec<IpAddr>> {
    if written == "-" {
        return None;
    }
    let mut ips = Vec::new(alloc);
    for text in written.split(';') {
        if let Ok(ip) = text.parse::<IpAddr>() {
            let _ = ips.push(ip);
        }
    }
    Some(ips)
}

// A list of one attribute; a hyphen is no list.
fn attributes_of(alloc: Global, written: &str) -> Option<BTreeMap<String, String>> {
    let (name, value) = written.split_once(':')?;
    let mut attributes = BTreeMap::new(alloc);
    let _ = attributes.insert(string_of(alloc, name), string_of(alloc, value));
    Some(attributes)
}

// The text at a place of a list with commas; a hyphen is none.
fn text_at(alloc: Global, list: &str, place: usize) -> Option<String> {
    match list.split(',').nth(place) {
        None | Some("-") => None,
        Some(written) => Some(string_of(alloc, written)),
    }
}

// The host, user, password, database and socket.
fn with_texts(alloc: Global, builder: OptsBuilder, list: &str) -> OptsBuilder {
    let host = text_at(alloc, list, 0);
    let builder = match host {
        Some(host) => builder.ip_or_hostname(host),
        None => builder,
    };
    builder
        .user(text_at(alloc, list, 1))
        .pass(text_at(alloc, list, 2))
        .db_name(text_at(alloc, list, 3))
        .socket(text_at(alloc, list, 4))
}

// The port, how often an idle socket tests, how long an idle connection stays usable, how many statements are kept, the
// longest payload and the waiting time.
fn with_numbers(builder: OptsBuilder, words: &str) -> OptsBuilder {
    builder
        .tcp_port(short(words, 0))
        .tcp_keepalive(millis(words, 1))
        .conn_ttl(millis(words, 2))
        .stmt_cache_size(number(words, 3).unwrap_or(u64::MAX))
        .max_allowed_packet(number(words, 4))
        .wait_timeout(number(words, 5))
}

// The truth values, 1 or 0.
fn with_truths(builder: OptsBuilder, words: &str) -> OptsBuilder {
    builder
        .tcp_nodelay(word(words, 0) == "1")
        .prefer_socket(word(words, 1) == "1")
        .secure_auth(word(words, 2) == "1")
        .client_found_rows(word(words, 3) == "1")
        .enable_cleartext_plugin(word(words, 4) == "1")
}

// The bounds, how long idle connections stay, how often they are looked through in seconds, how long a connection lives, its
// jitter, whether it is reset, and how many may wait.
fn pool_of(words: &str) -> PoolOpts {
    let max = number(words, 1).unwrap_or(0);
    let bounds = PoolConstraints::new(number(words, 0).unwrap_or(0), max);
    PoolOpts::new()
        .with_constraints(bounds.unwrap_or(DEFAULT_POOL_CONSTRAINTS))
        .with_inactive_connection_ttl(Millis::from_millis(number(words, 2).unwrap_or(1)))
        .with_ttl_check_interval(Millis::from_secs(number(words, 3).unwrap_or(1)))
        .with_abs_conn_ttl(millis(words, 4))
        .with_abs_conn_ttl_jitter(millis(words, 5))
        .with_reset_connection(word(words, 6) == "1")
        .with_max_waiting(number(words, 7))
}

// The queries at the beginning and at each reset, the known addresses, and the attributes, of which one is a list of its own.
fn with_lists(alloc: Global, builder: OptsBuilder, words: &str) -> OptsBuilder {
    builder
        .init(strings_of(alloc, word(words, 0)))
        .setup(strings_of(alloc, word(words, 1)))
        .resolved_ips(ips_of(alloc, word(words, 2)))
        .connect_attributes(attributes_of(alloc, word(words, 3)))
}

// One attribute after the other.
fn with_attributes(
    alloc: Global,
    builder: OptsBuilder,
    list: &str,
) -> Result<OptsBuilder, NoMemory> {
    let mut builder = builder;
    for pair in list.split(';') {
        if let Some((name, value)) = pair.split_once(':') {
            let (name, value) = (string_of(alloc, name), string_of(alloc, value));
            builder = builder.connect_attribute(alloc, name, value)?;
        }
    }
    Ok(builder)
}

// The group at a place of words with slashes between the groups.
fn group(words: &str, place: usize) -> &str {
    words.split(" / ").nth(place).unwrap_or("")
}

// A copy of what is built by the groups of a row that has them all.
fn built(alloc: Global, builder: OptsBuilder, words: &str) -> Result<OptsBuilder, NoMemory> {
    let builder = with_numbers(builder, group(words, 1));
    let builder = with_truths(builder, group(words, 2)).pool_opts(pool_of(group(words, 3)));
    let builder = with_lists(alloc, builder, group(words, 4));
    let builder = with_attributes(alloc, builder, group(words, 5))?;
    let copy = builder.copy(alloc);
    drop(builder);
    copy
}

// Adds a word where a copy of options isn't equal, or one with another port is.
fn say_copy(alloc: Global, text: &mut String, opts: &Opts) {
    match opts.copy(alloc) {
        Ok(copy) => {
            say(text, if copy == *opts { "" } else { " other copy" });
            let other = Opts::from(OptsBuilder::from_opts(copy).tcp_port(2));
            say(text, if other == *opts { " like another" } else { "" });
            drop(other);
        }
        Err(NoMemory) => say(text, "no copy"),
    }
}

fn say_builder(alloc: Global, text: &mut String, builder: OptsBuilder) {
    let opts = Opts::from(builder);
    say_opts(text, &opts);
    say(text, "; ");
    say_target(alloc, text, &opts);
    say_copy(alloc, text, &opts);
    drop(opts);
}

// Adds the options of a builder with the texts of the first group and what the other groups say, if there are others.
fn say_groups(alloc: Global, text: &mut String, builder: OptsBuilder, words: &str) {
    let builder = with_texts(alloc, builder, group(words, 0));
    let built = if words.contains(" / ") {
        built(alloc, builder, words)
    } else {
        Ok(builder)
    };
    match built {
        Ok(builder) => say_builder(alloc, text, builder),
        Err(NoMemory) => say(text, "out of memory"),
    }
}

/// Adds the line and the target of options that are built. Nothing is said without words.
pub fn say_built(alloc: Global, text: &mut String, words: &str) {
    match OptsBuilder::new(alloc) {
        Ok(builder) if words.is_empty() => say_builder(alloc, text, builder),
        Ok(builder) => say_groups(alloc, text, builder, words),
        Err(NoMemory) => say(text, "out of memory"),
    }
}

// A builder that begins with the options of a URL of a row.
fn builder_of(alloc: Global, url: &str) -> Result<OptsBuilder, UrlFault> {
    if url.len() > 1_000 {
        return Err(UrlFault::NoMemory);
    }
    OptsBuilder::from_url(alloc, url)
}

/// Adds the line and the target of a URL's options with a limit of packets and a waiting time.
pub fn say_limited(alloc: Global, text: &mut String, words: &str) {
    match builder_of(alloc, word(words, 0)) {
        Ok(builder) => {
            let builder = builder.max_allowed_packet(number(words, 1));
            say_builder(alloc, text, builder.wait_timeout(number(words, 2)));
        }
        Err(fault) => {
            say_refusal(alloc, text, "", &fault);
            drop(fault);
        }
    }
}

// Sets a part of a change of user: to a text after `=`, else to none.
fn with_part(alloc: Global, change: ChangeUserOpts, call: &str) -> ChangeUserOpts {
    let (name, value) = match call.split_once('=') {
        Some((name, value)) => (name, Some(string_of(alloc, value))),
        None => (call, None),
    };
    match name {
        "user" => change.with_user(value),
        "pass" => change.with_pass(value),
        "db" => change.with_db_name(value),
        _ => change,
    }
}

fn say_part(text: &mut String, name: &str, part: Option<Option<&str>>) {
    if let Some(value) = part {
        say(text, name);
        if let Some(value) = value {
            say(text, "=");
            say(text, value);
        }
    }
}

// Adds what a change sets.
fn say_parts(alloc: Global, text: &mut String, change: &ChangeUserOpts) {
    match change.copy(alloc) {
        Ok(copy) => {
            say(
                text,
                if copy == ChangeUserOpts::default() {
                    "nothing"
                } else {
                    "a change"
                },
            );
            say_part(text, " user", copy.user());
            say_part(text, " pass", copy.pass());
            say_part(text, " db", copy.db_name());
            say(text, if copy == *change { "" } else { " other copy" });
            drop(copy);
        }
        Err(NoMemory) => say(text, "no copy"),
    }
}

fn say_update(alloc: Global, text: &mut String, change: ChangeUserOpts) {
    match Opts::from_url(alloc, "mysql://u@h/d") {
        Ok(opts) => {
            let mut opts = opts;
            say(
                text,
                if change.would_change(&opts) {
                    "; other: "
                } else {
                    "; as before: "
                },
            );
            change.update_opts(&mut opts);
            say_opts(text, &opts);
            drop(opts);
        }
        Err(fault) => {
            say_refusal(alloc, text, "", &fault);
            drop(fault);
        }
    }
}

/// Adds what a change of user sets, whether it changes the options of `mysql://u@h/d`, and their line afterwards.
pub fn say_changed(alloc: Global, text: &mut String, calls: &str) {
    let mut change = ChangeUserOpts::new();
    for call in calls.split(", ") {
        change = with_part(alloc, change, call);
    }
    say_parts(alloc, text, &change);
    say_update(alloc, text, change);
}
