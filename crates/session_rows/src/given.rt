//! What a row gives: bytes, and the options of a session.

use my_frame::NoMemory;
use my_opts::{Opts, OptsBuilder};
use std::alloc::{AllocError, Global};
use std::fmt::Write;

/// The bytes that hexadecimal digits spell; blanks are passed over, and a text that spells none has none.
pub fn bytes_of(alloc: Global, text: &str) -> Result<Vec<u8>, NoMemory> {
    let mut digits = String::new(alloc);
    for part in text.split(' ') {
        digits.push_str(part)?;
    }
    match hex::decode(alloc, digits.as_str()) {
        Ok(bytes) => Ok(bytes),
        Err(_) => Ok(Vec::new(alloc)),
    }
}

/// Adds the digits of these bytes.
pub fn add_digits(text: &mut String, bytes: &[u8]) -> Result<(), AllocError> {
    for &byte in bytes {
        write!(text, "{byte:02x}")?;
    }
    Ok(())
}

/// What happens where bytes are awaited that don't come: the call is cancelled or made to fail, or the link ends.
#[derive(Clone, Copy)]
pub enum Then {
    Cancels,
    Fails,
    Ends,
}

/// What the head of a talk says.
#[derive(Clone, Copy)]
pub struct Head<'a> {
    /// Whether the session connects at once.
    pub connects: bool,
    /// The server's version.
    pub version: &'a str,
    /// The options of both settings, and the texts of the two lists, each of one letter.
    pub limit: Option<u64>,
    pub wait: Option<u64>,
    pub init: &'a str,
    pub setup: &'a str,
    /// The attributes, each a name, a colon and its value, with commas between them.
    pub attributes: &'a str,
    /// How many statements are kept.
    pub cached: u64,
    /// The password.
    pub pass: Option<&'a str>,
    /// Whether a password may be sent as it is, and whether the oldest plugin is refused by its name.
    pub cleartext: bool,
    pub secure: bool,
    pub then: Then,
}

/// A session over a server of this version, with the usual options.
pub fn usual(version: &str) -> Head<'_> {
    Head {
        connects: true,
        version,
        limit: Some(4_194_304),
        wait: Some(28_800),
        init: "",
        setup: "",
        attributes: "",
        cached: 32,
        pass: None,
        cleartext: false,
        secure: true,
        then: Then::Cancels,
    }
}

fn number(text: &str) -> Option<u64> {
    match text.parse::<u64>() {
        Ok(number) => Some(number),
        Err(_) => None,
    }
}

fn with_value<'a>(head: Head<'a>, name: &str, value: &'a str) -> Head<'a> {
    let mut head = head;
    match name {
        "limit" => head.limit = number(value),
        "wait" => head.wait = number(value),
        "init" => head.init = value,
        "setup" => head.setup = value,
        "attributes" => head.attributes = value,
        "pass" => head.pass = Some(value),
        "cached" => head.cached = number(value).unwrap_or(0),
        _ => {}
    }
    head
}

fn with_word<'a>(head: Head<'a>, word: &'a str) -> Head<'a> {
    let mut head = head;
    match word {
        "@" => head.connects = true,
        "+" => head.connects = false,
        "cleartext" => head.cleartext = true,
        "insecure" => head.secure = false,
        "fails" => head.then = Then::Fails,
        "ends" => head.then = Then::Ends,
        _ => match word.split_once('=') {
            Some((name, value)) => return with_value(head, name, value),
            None => head.version = word,
        },
    }
    head
}

/// The head of these words.
pub fn head_of(line: &str) -> Head<'_> {
    let mut head = usual("");
    for word in line.split(' ') {
        head = with_word(head, word);
    }
    head
}

fn texts(alloc: Global, letters: &str) -> Result<Vec<String>, AllocError> {
    let mut texts = Vec::new(alloc);
    for letter in letters.chars() {
        let mut text = String::new(alloc);
        text.push(letter)?;
        texts.push(text)?;
    }
    Ok(texts)
}

// Options with these attributes.
fn with_attributes(
    alloc: Global,
    builder: OptsBuilder,
    attributes: &str,
) -> Result<OptsBuilder, NoMemory> {
    let mut builder = builder;
    for pair in attributes.split(',') {
        if let Some((name, value)) = pair.split_once(':') {
            let name = String::from_str(alloc, name)?;
            let value = String::from_str(alloc, value)?;
            builder = builder.connect_attribute(alloc, name, value)?;
        }
    }
    Ok(builder)
}

fn pass_of(alloc: Global, head: &Head) -> Result<Option<String>, AllocError> {
    match head.pass {
        Some(pass) => Ok(Some(String::from_str(alloc, pass)?)),
        None => Ok(None),
    }
}

/// The options of a user `root`, with what the head says.
pub fn options(alloc: Global, head: &Head) -> Result<Opts, NoMemory> {
    let user = String::from_str(alloc, "root")?;
    let init = texts(alloc, head.init)?;
    let setup = texts(alloc, head.setup)?;
    let pass = pass_of(alloc, head)?;
    let builder = OptsBuilder::new(alloc)?
        .user(Some(user))
        .pass(pass)
        .enable_cleartext_plugin(head.cleartext)
        .secure_auth(head.secure)
        .max_allowed_packet(head.limit)
        .wait_timeout(head.wait)
        .init(init)
        .setup(setup)
        .stmt_cache_size(head.cached);
    let builder = with_attributes(alloc, builder, head.attributes)?;
    Ok(Opts::from(builder))
}

// What follows the version in the greeting, and the OK after the client's response.
const LOGIN_TAIL: &str = "000700000061626364656667680\
    08ba22d02001f011500000000000000000000696a6b6c6d6e6f707172737400\
    6d7973716c5f6e61746976655f70617373776f726400\
    0700000200000002000000";

/// What the server of a head sends while the session connects: its greeting, which is 68 bytes longer than the version, an OK to
/// the response, and an OK to each text of the lists.
pub fn login(alloc: Global, head: &Head) -> Result<Vec<u8>, NoMemory> {
    let mut text = String::new(alloc);
    write!(
        text,
        "{:02x}0000000a",
        head.version.len().saturating_add(68)
    )?;
    add_digits(&mut text, head.version.as_bytes())?;
    text.push_str(LOGIN_TAIL)?;
    for _ in 0..head.init.len().saturating_add(head.setup.len()) {
        text.push_str("0700000100000002000000")?;
    }
    bytes_of(alloc, text.as_str())
}
