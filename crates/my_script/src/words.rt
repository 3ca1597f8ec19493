//! Reads the words of a command line.
ghost use Rattle.std.specs.Prelude.{◌≡◌, ◌<◌, IfOk, map, option_map, string_bytes};
ghost use Rattle.my_script.specs.Cut.{first_of, rest_of};
ghost use Rattle.my_script.specs.Words.{command_of, command_view, after_plain, plain_view, plain_parts, plain_opts, plain_word, url_opts, word_opts, some_text};

use crate::reading::number::number;
use my_frame::NoMemory;
use my_opts::{Opts, OptsBuilder, UrlError, UrlFault};
use my_opts_parts::limits::LONGEST_URL;
use std::alloc::Global;
use std::fmt;

/// Why a word is no `plain,USER,PASS,PACKET,WAIT` and no URL that gives options.
#[derive(Debug, Drop, PartialEq, Eq)]
pub enum WordFault {
    /// It begins with `plain,`, and what follows isn't four such parts.
    Plain,
    /// It is longer than `LONGEST_URL` bytes.
    TooLong,
    /// The option table refuses it.
    Url(UrlError),
}

impl fmt::Display for WordFault {
    fn fmt<W: fmt::Write>(&self, f: &mut fmt::Formatter<W>) -> fmt::Result {
        match self {
            WordFault::Plain => {
                f.write_str("the word is refused: after plain, it has USER,PASS,PACKET,WAIT")
            }
            WordFault::TooLong => {
                f.write_str("the URL is refused: it is longer than 1048576 bytes")
            }
            WordFault::Url(error) => write!(f, "the URL is refused: {error}"),
        }
    }
}

impl std::error::Error for WordFault {}

// What stands before the first mark, and what follows it, if there is one.
#[derive(Clone, Copy)]
struct TextPieces<'a> {
    first: &'a str,
    rest: Option<&'a str>,
}

fn cut_text(mark: char, text: &str) -> TextPieces<'_>
    requires { mark < 128 }
    ensures first { result.first.now ≡ first_of mark text.now }
    ensures rest { option_map (λ r. r.now) result.rest ≡ rest_of mark text.now }
{
    match text.split_once(mark) {
        Some((first, rest)) => TextPieces {
            first,
            rest: Some(rest),
        },
        None => TextPieces {
            first: text,
            rest: None,
        },
    }
}

// The four parts of a word `plain,USER,PASS,PACKET,WAIT`.
#[derive(Clone, Copy)]
struct Plain<'a> {
    user: &'a str,
    pass: &'a str,
    packet: u64,
    wait: u64,
}

#[tactic(auto, unfolding(crate::specs::Words::plain_parts))]
fn plain_after(text: &str) -> Option<Plain<'_>>
    ensures { option_map plain_view result ≡ plain_parts text.now }
{
    let user = cut_text(',', text);
    let pass = cut_text(',', user.rest?);
    let packet = cut_text(',', pass.rest?);
    let wait = packet.rest?;
    let packet = number(packet.first.as_bytes())?;
    let wait = number(wait.as_bytes())?;
    Some(Plain {
        user: user.first,
        pass: pass.first,
        packet,
        wait,
    })
}

// What follows `plain,`, where a word begins so.
fn plain_text(word: &str) -> Option<&str>
    ensures { option_map (λ t. t.now) result ≡ after_plain word.now }
{
    let head = cut_text(',', word);
    if head.first != "plain" {
        return None;
    }
    head.rest
}

// An empty text is none.
fn filled(alloc: Global, text: &str) -> Result<Option<String>, NoMemory>
    ensures { IfOk result (λ o. option_map string_bytes o ≡ some_text text.now) }
{
    if text.is_empty() {
        return Ok(None);
    }
    Ok(Some(String::from_str(alloc, text)?))
}

fn opts_of(alloc: Global, plain: Plain<'_>) -> Result<Opts, NoMemory>
    ensures { IfOk result (λ o. o ≡ plain_opts (plain_view plain.entry)) }
{
    let user = filled(alloc, plain.user)?;
    let pass = filled(alloc, plain.pass)?;
    let builder = OptsBuilder::new(alloc)?;
    let builder = builder.user(user).pass(pass);
    let builder = builder
        .max_allowed_packet(Some(plain.packet))
        .wait_timeout(Some(plain.wait));
    Ok(Opts::from(builder))
}

fn read_plain(alloc: Global, text: &str) -> Result<Result<Opts, WordFault>, NoMemory>
    ensures { IfOk result (λ read. read ≡ plain_word (plain_parts text.now)) }
{
    match plain_after(text) {
        None => Ok(Err(WordFault::Plain)),
        Some(plain) => Ok(Ok(opts_of(alloc, plain)?)),
    }
}

fn read_url(alloc: Global, word: &str) -> Result<Result<Opts, WordFault>, NoMemory>
    ensures { IfOk result (λ read. read ≡ url_opts word.now) }
{
    if word.len() > LONGEST_URL {
        return Ok(Err(WordFault::TooLong));
    }
    match Opts::from_url(alloc, word) {
        Ok(opts) => Ok(Ok(opts)),
        Err(UrlFault::Url(error)) => Ok(Err(WordFault::Url(error))),
        Err(UrlFault::NoMemory) => Err(NoMemory),
    }
}

/// The options that a word stands for, or why it is refused.
pub fn read_word(alloc: Global, word: &str) -> Result<Result<Opts, WordFault>, NoMemory>
    ensures { IfOk result (λ read. read ≡ word_opts word.now) }
{
    match plain_text(word) {
        Some(text) => read_plain(alloc, text),
        None => read_url(alloc, word),
    }
}

/// A command of two words.
#[derive(Clone, Copy)]
pub struct Command<'a> {
    /// Whether its connections go to real servers: `live WORD` in place of `script WORD`.
    pub is_live: bool,
    /// The word that gives the options.
    pub word: &'a str,
}

/// The command, or none where the words are no command.
pub fn read_command(words: &[String]) -> Option<Command<'_>>
    ensures { option_map command_view result ≡ command_of (map string_bytes words.now) }
{
    match words {
        [name, word] => {
            let (name, word) = (name.as_str(), word.as_str());
            if name == "script" {
                Some(Command {
                    is_live: false,
                    word,
                })
            } else if name == "live" {
                Some(Command {
                    is_live: true,
                    word,
                })
            } else {
                None
            }
        }
        _ => None,
    }
}
