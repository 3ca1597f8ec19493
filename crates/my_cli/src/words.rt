//! The words of the command line.
ghost use Rattle.std.specs.Prelude.{◌≡◌, map, string_bytes};
ghost use Rattle.my_cli.specs.Live.{has_live};
ghost use Rattle.my_script.specs.Words.{command_of};

use my_script::{Command, read_command};
use std::alloc::AllocError;
use std::env::VarError;
use std::rt::Env;
use std::{env, io};

/// The words after the program's name.
pub fn command_words<R: Env + AllocGlobal>(rt: &R) -> io::Result<Vec<String>> {
    let mut words = Vec::new(rt.alloc());
    for word in env::args(rt)?.skip(1) {
        words.push(word).map_err(AllocError::from)?;
    }
    Ok(words)
}

/// Whether the words ask for connections to real servers.
pub fn is_live(words: &[String]) -> bool
    ensures { result ≡ has_live (command_of (map string_bytes words.now)) }
{
    match read_command(words) {
        Some(Command { is_live, .. }) => is_live,
        None => false,
    }
}

/// The NAME of a command whose second word is `env:NAME`.
pub fn variable(words: &[String]) -> Option<&str> {
    match read_command(words) {
        Some(Command { word, .. }) => word.strip_prefix("env:"),
        None => None,
    }
}

/// The words of a command, with the value that this name has in the environment as the second.
pub fn with_variable<R: Env + AllocGlobal>(
    rt: &R,
    words: &[String],
    name: &str,
) -> Result<Vec<String>, VarError> {
    let value = env::var(rt, name)?;
    let mut with = Vec::new(rt.alloc());
    if let Some(command) = words.first() {
        with.push(command.clone()?).map_err(AllocError::from)?;
    }
    with.push(value).map_err(AllocError::from)?;
    Ok(with)
}
