//! Texts that may be absent, and texts as they are printed.

ghost use Rattle.std.specs.Prelude.{◌≡◌, string_bytes, option_map, option_copied};

use my_frame::Text;
use std::fmt;

/// The text, where there is one.
pub fn text_of(text: Option<String>) -> Option<Text>
    ensures { result ≡ option_map string_bytes text }
{
    match text {
        Some(text) => Some(Text::from(text)),
        None => None,
    }
}

/// The text, where there is one, as it is read.
pub fn shown(text: &Option<Text>) -> Option<&str>
    ensures { option_copied result ≡ text.now }
{
    match text {
        Some(text) => Some(text.as_str()),
        None => None,
    }
}

/// A text that is printed on one line, with U+FFFD in place of each control character.
#[derive(Clone, Copy)]
pub struct OneLine<'a>(pub &'a str);

impl fmt::Display for OneLine<'_> {
    fn fmt<W: fmt::Write>(&self, f: &mut fmt::Formatter<W>) -> fmt::Result {
        for c in self.0.chars() {
            f.write_char(if c.is_control() { '\u{fffd}' } else { c })?;
        }
        Ok(())
    }
}
