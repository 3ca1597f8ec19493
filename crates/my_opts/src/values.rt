//! How the value of an option is parsed in a URL's query.

ghost use Rattle.std.specs.Prelude.{◌≡◌};
ghost use Rattle.my_frame.specs.Numeral.{whole_number};
ghost use Rattle.my_opts.specs.Values.{truth, is_compression};

/// A truth value: `true` or `false`.
pub(crate) fn truth_of(text: &str) -> Option<bool>
    ensures { result ≡ truth text.now }
{
    match text {
        "true" => Some(true),
        "false" => Some(false),
        _ => None,
    }
}

/// A whole number of 32 bits: a plus or none, and decimal digits.
pub(crate) fn whole32(text: &str) -> Option<u32>
    ensures { result ≡ whole_number 32 text.now }
{
    text.parse().ok()
}

/// A whole number of 64 bits: a plus or none, and decimal digits.
pub(crate) fn whole64(text: &str) -> Option<u64>
    ensures { result ≡ whole_number 64 text.now }
{
    text.parse().ok()
}

/// Whether the text is a strength of compression: a word, or one digit.
pub(crate) fn is_compression(text: &str) -> bool
    ensures { result ≡ is_compression text.now }
{
    let bytes = text.as_bytes();
    text == "fast"
        || text == "best"
        || text == "on"
        || text == "true"
        || (bytes.len() == 1 && b'0' <= bytes[0] && bytes[0] <= b'9')
}
