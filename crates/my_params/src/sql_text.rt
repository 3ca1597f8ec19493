//! The pieces of an SQL text: quotes, comments, places of parameters and other bytes.

ghost use Rattle.std.specs.Prelude.{◌≡◌, ◌+◌, ◌<◌, ◌≤◌, ◌==◌, ◌&&◌, ◌||◌, Option, List, IfSome, length, not, position};
ghost use Rattle.std.specs.Option.{option_map};
ghost use Rattle.my_params.specs.SqlText.{block_len, comment_len, dashes_len, is_name_byte, is_name_start, is_skipping, line_len, name_len, outside_at, piece_at, quote_len, seen, skip_len, slash_len};

/// A piece of an SQL text.
#[derive(Clone, Copy)]
pub enum Piece<'a> {
    /// A quote or a comment, which is sent as it is.
    Kept(&'a [u8]),
    /// A byte outside quotes and comments.
    Plain(u8),
    /// The name of a parameter, without its colon.
    Name(&'a [u8]),
    /// A question mark outside quotes and comments.
    Mark,
}

// Whether the byte is a backslash that skips the next one.
fn skips_next(quote: u8, byte: u8) -> bool
    ensures { result ≡ is_skipping quote byte }
{
    byte == b'\\' && quote != b'`'
}

fn quote_len(bytes: &[u8], quote: u8) -> usize
    ensures len { result ≡ quote_len quote bytes.now }
    ensures within { result ≤ length bytes.now }
{
    let mut rest = bytes;
    let mut len = 0;
    loop {
        match rest {
            [] => return len,
            [_] => return len + 1,
            [first, second @ ..] => {
                if *first == quote {
                    return len + 1;
                }
                if skips_next(quote, *first) {
                    len += 2;
                    rest = &second[1..];
                } else {
                    len += 1;
                    rest = second;
                }
            }
        }
    }
}

// Where the line ends.
fn line_end(bytes: &[u8]) -> Option<usize>
    ensures place { result ≡ position (λ b. b == 10) bytes.now }
    ensures within { IfSome result (λ k. k < length bytes.now) }
{
    bytes.iter().position(|b| *b == b'\n')
}

fn line_len(bytes: &[u8]) -> usize
    ensures len { result ≡ line_len bytes.now }
    ensures within { result ≤ length bytes.now }
{
    match line_end(bytes) {
        Some(end) => end,
        None => bytes.len(),
    }
}

fn block_len(bytes: &[u8]) -> usize
    ensures len { result ≡ block_len bytes.now }
    ensures within { result ≤ length bytes.now }
{
    let mut rest = bytes;
    let mut len = 0;
    loop {
        match rest {
            [] => return len,
            [b'*', b'/', ..] => return len + 2,
            [_, after @ ..] => {
                len += 1;
                rest = after;
            }
        }
    }
}

fn dashes_len(bytes: &[u8]) -> usize
    ensures len { result ≡ dashes_len bytes.now }
    ensures within { result ≤ length bytes.now + 1 }
{
    match bytes {
        [b'-', b' ', after @ ..] => 3 + line_len(after),
        _ => 0,
    }
}

fn slash_len(bytes: &[u8]) -> usize
    ensures len { result ≡ slash_len bytes.now }
    ensures within { result ≤ length bytes.now + 1 }
{
    match bytes {
        [b'*', b'!' | b'+', ..] => 0,
        [b'*', after @ ..] => 2 + block_len(after),
        _ => 0,
    }
}

// The length of the quote or comment at the front, 0 where there is none.
fn skip_len(text: &[u8]) -> usize
    ensures len { result ≡ skip_len text.now }
    ensures within { result ≤ length text.now }
{
    match text {
        [quote @ (b'\'' | b'"' | b'`'), bytes @ ..] => 1 + quote_len(bytes, *quote),
        [b'#', bytes @ ..] => 1 + line_len(bytes),
        [b'-', bytes @ ..] => dashes_len(bytes),
        [b'/', bytes @ ..] => slash_len(bytes),
        _ => 0,
    }
}

fn begins_name(byte: u8) -> bool
    ensures { result ≡ is_name_start byte }
{
    byte == b'_' || byte.is_ascii_lowercase()
}

fn continues_name(byte: u8) -> bool
    ensures { result ≡ is_name_byte byte }
{
    begins_name(byte) || byte.is_ascii_digit()
}

// Where bytes of a name end.
fn name_end(bytes: &[u8]) -> Option<usize>
    ensures place { result ≡ position (λ c. not (is_name_byte c)) bytes.now }
    ensures within { IfSome result (λ k. k < length bytes.now) }
{
    bytes.iter().position(|b| !continues_name(*b))
}

// The length of the name at the front, 0 where there is none.
fn name_len(bytes: &[u8]) -> usize
    ensures len { result ≡ name_len bytes.now }
    ensures within { result ≤ length bytes.now }
{
    match bytes {
        [first, others @ ..] => {
            if !begins_name(*first) {
                return 0;
            }
            match name_end(others) {
                Some(end) => 1 + end,
                None => 1 + others.len(),
            }
        }
        [] => 0,
    }
}

// What is outside quotes and comments.
fn outside(first: u8, bytes: &[u8]) -> (Piece<'_>, &[u8])
    ensures piece { seen result.0 ≡ (outside_at first bytes.now).0 }
    ensures rest { result.1.now ≡ (outside_at first bytes.now).1 }
{
    if first == b'?' {
        return (Piece::Mark, bytes);
    }
    let len = name_len(bytes);
    if first == b':' && len > 0 {
        let (name, rest) = bytes.split_at(len);
        return (Piece::Name(name), rest);
    }
    (Piece::Plain(first), bytes)
}

/// The piece at the front, and the text after it.
pub fn front_piece(text: &[u8]) -> Option<(Piece<'_>, &[u8])>
    ensures { option_map (λ x. (seen x.0, x.1.now)) result ≡ piece_at text.now }
{
    let (first, bytes) = text.split_first()?;
    let skipped = skip_len(text);
    if skipped > 0 {
        let (kept, rest) = text.split_at(skipped);
        return Some((Piece::Kept(kept), rest));
    }
    Some(outside(*first, bytes))
}
