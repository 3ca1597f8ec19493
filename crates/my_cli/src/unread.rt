//! Why a line of a script doesn't read, as far as its first 200 bytes say.
ghost use Rattle.std.specs.Prelude.{◌≡◌};
ghost use Rattle.my_cli.specs.Unread.{unread_text};

use std::num::IntErrorKind;

/// The cause that a line doesn't read.
#[derive(Clone, Copy)]
pub enum Unread {
    /// It ends as lines of Windows do.
    Return,
    NoStep,
    /// It is a world's line or moves the world, in `live`.
    ScriptAlone,
    MissingWord,
    FurtherWord,
    NoNumber,
    LargeNumber,
    TooManyConns,
    /// A world's line has the right words and numbers, or one that doesn't read.
    WordOrPlace,
    Word,
}

impl Unread {
    /// What the message says.
    pub fn text(self) -> &'static str
        ensures { result.now ≡ unread_text self }
    {
        match self {
            Unread::Return => "it ends with a carriage return",
            Unread::NoStep => "no such step",
            Unread::ScriptAlone => "a line of a world, which script alone has",
            Unread::MissingWord => "a word is missing",
            Unread::FurtherWord => "a word too many",
            Unread::NoNumber => "a word is no number",
            Unread::LargeNumber => "a number is too large",
            Unread::TooManyConns => "more than 1000 lines connect",
            Unread::WordOrPlace => "a word doesn't read, or a step stands before the line",
            Unread::Word => "a word doesn't read",
        }
    }
}

// A row for each word that a line begins with, and a letter for each word that follows: N is a number, L the number of a link,
// B that of a packet, V another word, T the text up to the line's end, R any words. W comes first where script alone has
// the line.
const FORMS: &str = "\
packet WLBV
drip WLBV
bytes WLV
turn WL
wait WL
fail WL
end WL
accept WLN
wwait WL
wfail WL
dial WLV
conn C
query NT
prep NT
exec NNR
execn NNR
closestmt NN
next N
collect N
stream N
item N
unstream N
drop N
fields N
ping N
reset N
user NVVV
begin NR
commit N
rollback N
forget N
quit N
poll N
cancel N
advance WN
random WN";

// The letters of the lines that begin with this word.
fn form_of(word: &str) -> Option<&'static str> {
    for row in FORMS.lines() {
        if let Some((name, letters)) = row.split_once(' ') {
            if name == word {
                return Some(letters);
            }
        }
    }
    None
}

// What is before the first blank, and what follows it, if there is one.
fn cut(text: &str) -> (&str, Option<&str>) {
    match text.split_once(' ') {
        Some((word, rest)) => (word, Some(rest)),
        None => (text, None),
    }
}

fn number_fault(word: &str, most: u64) -> Option<Unread> {
    match word.parse::<u64>() {
        Ok(number) if number <= most => None,
        Ok(_) => Some(Unread::LargeNumber),
        Err(error) => match error.kind() {
            IntErrorKind::PosOverflow => Some(Unread::LargeNumber),
            _ => Some(Unread::NoNumber),
        },
    }
}

// What is wrong with a word in the place of this letter.
fn word_fault(letter: u8, word: &str) -> Option<Unread> {
    match letter {
        b'N' => number_fault(word, u64::MAX),
        b'L' => number_fault(word, 65_535),
        b'B' => number_fault(word, 255),
        _ => None,
    }
}

// Where each word has its letter, and each number reads.
fn whole_fault(letters: &str) -> Unread {
    if letters == "C" {
        Unread::TooManyConns
    } else if letters.starts_with('W') {
        Unread::WordOrPlace
    } else {
        Unread::Word
    }
}

// What is wrong with the words that follow the first.
fn rest_fault(letters: &str, rest: Option<&str>) -> Unread {
    let mut rest = rest;
    for letter in letters.bytes() {
        if letter == b'R' || letter == b'T' && rest.is_some() {
            return whole_fault(letters);
        }
        if letter != b'W' && letter != b'C' {
            let Some(text) = rest else {
                return Unread::MissingWord;
            };
            let (word, after) = cut(text);
            if let Some(fault) = word_fault(letter, word) {
                return fault;
            }
            rest = after;
        }
    }
    match rest {
        Some(_) => Unread::FurtherWord,
        None => whole_fault(letters),
    }
}

/// Why this line doesn't read, in `live` or in `script`. The line has at least one byte.
pub fn why_unread(is_live: bool, line: &str) -> Unread {
    let (word, rest) = cut(line);
    match form_of(word) {
        None => Unread::NoStep,
        Some(letters) => {
            if is_live && letters.starts_with('W') {
                Unread::ScriptAlone
            } else {
                rest_fault(letters, rest)
            }
        }
    }
}
