//! The words that lines begin with.
ghost use Rattle.std.specs.Prelude.{◌≡◌};
ghost use Rattle.my_script.specs.Keyword.{moving_keyword_of, transaction_keyword_of, statement_keyword_of, session_keyword_of, step_keyword_of, keyword_of};

/// The word that a line begins with.
#[derive(Clone, Copy)]
pub enum Keyword {
    Packet,
    Drip,
    Bytes,
    Turn,
    Wait,
    Fail,
    End,
    Accept,
    WriteWait,
    WriteFail,
    Dial,
    Conn,
    Query,
    Prepare,
    Execute,
    ExecuteNamed,
    CloseStatement,
    Next,
    Collect,
    Stream,
    StreamItem,
    Unstream,
    Drop,
    Ping,
    Reset,
    User,
    Begin,
    Commit,
    Rollback,
    Forget,
    Quit,
    Fields,
    Poll,
    Cancel,
    Advance,
    Random,
    Unknown,
}

fn moving_keyword(word: &[u8]) -> Keyword
    ensures { result ≡ moving_keyword_of word.now }
{
    if word == b"advance".as_slice() {
        return Keyword::Advance;
    }
    if word == b"random".as_slice() {
        return Keyword::Random;
    }
    Keyword::Unknown
}

fn transaction_keyword(word: &[u8]) -> Keyword
    ensures { result ≡ transaction_keyword_of word.now }
{
    if word == b"begin".as_slice() {
        return Keyword::Begin;
    }
    if word == b"commit".as_slice() {
        return Keyword::Commit;
    }
    if word == b"rollback".as_slice() {
        return Keyword::Rollback;
    }
    if word == b"forget".as_slice() {
        return Keyword::Forget;
    }
    moving_keyword(word)
}

fn statement_keyword(word: &[u8]) -> Keyword
    ensures { result ≡ statement_keyword_of word.now }
{
    if word == b"prep".as_slice() {
        return Keyword::Prepare;
    }
    if word == b"exec".as_slice() {
        return Keyword::Execute;
    }
    if word == b"execn".as_slice() {
        return Keyword::ExecuteNamed;
    }
    if word == b"closestmt".as_slice() {
        return Keyword::CloseStatement;
    }
    transaction_keyword(word)
}

fn session_keyword(word: &[u8]) -> Keyword
    ensures { result ≡ session_keyword_of word.now }
{
    if word == b"ping".as_slice() {
        return Keyword::Ping;
    }
    if word == b"reset".as_slice() {
        return Keyword::Reset;
    }
    if word == b"user".as_slice() {
        return Keyword::User;
    }
    if word == b"quit".as_slice() {
        return Keyword::Quit;
    }
    if word == b"fields".as_slice() {
        return Keyword::Fields;
    }
    statement_keyword(word)
}

fn step_keyword(word: &[u8]) -> Keyword
    ensures { result ≡ step_keyword_of word.now }
{
    if word == b"conn".as_slice() {
        return Keyword::Conn;
    }
    if word == b"query".as_slice() {
        return Keyword::Query;
    }
    if word == b"next".as_slice() {
        return Keyword::Next;
    }
    if word == b"collect".as_slice() {
        return Keyword::Collect;
    }
    if word == b"stream".as_slice() {
        return Keyword::Stream;
    }
    if word == b"item".as_slice() {
        return Keyword::StreamItem;
    }
    if word == b"unstream".as_slice() {
        return Keyword::Unstream;
    }
    if word == b"drop".as_slice() {
        return Keyword::Drop;
    }
    if word == b"poll".as_slice() {
        return Keyword::Poll;
    }
    if word == b"cancel".as_slice() {
        return Keyword::Cancel;
    }
    session_keyword(word)
}

/// Which keyword this word is.
pub fn known_keyword(word: &[u8]) -> Keyword
    ensures { result ≡ keyword_of word.now }
{
    if word == b"packet".as_slice() {
        return Keyword::Packet;
    }
    if word == b"drip".as_slice() {
        return Keyword::Drip;
    }
    if word == b"bytes".as_slice() {
        return Keyword::Bytes;
    }
    if word == b"turn".as_slice() {
        return Keyword::Turn;
    }
    if word == b"wait".as_slice() {
        return Keyword::Wait;
    }
    if word == b"fail".as_slice() {
        return Keyword::Fail;
    }
    if word == b"end".as_slice() {
        return Keyword::End;
    }
    if word == b"accept".as_slice() {
        return Keyword::Accept;
    }
    if word == b"wwait".as_slice() {
        return Keyword::WriteWait;
    }
    if word == b"wfail".as_slice() {
        return Keyword::WriteFail;
    }
    if word == b"dial".as_slice() {
        return Keyword::Dial;
    }
    step_keyword(word)
}
