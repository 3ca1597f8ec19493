//! Laws of what a server answers. Each function's clause is the law; it does nothing.

ghost use Rattle.std.specs.Prelude.{Bool, false};
ghost use Rattle.my_frame.specs.Reading.{FindsExactly, ReadsBack};
ghost use Rattle.my_handshake.specs.Greeting.{greeting_at};
ghost use Rattle.my_reply.specs.Column.{IsColumn, column_at};
ghost use Rattle.my_reply.specs.ColumnCount.{IsColumnCount, column_count_at};
ghost use Rattle.my_reply.specs.EofPacket.{IsEof, eof_at};
ghost use Rattle.my_reply.specs.ErrPacket.{IsErr, err_at};
ghost use Rattle.my_reply.specs.Event.{IsEvent, event_at};
ghost use Rattle.my_reply.specs.OkPacket.{IsEndOk, IsOk, end_ok_at, ok_at};
ghost use Rattle.my_reply.specs.Replies.{IsInfile, IsPrepareOk, infile_at, prepare_ok_at};
ghost use Rattle.my_reply.specs.Sent.{IsSentColumn, IsSentCount, IsSentEndOk, IsSentErr, IsSentGreeting, IsSentOk};
ghost use Rattle.my_reply.specs.Server.{server_bytes};

use crate::server::ServerPacket;

/// A payload is at most one column, which is what reading gives.
pub fn column_is_read()
    ensures { FindsExactly column_at IsColumn }
{}

/// A payload is at most one count of columns, which is what reading gives, with cached columns
/// (`cached`) and without.
pub fn column_count_is_read()
    ensures { (cached : Bool) → FindsExactly (column_count_at cached) (IsColumnCount cached) }
{}

/// A payload is at most one EOF packet, which is what reading gives.
pub fn eof_is_read()
    ensures { FindsExactly eof_at IsEof }
{}

/// A payload is at most one ERR packet, which is what reading gives, before the client's response
/// and after it.
pub fn err_is_read()
    ensures { (before : Bool) → FindsExactly (err_at before) (IsErr before) }
{}

/// A payload is at most one event, which is what reading gives.
pub fn event_is_read()
    ensures { FindsExactly event_at IsEvent }
{}

/// A payload is at most one OK packet, and at most one OK packet that ends a set of rows; reading
/// gives them.
pub fn ok_is_read()
    ensures ok { FindsExactly ok_at IsOk }
    ensures end_ok { FindsExactly end_ok_at IsEndOk }
{}

/// A payload is at most one reply to a statement that was prepared, and at most one request of a
/// file; reading gives them.
pub fn replies_are_read()
    ensures prepare_ok { FindsExactly prepare_ok_at IsPrepareOk }
    ensures infile { FindsExactly infile_at IsInfile }
{}

/// A packet that `write_server` writes is read back by its reader, under these premises: numbers
/// fit their bytes; the greeting's nonce has 20 bytes, its capabilities contain
/// `NEEDED_CAPABILITIES`, and its version and plugin have no zero byte; the SQL state has 5 bytes
/// and the message is UTF-8; an OK that ends a set is shorter than a full chunk; a count of columns
/// is from 1 to 65,535. The cells of a row are read by the reader of rows, of which nothing is said
/// here.
pub fn written_packets_are_read()
    ensures greeting { ReadsBack IsSentGreeting (λ g. server_bytes (ServerPacket.Greeting g)) greeting_at }
    ensures ok { ReadsBack IsSentOk (λ ok. server_bytes (ServerPacket.Fine ok)) ok_at }
    ensures end_ok { ReadsBack IsSentEndOk (λ ok. server_bytes (ServerPacket.End ok)) end_ok_at }
    ensures err { ReadsBack IsSentErr (λ err. server_bytes (ServerPacket.Refuse err)) (err_at false) }
    ensures count { (cached : Bool)
        → ReadsBack IsSentCount (λ n. server_bytes (ServerPacket.Count n.count)) (column_count_at cached) }
    ensures column { ReadsBack IsSentColumn (λ c. server_bytes (ServerPacket.Column c)) column_at }
{}
