//! The command that a client's payload is.

ghost use Rattle.std.specs.Prelude.{◌≡◌, drop};
ghost use Rattle.my_server.specs.Command.{command_kind, query_text};

/// Which command a payload is to the server.
#[derive(Clone, Copy)]
pub enum CommandKind {
    Quit,
    Ping,
    ResetConnection,
    Query,
    /// A command that the server doesn't know.
    Other,
}

/// Which command the payload is.
pub fn command_kind(payload: &[u8]) -> CommandKind
    ensures { result ≡ command_kind payload.now }
{
    match payload {
        [0x01] => CommandKind::Quit,
        [0x0E] => CommandKind::Ping,
        [0x1F] => CommandKind::ResetConnection,
        [0x03, ..] => CommandKind::Query,
        _ => CommandKind::Other,
    }
}

/// The text of a query: the bytes after the first.
pub fn query_text(payload: &[u8]) -> &[u8]
    ensures { result.now ≡ query_text payload.now }
{
    match payload {
        [] => payload,
        [_, text @ ..] => text,
    }
}
