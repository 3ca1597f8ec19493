//! One exchange as it is read, payload by payload.

ghost use Rattle.std.specs.Prelude.{◌≡◌, [], ◌++◌, None, OnOk, IfOk, MatchOption};
ghost use Rattle.my_frame.specs.Chunks.{chunks, number_after_payload};
ghost use Rattle.my_grammar.specs.Growth.{described_after, number_next, said};
ghost use Rattle.my_grammar.specs.Progress.{IsAt, talk_of};
ghost use Rattle.my_grammar.specs.Reading.{HeardNone, HeardOne, Hears, InFront, NoneInFront};
ghost use Rattle.my_grammar.specs.Contexts.{is_bad};
ghost use Rattle.my_frame.specs.Front.{front_at};
ghost use Rattle.my_grammar.specs.Sets.{ByStatement, NoSets, column_list};
ghost use Rattle.my_grammar.specs.Talk.{Changing, Queried, commands_bytes};
ghost use Rattle.my_reply.specs.Column.{column_at};

use crate::kinds::kind_at;
use crate::login::Login;
use crate::packet::Packet;
use crate::queue::Queue;
use crate::said::says;
use crate::spot::{Context, Kind, RowFormat, Spot, Terms};
use my_auth::AuthStand;
use my_frame::{
    Blob, CodecError, Copied, FramedPayload, Listed, NoMemory, ReadError, payload_in_front,
};
use my_reply::{Column, read_column};
use std::alloc::Global;

/// How an exchange begins: with the server's greeting, or with a command.
#[derive(Drop)]
pub enum Opening {
    Connect,
    /// A command that one OK or ERR answers.
    Simple {
        terms: Terms,
        command: Blob,
    },
    /// A change of user to one with the password `secret`, whose chain begins so.
    Change {
        terms: Terms,
        secret: Option<Blob>,
        stand: AuthStand,
        command: Blob,
    },
    /// A command that sets answer.
    Query {
        terms: Terms,
        command: Blob,
    },
    /// A prepared statement to execute, which sets with binary rows answer. Ahead of it parts of long values are sent.
    Execute {
        terms: Terms,
        ahead: Listed<Blob>,
        command: Blob,
    },
    /// A statement to prepare.
    Prepare {
        terms: Terms,
        command: Blob,
    },
    /// A command without a reply.
    Silent {
        terms: Terms,
        command: Blob,
    },
}

impl Opening {
    /// A second value of the same opening.
    pub fn copy(&self, alloc: Global) -> Result<Opening, NoMemory>
        ensures { IfOk result (λ copy. copy ≡ self.now) }
    {
        match self {
            Opening::Connect => Ok(Opening::Connect),
            Opening::Simple { terms, command } => Ok(Opening::Simple {
                terms: *terms,
                command: command.copy(alloc)?,
            }),
            Opening::Change {
                terms,
                secret,
                stand,
                command,
            } => Ok(Opening::Change {
                terms: *terms,
                secret: secret.copy(alloc)?,
                stand: *stand,
                command: command.copy(alloc)?,
            }),
            Opening::Query { terms, command } => Ok(Opening::Query {
                terms: *terms,
                command: command.copy(alloc)?,
            }),
            Opening::Execute {
                terms,
                ahead,
                command,
            } => Ok(Opening::Execute {
                terms: *terms,
                ahead: ahead.copy(alloc)?,
                command: command.copy(alloc)?,
            }),
            Opening::Prepare { terms, command } => Ok(Opening::Prepare {
                terms: *terms,
                command: command.copy(alloc)?,
            }),
            Opening::Silent { terms, command } => Ok(Opening::Silent {
                terms: *terms,
                command: command.copy(alloc)?,
            }),
        }
    }
}

/// An exchange as far as it is read.
#[derive(Drop)]
pub struct Progress {
    pub context: Context,
    /// The columns of the set that is being read, as far as they are described; none between sets.
    pub columns: Vec<Column>,
    /// The sequence id of the next packet.
    pub number: u8,
    /// The server's payloads in order.
    pub packets: Vec<Packet>,
    /// The bytes that the client sent.
    pub sent: Queue,
    /// The password by which the client answers in the exchange's chain; none in others.
    pub secret: Option<Blob>,
}

// The bytes of payloads that are sent ahead of a command, of each from the sequence id 0.
fn sent_ahead(alloc: Global, ahead: &[Blob]) -> Result<Queue, NoMemory>
    ensures { IfOk result (λ sent. sent ≡ commands_bytes ahead.now) }
{
    let mut sent = Queue::new(alloc);
    for payload in ahead {
        sent.push_payload(payload.as_slice(), 0)?;
    }
    Ok(sent)
}

// An exchange that begins with a command, after what is sent ahead of it.
fn asked_after(
    alloc: Global,
    mut sent: Queue,
    spot: Spot,
    rows: RowFormat,
    terms: Terms,
    command: &[u8],
) -> Result<Progress, NoMemory>
    ensures { IfOk result (λ p. (p.context ≡ record { spot = spot; rows = rows; columns = 0; terms = terms })
        × (p.columns.items ≡ []) × (p.number ≡ number_after_payload command.now 0) × (p.packets.items ≡ [])
        × (p.sent ≡ sent ++ chunks command.now 0) × (p.secret ≡ None)) }
{
    let number = sent.push_payload(command, 0)?;
    let context = Context {
        spot,
        rows,
        columns: 0,
        terms,
    };
    Ok(Progress {
        context,
        columns: Vec::new(alloc),
        number,
        packets: Vec::new(alloc),
        sent,
        secret: None,
    })
}

// An exchange that begins with a command.
fn asked(alloc: Global, spot: Spot, terms: Terms, command: &[u8]) -> Result<Progress, NoMemory>
    ensures { IfOk result (λ p. (p.context ≡ record { spot = spot; rows = RowFormat.Text; columns = 0; terms = terms })
        × (p.columns.items ≡ []) × (p.number ≡ number_after_payload command.now 0) × (p.packets.items ≡ [])
        × (p.sent ≡ [] ++ chunks command.now 0) × (p.secret ≡ None)) }
{
    asked_after(
        alloc,
        Queue::new(alloc),
        spot,
        RowFormat::Text,
        terms,
        command,
    )
}

// A change of user.
fn changing(
    alloc: Global,
    terms: Terms,
    secret: &Option<Blob>,
    stand: AuthStand,
    command: &[u8],
) -> Result<Progress, NoMemory>
    ensures { IfOk result (λ p. IsAt (Changing terms secret.now stand command.now []) p) }
{
    let secret = secret.copy(alloc)?;
    let mut begun = asked(alloc, Spot::Authentication(stand), terms, command)?;
    begun.secret = secret;
    Ok(begun)
}

// A statement that is executed, after parts of long values.
#[tactic(auto, using(crate::proofs::Commands::ahead_then))]
fn executed(
    alloc: Global,
    terms: Terms,
    ahead: &[Blob],
    command: &[u8],
) -> Result<Progress, NoMemory>
    ensures { IfOk result (λ p. IsAt (Queried terms command.now (NoSets (ByStatement ahead.now []))) p) }
{
    let sent = sent_ahead(alloc, ahead)?;
    asked_after(alloc, sent, Spot::Head, RowFormat::Binary, terms, command)
}

// The whole payload in front of the bytes.
fn whole_in_front(
    alloc: Global,
    bytes: &[u8],
    number: u8,
    limit: u64,
) -> Result<Option<FramedPayload>, NoMemory>
    ensures { IfOk result (λ o. MatchOption o (NoneInFront (front_at number limit bytes.now))
        (λ framed. InFront number limit bytes.now framed)) }
{
    match payload_in_front(alloc, bytes, number, limit) {
        Ok(found) => Ok(found),
        Err(CodecError::Fault(_)) => Ok(None),
        Err(CodecError::NoMemory) => Err(NoMemory),
    }
}

// The column joins the others, where the payload is one.
fn add_column(alloc: Global, columns: &mut Vec<Column>, payload: &[u8]) -> Result<(), NoMemory>
    ensures { OnOk result (columns.new.items ≡ columns.old.items ++ column_list (column_at payload.now)) }
{
    match read_column(alloc, payload) {
        Ok(column) => columns.push(column).map_err(|_| NoMemory),
        Err(ReadError::Malformed) => Ok(()),
        Err(ReadError::NoMemory) => Err(NoMemory),
    }
}

fn is_bad(kind: Kind) -> bool
    ensures { result ≡ is_bad kind }
{
    match kind {
        Kind::Bad => true,
        _ => false,
    }
}

impl Progress {
    /// An exchange that begins so.
    pub(crate) fn begin(
        alloc: Global,
        login: &Login,
        opening: &Opening,
    ) -> Result<Progress, NoMemory>
        ensures { IfOk result (λ p. IsAt (talk_of login.now opening.now) p) }
    {
        match opening {
            Opening::Connect => Ok(Progress {
                context: Context::start(login),
                columns: Vec::new(alloc),
                number: 0,
                packets: Vec::new(alloc),
                sent: Queue::new(alloc),
                secret: login.password.copy(alloc)?,
            }),
            Opening::Simple { terms, command } => {
                asked(alloc, Spot::Single, *terms, command.as_slice())
            }
            Opening::Change {
                terms,
                secret,
                stand,
                command,
            } => changing(alloc, *terms, secret, *stand, command.as_slice()),
            Opening::Query { terms, command } => {
                asked(alloc, Spot::Head, *terms, command.as_slice())
            }
            Opening::Execute {
                terms,
                ahead,
                command,
            } => executed(alloc, *terms, ahead.as_slice(), command.as_slice()),
            Opening::Prepare { terms, command } => {
                asked(alloc, Spot::Prepare, *terms, command.as_slice())
            }
            Opening::Silent { terms, command } => {
                asked(alloc, Spot::Idle, *terms, command.as_slice())
            }
        }
    }

    // What the client sends after a payload: its response to a greeting, or its answer in a chain.
    fn say(
        &mut self,
        alloc: Global,
        login: &Login,
        kind: Kind,
        payload: &[u8],
        next: u8,
    ) -> Result<(), NoMemory>
        requires { next ≡ number_after_payload payload.now self.old.number }
        ensures sent { OnOk result (self.new.sent
            ≡ self.old.sent ++ said login.now self.old.secret kind payload.now self.old.number) }
        ensures number { OnOk result (self.new.number
            ≡ number_next login.now self.old.secret kind payload.now self.old.number) }
        ensures secret { self.new.secret ≡ self.old.secret }
        ensures context { self.new.context ≡ self.old.context }
        ensures columns { self.new.columns.items ≡ self.old.columns.items }
        ensures packets { self.new.packets.items ≡ self.old.packets.items }
    {
        let said = says(alloc, login, &self.secret, kind, payload)?;
        self.number = match said {
            Some(said) => self.sent.push_payload(said.as_slice(), next)?,
            None => next,
        };
        Ok(())
    }

    // What a payload of this kind says of the columns of a set.
    fn describe(&mut self, alloc: Global, kind: Kind, payload: &[u8]) -> Result<(), NoMemory>
        ensures columns { OnOk result
            (self.new.columns.items ≡ described_after self.old.columns.items kind payload.now) }
        ensures context { self.new.context ≡ self.old.context }
        ensures number { self.new.number ≡ self.old.number }
        ensures packets { self.new.packets.items ≡ self.old.packets.items }
        ensures sent { self.new.sent ≡ self.old.sent }
        ensures secret { self.new.secret ≡ self.old.secret }
    {
        match kind {
            Kind::Column => add_column(alloc, &mut self.columns, payload)?,
            Kind::ColumnsDone | Kind::Row => {}
            _ => self.columns.clear(),
        }
        Ok(())
    }

    // A payload of this kind is read.
    fn hear(
        &mut self,
        alloc: Global,
        login: &Login,
        kind: Kind,
        payload: Blob,
        next: u8,
    ) -> Result<(), NoMemory>
        requires { next ≡ number_after_payload payload self.old.number }
        ensures { OnOk result (Hears login.now kind payload self.old self.new) }
    {
        self.say(alloc, login, kind, payload.as_slice(), next)?;
        self.describe(alloc, kind, payload.as_slice())?;
        self.context = self.context.after(kind);
        self.packets
            .push(Packet { kind, payload })
            .map_err(|_| NoMemory)?;
        Ok(())
    }

    /// Reads the payload that the bytes begin with, and returns how many bytes its packets take.
    /// `None` where no payload fits: then nothing changes.
    pub(crate) fn hear_one(
        &mut self,
        alloc: Global,
        login: &Login,
        bytes: &[u8],
    ) -> Result<Option<usize>, NoMemory>
        ensures { IfOk result (λ o. MatchOption o (HeardNone bytes.now self.old self.new)
            (λ len. HeardOne login.now bytes.now self.old self.new len)) }
    {
        let found = whole_in_front(alloc, bytes, self.number, self.context.terms.limit)?;
        let Some(framed) = found else {
            return Ok(None);
        };
        let FramedPayload { payload, span } = framed;
        let kind = kind_at(self.context, self.columns.as_slice(), payload.as_slice());
        if is_bad(kind) {
            return Ok(None);
        }
        self.hear(alloc, login, kind, payload, span.next)?;
        Ok(Some(span.len))
    }
}
