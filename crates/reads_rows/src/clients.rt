//! Talks of a client.

use crate::queries::{answer_at, lend};
use crate::rows::ASKED;
use crate::talks::{Answers, goes_on, is_asked};
use my_conn::{Conn, Connected};
use my_connect::Client;
use my_frame::NoMemory;
use my_link::{BlockingLink, MemLink, ReadyLink};
use my_opts_parts::TxOpts;
use my_reading::{Call, CallKind};
use my_rows::Lent;
use my_statements::Statement;
use near_talks::{Waiting, begun, failed, made, new_by, word_of};
use std::alloc::{AllocError, Global};
use std::test::Fail;

/// A client over a link in memory.
pub type Near = Client<ReadyLink<MemLink>>;

fn idle(conn: Waiting) -> Option<Near> {
    match Client::new(conn) {
        Ok(client) => Some(client),
        Err(conn) => {
            drop(conn);
            None
        }
    }
}

fn client_of(alloc: Global, talk: &str) -> Option<Near> {
    match new_by(alloc, talk) {
        Ok(conn) => idle(conn),
        Err(error) => {
            drop(error);
            None
        }
    }
}

// A client, which may be lent for a call, or begin a transaction for it.
impl<L: BlockingLink> Answers for Client<L> {
    fn answer(
        &mut self,
        alloc: Global,
        held: &mut Option<Statement>,
        call: &str,
    ) -> Result<String, AllocError> {
        if let Some(text) = call.strip_prefix("lend ") {
            return lend(alloc, self, held, text);
        }
        if let Some(rest) = call.strip_prefix("tx ") {
            let (end, inner) = rest.split_once(' ').unwrap_or((rest, ""));
            return in_transaction(alloc, self, held, end, inner);
        }
        answer_at(alloc, self, held, call)
    }
}

// A client that is lent for all calls.
impl<L: BlockingLink> Answers for Lent<'_, Client<L>> {
    fn answer(
        &mut self,
        alloc: Global,
        held: &mut Option<Statement>,
        call: &str,
    ) -> Result<String, AllocError> {
        answer_at(alloc, self, held, call)
    }
}

fn lent_on(alloc: Global, client: &mut Near, talk: &str) -> bool {
    let mut lent = Lent::new(client);
    goes_on(alloc, &mut lent, talk)
}

// Whether the calls of a talk return what it says at a client, which may be lent for all of them.
fn is_right(alloc: Global, talk: &str, lent: bool) -> bool {
    let Some(mut client) = client_of(alloc, talk) else {
        return false;
    };
    let right = if lent {
        lent_on(alloc, &mut client, talk)
    } else {
        goes_on(alloc, &mut client, talk)
    };
    drop(client);
    right
}

#[test]
fn ample_query(rt: HostRuntime) -> Result<(), Fail> {
    let mut ran = 0u64;
    for talk in ASKED.split("\n\n") {
        let lends = talk.contains("\nlend ");
        assert!(rt; is_asked(rt.alloc(), talk), "{talk}");
        assert!(rt; is_right(rt.alloc(), talk, false), "{talk}");
        assert!(rt; lends || is_right(rt.alloc(), talk, true), "{talk}");
        ran = ran.wrapping_add(1);
    }
    assert!(rt; ran == 17);
    Ok(())
}

/// A line after the first is how a transaction ends, and a call in it; the answer is that of the call, of what ends the transaction,
/// or of its begin.
const TRANSACTIONS: &str = "\
connect | @greeting turn @login_ok | ok
tx commit collect SELECT n, t FROM people | turn @ok turn @people turn @ok | [(7, \"ann\"), (9, \"bo\")] ok
tx rollback ignore SELECT n, t FROM people | turn @ok turn @err turn @ok | error 1064 ok
tx commit send ping | turn @err | error 1064
send ping | turn @ok | ok

connect | @greeting turn @login_ok | ok
tx leave ignore SELECT n, t FROM people | turn @begun turn @begun turn @ok | () left
send ping | turn @ok | ok
collect SELECT n, t FROM people | turn @people | [(7, \"ann\"), (9, \"bo\")]

connect | @greeting turn @login_ok | ok
tx commit collect SELECT n, t FROM people | turn @begun turn @people turn @err turn @ok | [(7, \"ann\"), (9, \"bo\")] error 1064
collect SELECT n, t FROM people | turn @people | [(7, \"ann\"), (9, \"bo\")]

connect | @greeting turn @login_ok | ok
tx commit send begin | turn @ok turn @ok | error nested ok";

// What a call returns in a transaction, and what ends it then.
fn in_transaction<L: BlockingLink>(
    alloc: Global,
    client: &mut Client<L>,
    held: &mut Option<Statement>,
    end: &str,
    call: &str,
) -> Result<String, AllocError> {
    match client.start_transaction(alloc, TxOpts::new()) {
        Ok(transaction) => {
            let mut transaction = transaction;
            let mut text = answer_at(alloc, &mut transaction, held, call)?;
            text.push_str(" ")?;
            let last = match end {
                "commit" => word_of(transaction.commit(alloc), held),
                "rollback" => word_of(transaction.rollback(alloc), held),
                _ => {
                    drop(transaction);
                    "left"
                }
            };
            text.push_str(last)?;
            Ok(text)
        }
        Err(error) => String::from_str(alloc, failed(error)),
    }
}

#[test]
fn clients_have_transactions(rt: HostRuntime) -> Result<(), Fail> {
    for talk in TRANSACTIONS.split("\n\n") {
        assert!(rt; is_right(rt.alloc(), talk, false), "{talk}");
    }
    Ok(())
}

// Whether the client says what the last OK and the greeting said, and has its moment.
fn is_told(client: &mut Near) -> bool {
    client.set_now(7);
    client.conn().now() == 7
        && client.id() == 7
        && client.server_version() == (8, 0, 36)
        && client.affected_rows() == 3
        && client.last_insert_id() == Some(7)
        && client.get_warnings() == 1
        && client.info() == b"note".as_slice()
}

// Whether a connection at which no call is open is a client again.
fn is_again(alloc: Global, client: Near) -> bool {
    match Client::new(client.into_conn()) {
        Ok(client) => {
            let (ended, link) = client.disconnect(alloc);
            drop(link);
            word_of(ended, &mut None) == "ok"
        }
        Err(conn) => {
            drop(conn);
            false
        }
    }
}

const TOLD: &str = "\
connect | @greeting turn @login_ok | ok
send ping | turn @changed | ok";

fn tells(alloc: Global) -> bool {
    let Some(mut client) = client_of(alloc, TOLD) else {
        return false;
    };
    let right = goes_on(alloc, &mut client, TOLD) && is_told(&mut client);
    is_again(alloc, client) && right
}

fn quits(alloc: Global) -> bool {
    match client_of(alloc, TOLD) {
        Some(client) => word_of(client.quit(alloc), &mut None) == "ok",
        None => false,
    }
}

#[test]
fn clients_quit(rt: HostRuntime) -> Result<(), Fail> {
    assert!(rt; quits(rt.alloc()));
    Ok(())
}

#[test]
fn clients_tell(rt: HostRuntime) -> Result<(), Fail> {
    assert!(rt; tells(rt.alloc()));
    Ok(())
}

// Whether a connection at which a ping is open is given back.
fn gives_back(alloc: Global, conn: Conn<MemLink>) -> bool {
    let mut conn = conn;
    match conn.open_call() {
        None => {
            let (after, _met) = conn.poll_call(alloc, CallKind::Ping, Some(Call::Ping), 3);
            drop(after);
        }
        Some(_) => {}
    }
    match Client::new(conn) {
        Ok(client) => {
            drop(client);
            false
        }
        Err(conn) => {
            let open = matches!(conn.open_call(), Some(CallKind::Ping));
            drop(conn);
            open
        }
    }
}

fn is_open(alloc: Global) -> bool {
    let talk = "connect | @greeting turn @login_ok turn wait | ok";
    match begun(alloc, talk, usize::MAX) {
        Ok(connecting) => match made(alloc, connecting, 9, "").0 {
            Connected::Made(conn) => gives_back(alloc, conn),
            Connected::Pending(connecting) => {
                drop(connecting);
                false
            }
            Connected::Failed(left) => {
                drop(left);
                false
            }
        },
        Err(NoMemory) => false,
    }
}

#[test]
fn no_client_is_open(rt: HostRuntime) -> Result<(), Fail> {
    assert!(rt; is_open(rt.alloc()));
    Ok(())
}
