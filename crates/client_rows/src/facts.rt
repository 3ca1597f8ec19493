//! What a connection says without a call, as words.

ghost use Rattle.std.specs.Prelude.{◌≡◌, None};

use my_client::Tape;
use my_conn::Conn;
use my_link::{CheckStep, Link};
use my_statements::Statement;

/// Whether there is no tape; one is let go.
pub fn is_none(tape: Option<Tape>) -> bool {
    let none = tape.is_none();
    drop(tape);
    none
}

fn said(right: bool, word: &'static str) -> &'static str {
    if right { word } else { "other" }
}

// The numbers of changed rows and warnings, the id and the remark of the last OK.
fn changes<L>(conn: &Conn<L>) -> &'static str {
    let right = conn.affected_rows() == 3
        && conn.last_insert_id() == Some(7)
        && conn.get_warnings() == 1
        && conn.info() == b"note".as_slice();
    said(right, "3 7 1 note")
}

// The number of the connection and the server's version, and the options' user and timeout.
fn server<L>(conn: &Conn<L>) -> &'static str {
    if conn.is_disconnected() {
        return "closed";
    }
    let right = conn.id() == 7
        && conn.server_version() == (8, 0, 36)
        && conn.opts().user() == Some("root")
        && conn.opts().wait_timeout() == Some(28800);
    said(right, "7 8.0.36 root 28800")
}

// The user of the options, which a change of user changes.
fn user<L>(conn: &Conn<L>) -> &'static str {
    match conn.opts().user() {
        Some("bob") => "bob",
        Some("root") => "root",
        _ => "other",
    }
}

// The moment of its end, how long it may rest, whether it is reset for its next user, and that no pool has it.
fn life<L>(conn: &Conn<L>) -> &'static str {
    match conn.deadline() {
        None => said(
            conn.ttl() == 28_800_000 && conn.reset_flag() && !conn.is_pooled(),
            "endless 28800000 reset",
        ),
        Some(end) => said(
            end == 60_005 && conn.ttl() == 9_000 && !conn.reset_flag(),
            "60005 9000 kept",
        ),
    }
}

// What a pool tells it is what it says then.
fn marks<L>(conn: &mut Conn<L>) -> &'static str {
    conn.set_pooled(true);
    conn.reset_connection(false);
    conn.set_now(7);
    said(
        conn.is_pooled() && !conn.reset_flag() && conn.now() == 7,
        "pooled kept 7",
    )
}

// The moment of the last payload.
fn moment<L>(conn: &Conn<L>) -> &'static str {
    match conn.last_io() {
        5 => "5",
        7 => "7",
        _ => "other",
    }
}

// How many columns the rows of the statement that is held have, where that is known.
fn columns<L>(conn: &Conn<L>, held: &Option<Statement>) -> &'static str {
    match held {
        None => "other",
        Some(statement) => match conn.columns_of(statement) {
            Some(columns) => said(columns.len() == 1, "one"),
            None => "none",
        },
    }
}

fn check<L: Link>(conn: &mut Conn<L>) -> &'static str {
    let (step, met) = conn.check();
    match step {
        CheckStep::Alive => "alive",
        CheckStep::Dead => { if met.deaths == 1 { "dead" } else { "unread" } }
        CheckStep::NotYet => "pending",
        CheckStep::Failed => "error link",
    }
}

// Whether a tape was kept.
fn tape<L>(conn: &mut Conn<L>) -> &'static str {
    if is_none(conn.take_tape()) {
        "none"
    } else {
        "kept"
    }
}

fn forget<L: Link>(conn: &mut Conn<L>) -> &'static str
    requires { conn.old.pending ≡ None }
{
    conn.forget_transaction();
    "ok"
}

/// What a connection says without a call. `forget` gives its transaction up, and `tape` hands its tape out.
pub fn fact<L: Link>(conn: &mut Conn<L>, held: &Option<Statement>, name: &str) -> &'static str
    requires { conn.old.pending ≡ None }
{
    match name {
        "forget" => forget(conn),
        "check" => check(conn),
        "tape" => tape(conn),
        "changes" => changes(conn),
        "server" => server(conn),
        "account" => user(conn),
        "dirty" => { if conn.is_dirty() { "yes" } else { "no" } }
        "moment" => moment(conn),
        "life" => life(conn),
        "marks" => marks(conn),
        "columns" => columns(conn, held),
        _ => "unknown",
    }
}
