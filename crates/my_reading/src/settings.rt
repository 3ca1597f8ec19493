//! How long a payload may be, and how long a connection may rest: by the options, or by the server's answer.

ghost use Rattle.std.specs.Prelude.{◌≡◌, max, min, slice_get};
ghost use Rattle.std.specs.Option.{option_copied};
ghost use Rattle.my_frame.specs.Numeral.{whole_number};
ghost use Rattle.my_reading.specs.Settings.{bounded, in_force, limit_in, number_in, wait_in, wait_place};

use my_frame::limits::{
    DEFAULT_MAX_ALLOWED_PACKET, GREATEST_MAX_ALLOWED_PACKET, LEAST_MAX_ALLOWED_PACKET,
};
use my_grammar::Login;
use my_value::{Row, Value};

/// The timeout where the server's answer has none, in seconds: eight hours.
const DEFAULT_WAIT: u64 = 28_800;

/// How far the settings are known.
#[derive(Clone, Copy, PartialEq, Eq)]
pub enum Stage {
    /// The login isn't settled yet.
    Unasked,
    /// The server was asked, and its answer's first set isn't read whole.
    Asked,
    Known,
}

/// The settings of a connection.
#[derive(Clone, Copy, PartialEq, Eq)]
pub struct Settings {
    pub stage: Stage,
    /// The longest payload, where the options set it.
    pub limit_option: Option<u64>,
    /// The timeout, where the options set it.
    pub wait_option: Option<u64>,
    /// The longest payload of a command and its answer, in bytes.
    pub limit: u64,
    /// What that will be once the settings are known.
    pub next_limit: u64,
    /// After this many seconds without a command the server ends the connection.
    pub wait_timeout: u64,
}

// The whole number that a text writes: perhaps a plus, and decimal digits.
fn number_at(text: &[u8]) -> Option<u64>
    ensures { result ≡ whole_number 64 text.now }
{
    match str::from_utf8(text) {
        Ok(text) => text.parse::<u64>().ok(),
        Err(_) => None,
    }
}

// The number that a cell holds.
fn number_in(cell: Option<&Value>) -> Option<u64>
    ensures { result ≡ number_in (option_copied cell.entry) }
{
    match cell {
        Some(Value::Bytes(text)) => number_at(text.as_slice()),
        _ => None,
    }
}

fn bounded(limit: u64) -> u64
    ensures { result ≡ bounded limit }
{
    limit
        .max(LEAST_MAX_ALLOWED_PACKET)
        .min(GREATEST_MAX_ALLOWED_PACKET)
}

fn limit_in(option: Option<u64>, row: &Row) -> u64
    ensures { result ≡ limit_in option row.now.cells }
{
    match option {
        Some(limit) => limit,
        None => bounded(number_in(row.as_ref(0)).unwrap_or(DEFAULT_MAX_ALLOWED_PACKET)),
    }
}

// The place of the timeout in a row.
fn wait_place(limit: Option<u64>) -> usize
    ensures { result ≡ wait_place limit }
{
    match limit {
        Some(_) => 0,
        None => 1,
    }
}

fn wait_in(limit: Option<u64>, option: Option<u64>, row: &Row) -> u64
    ensures { result ≡ wait_in limit option row.now.cells }
{
    match option {
        Some(wait) => wait,
        None => number_in(row.as_ref(wait_place(limit))).unwrap_or(DEFAULT_WAIT),
    }
}

impl Settings {
    ghost use Rattle.my_reading.specs.Settings.{awaits_row, end_settings, first_settings, good_settings, told};

    /// Before the login is settled.
    pub fn new(login: &Login) -> Settings
        ensures { result ≡ first_settings login.now }
    {
        Settings {
            stage: Stage::Unasked,
            limit_option: login.packet_limit,
            wait_option: login.wait_timeout,
            limit: DEFAULT_MAX_ALLOWED_PACKET,
            next_limit: login.packet_limit.unwrap_or(DEFAULT_MAX_ALLOWED_PACKET),
            wait_timeout: login.wait_timeout.unwrap_or(DEFAULT_WAIT),
        }
    }

    fn in_force(self) -> Settings
        ensures { result ≡ in_force self }
    {
        Settings {
            stage: Stage::Known,
            limit: self.next_limit,
            ..self
        }
    }

    /// After an OK: it settles the login, and while the server was asked it is the first set, which has no row.
    pub fn after_ok(self) -> Settings
        ensures { result ≡ good_settings self.stage self }
    {
        match self.stage {
            Stage::Unasked => match (self.limit_option, self.wait_option) {
                (Some(_), Some(_)) => self.in_force(),
                _ => Settings {
                    stage: Stage::Asked,
                    ..self
                },
            },
            Stage::Asked => self.in_force(),
            Stage::Known => self,
        }
    }

    /// After a set's end.
    pub fn after_end(self) -> Settings
        ensures { result ≡ end_settings self.stage self }
    {
        match self.stage {
            Stage::Asked => self.in_force(),
            Stage::Unasked | Stage::Known => self,
        }
    }

    /// Whether a row with the settings is awaited.
    pub fn awaits_row(self) -> bool
        ensures { result ≡ awaits_row self.stage }
    {
        self.stage == Stage::Asked
    }

    /// After a row with the settings.
    pub fn after_row(self, row: &Row) -> Settings
        ensures { result ≡ told row.now.cells self }
    {
        Settings {
            next_limit: limit_in(self.limit_option, row),
            wait_timeout: wait_in(self.limit_option, self.wait_option, row),
            ..self
        }
    }
}
