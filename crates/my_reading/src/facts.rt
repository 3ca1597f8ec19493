//! What a client learns from the server's payloads.

ghost use Rattle.std.specs.Prelude.{◌≡◌, OnOk, OnErr, IfOk};
ghost use Rattle.my_handshake.specs.Greeting.{greeting_at};
ghost use Rattle.my_reply.specs.OkPacket.{ok_at, end_ok_at};
ghost use Rattle.my_reply.specs.Column.{column_at};
ghost use Rattle.my_reply.specs.Replies.{prepare_ok_at};

use crate::row::read_row;
use crate::settings::Settings;
use my_auth::{AuthAsk, AuthPlugin, nonce_in};
use my_flags::StatusFlags;
use my_frame::{Blob, Listed, NoMemory, ReadError};
use my_grammar::{Kind, Login, RowFormat, is_caching};
use my_handshake::{Greeting, read_greeting};
use my_reply::{Column, OkPacket, read_column, read_end_ok, read_ok, read_prepare_ok};
use my_statements::{SetColumns, StmtInner};
use my_value::Row;
use std::alloc::Global;

/// What the newest reply to a statement to prepare said so far.
#[derive(Drop)]
pub struct PreparedReply {
    /// The server's number of the statement.
    pub id: u32,
    pub num_params: u16,
    pub num_columns: u16,
    /// The columns of its parameters.
    pub params: Listed<Column>,
    /// The columns of its rows.
    pub fields: Listed<Column>,
}

/// What the server's payloads said so far.
#[derive(Drop)]
pub struct Facts {
    /// The server's version, as its greeting has it.
    pub version: Blob,
    /// The number of the connection.
    pub connection: u32,
    /// Whether the nonce is for `caching_sha2_password`, and not for the native plugin.
    pub caching: bool,
    /// The nonce with which a client proves that it knows its password: that of the greeting, or of the last switch to one
    /// of the two plugins.
    pub nonce: Blob,
    /// The server's status, of the last OK or set's end; none after an ERR.
    pub status: StatusFlags,
    /// The last OK, or the OK that ended a set; none after an ERR.
    pub ok: Option<OkPacket>,
    /// How many columns of a head are still awaited.
    pub left: u16,
    /// The columns of a head so far.
    pub gathered: Listed<Column>,
    /// The columns of the newest set whose head is whole.
    pub columns: SetColumns,
    /// How long a payload may be, and how long the connection may rest.
    pub settings: Settings,
    /// The newest reply to a statement to prepare.
    pub reply: PreparedReply,
    /// How many whole payloads were taken.
    pub place: u64,
}

// The greeting, where it is one.
fn greeting_in(alloc: Global, payload: &[u8]) -> Result<Option<Greeting>, NoMemory>
    ensures { IfOk result (λ o. o ≡ greeting_at payload.now) }
{
    match read_greeting(alloc, payload) {
        Ok(greeting) => Ok(Some(greeting)),
        Err(ReadError::Malformed) => Ok(None),
        Err(ReadError::NoMemory) => Err(NoMemory),
    }
}

// The OK, where it is one.
fn ok_in(alloc: Global, payload: &[u8]) -> Result<Option<OkPacket>, NoMemory>
    ensures { IfOk result (λ o. o ≡ ok_at payload.now) }
{
    match read_ok(alloc, payload) {
        Ok(ok) => Ok(Some(ok)),
        Err(ReadError::Malformed) => Ok(None),
        Err(ReadError::NoMemory) => Err(NoMemory),
    }
}

// The OK that ends a set, where it is one.
fn end_ok_in(alloc: Global, payload: &[u8]) -> Result<Option<OkPacket>, NoMemory>
    ensures { IfOk result (λ o. o ≡ end_ok_at payload.now) }
{
    match read_end_ok(alloc, payload) {
        Ok(ok) => Ok(Some(ok)),
        Err(ReadError::Malformed) => Ok(None),
        Err(ReadError::NoMemory) => Err(NoMemory),
    }
}

// The column, where it is one.
fn column_in(alloc: Global, payload: &[u8]) -> Result<Option<Column>, NoMemory>
    ensures { IfOk result (λ o. o ≡ column_at payload.now) }
{
    match read_column(alloc, payload) {
        Ok(column) => Ok(Some(column)),
        Err(ReadError::Malformed) => Ok(None),
        Err(ReadError::NoMemory) => Err(NoMemory),
    }
}

impl Facts {
    ghost use Rattle.my_reading.specs.Facts.{first_facts, facts_after, counted, with_ask, with_greeting, with_nonce, with_ok, with_count, with_column, with_field, with_head, with_parameter, with_settings, prepared_by, told_after};
    ghost use Rattle.my_reading.specs.Rows.{row_at};
    ghost use Rattle.my_reading.specs.Settings.{end_settings, good_settings, row_settings};

    /// Before the first payload.
    pub fn new(alloc: Global, login: &Login) -> Result<Facts, NoMemory>
        ensures { IfOk result (λ f. f ≡ first_facts login.now) }
    {
        let columns = SetColumns::new(alloc)?;
        Ok(Facts {
            version: Blob::new(alloc),
            connection: 0,
            caching: false,
            nonce: Blob::new(alloc),
            status: StatusFlags(0),
            ok: None,
            left: 0,
            gathered: Listed::new(alloc),
            columns,
            settings: Settings::new(login),
            reply: PreparedReply {
                id: 0,
                num_params: 0,
                num_columns: 0,
                params: Listed::new(alloc),
                fields: Listed::new(alloc),
            },
            place: 0,
        })
    }

    fn count(&mut self)
        ensures { self.new ≡ counted self.old }
    {
        self.place = self.place.saturating_add(1);
    }

    fn greet(&mut self, greeting: Option<Greeting>)
        ensures { self.new ≡ with_greeting greeting self.old }
    {
        if let Some(greeting) = greeting {
            self.version = greeting.version;
            self.connection = greeting.id;
            self.caching = is_caching(greeting.plugin.as_slice());
            self.nonce = greeting.nonce;
        }
    }

    fn learn_nonce(&mut self, alloc: Global, caching: bool, nonce: &[u8]) -> Result<(), NoMemory>
        ensures ok { OnOk result (self.new ≡ with_nonce caching nonce.now self.old) }
        ensures err { OnErr result (self.new ≡ self.old) }
    {
        self.nonce = Blob::from_slice(alloc, nonce)?;
        self.caching = caching;
        Ok(())
    }

    // A request in a chain in which the client shows who it is.
    fn learn_ask(&mut self, alloc: Global, ask: AuthAsk, payload: &[u8]) -> Result<(), NoMemory>
        ensures ok { OnOk result (self.new ≡ with_ask ask payload.now self.old) }
        ensures err { OnErr result (self.new ≡ self.old) }
    {
        match ask {
            AuthAsk::Switch(AuthPlugin::Native) => self.learn_nonce(
                alloc,
                false,
                nonce_in(payload),
            ),
            AuthAsk::Switch(AuthPlugin::Caching) => self.learn_nonce(
                alloc,
                true,
                nonce_in(payload),
            ),
            _ => Ok(()),
        }
    }

    fn learn_greeting(&mut self, alloc: Global, payload: &[u8]) -> Result<(), NoMemory>
        ensures ok { OnOk result (self.new ≡ with_greeting (greeting_at payload.now) self.old) }
        ensures err { OnErr result (self.new ≡ self.old) }
    {
        let greeting = greeting_in(alloc, payload)?;
        self.greet(greeting);
        Ok(())
    }

    fn learn_ok(&mut self, ok: Option<OkPacket>, status: StatusFlags)
        ensures { self.new ≡ with_ok ok status self.old }
    {
        self.ok = ok;
        self.status = status;
    }

    // An OK that ends no set.
    fn learn_good(
        &mut self,
        alloc: Global,
        status: StatusFlags,
        payload: &[u8],
    ) -> Result<(), NoMemory>
        ensures ok { let known = with_ok (ok_at payload.now) status self.old in
            OnOk result (self.new ≡ with_settings (good_settings self.old.settings.stage self.old.settings) known) }
        ensures err { OnErr result (self.new ≡ self.old) }
    {
        let ok = ok_in(alloc, payload)?;
        self.learn_ok(ok, status);
        self.settings = self.settings.after_ok();
        Ok(())
    }

    // An OK that ends a set.
    fn learn_end(
        &mut self,
        alloc: Global,
        status: StatusFlags,
        payload: &[u8],
    ) -> Result<(), NoMemory>
        ensures ok { let known = with_ok (end_ok_at payload.now) status self.old in
            OnOk result (self.new ≡ with_settings (end_settings self.old.settings.stage self.old.settings) known) }
        ensures err { OnErr result (self.new ≡ self.old) }
    {
        let ok = end_ok_in(alloc, payload)?;
        self.learn_ok(ok, status);
        self.settings = self.settings.after_end();
        Ok(())
    }

    fn learn_count(&mut self, alloc: Global, columns: u16)
        ensures { self.new ≡ with_count columns self.old }
    {
        self.left = columns;
        self.gathered = Listed::new(alloc);
    }

    fn join(&mut self, alloc: Global, column: Column) -> Result<(), NoMemory>
        ensures ok { OnOk result (self.new ≡ with_column (Some column) self.old) }
        ensures err { OnErr result (self.new ≡ self.old) }
    {
        if self.left > 1 {
            self.gathered.push(column)?;
            self.left -= 1;
            return Ok(());
        }
        self.columns = SetColumns::finish(alloc, &mut self.gathered, column)?;
        self.left = 0;
        Ok(())
    }

    fn learn_column(&mut self, alloc: Global, payload: &[u8]) -> Result<(), NoMemory>
        ensures ok { OnOk result (self.new ≡ with_column (column_at payload.now) self.old) }
        ensures err { OnErr result (self.new ≡ self.old) }
    {
        match column_in(alloc, payload)? {
            None => Ok(()),
            Some(column) => self.join(alloc, column),
        }
    }

    // A statement was prepared; its parameters and columns follow.
    fn learn_head(&mut self, alloc: Global, payload: &[u8])
        ensures { self.new ≡ with_head (prepare_ok_at payload.now) self.old }
    {
        if let Ok(ok) = read_prepare_ok(payload) {
            self.reply = PreparedReply {
                id: ok.id,
                num_params: ok.params,
                num_columns: ok.columns,
                params: Listed::new(alloc),
                fields: Listed::new(alloc),
            };
        }
    }

    fn learn_parameter(&mut self, alloc: Global, payload: &[u8]) -> Result<(), NoMemory>
        ensures ok { OnOk result (self.new ≡ with_parameter (column_at payload.now) self.old) }
        ensures err { OnErr result (self.new ≡ self.old) }
    {
        match column_in(alloc, payload)? {
            None => Ok(()),
            Some(column) => self.reply.params.push(column),
        }
    }

    fn learn_field(&mut self, alloc: Global, payload: &[u8]) -> Result<(), NoMemory>
        ensures ok { OnOk result (self.new ≡ with_field (column_at payload.now) self.old) }
        ensures err { OnErr result (self.new ≡ self.old) }
    {
        match column_in(alloc, payload)? {
            None => Ok(()),
            Some(column) => self.reply.fields.push(column),
        }
    }

    /// The statement that was prepared last.
    pub fn prepared(&self, alloc: Global) -> Result<StmtInner, NoMemory>
        ensures { IfOk result (λ statement. statement ≡ prepared_by self.now) }
    {
        Ok(StmtInner {
            id: self.reply.id,
            connection_id: self.connection,
            num_params: self.reply.num_params,
            num_columns: self.reply.num_columns,
            params: SetColumns::from_listed(alloc, self.reply.params.copy(alloc)?)?,
        })
    }

    /// The columns of its rows.
    pub fn prepared_fields(&self, alloc: Global) -> Result<SetColumns, NoMemory>
        ensures { IfOk result (λ columns. columns ≡ self.now.reply.fields) }
    {
        SetColumns::from_listed(alloc, self.reply.fields.copy(alloc)?)
    }

    // The row, where it is one.
    fn row_in(&self, alloc: Global, payload: &[u8]) -> Result<Option<Row>, NoMemory>
        ensures { IfOk result (λ o. o ≡ row_at RowFormat.Text self.now.columns payload.now) }
    {
        match read_row(alloc, RowFormat::Text, &self.columns, payload) {
            Ok(row) => Ok(Some(row)),
            Err(ReadError::Malformed) => Ok(None),
            Err(ReadError::NoMemory) => Err(NoMemory),
        }
    }

    // A row with the settings.
    fn learn_row(&mut self, alloc: Global, payload: &[u8]) -> Result<(), NoMemory>
        ensures ok { let row = row_at RowFormat.Text self.old.columns payload.now in
            OnOk result (self.new ≡ with_settings (row_settings row self.old.settings) self.old) }
        ensures err { OnErr result (self.new ≡ self.old) }
    {
        if self.settings.awaits_row() {
            if let Some(row) = self.row_in(alloc, payload)? {
                self.settings = self.settings.after_row(&row);
            }
        }
        Ok(())
    }

    // What a payload of this kind says. Out of memory, nothing changes.
    fn learn_by_kind(&mut self, alloc: Global, kind: Kind, payload: &[u8]) -> Result<(), NoMemory>
        ensures ok { OnOk result (self.new ≡ told_after kind payload.now self.old) }
        ensures err { OnErr result (self.new ≡ self.old) }
    {
        match kind {
            Kind::Greets(_) => self.learn_greeting(alloc, payload),
            Kind::Asks(ask) => self.learn_ask(alloc, ask, payload),
            Kind::Good(status) => self.learn_good(alloc, status, payload),
            Kind::End(status) => self.learn_end(alloc, status, payload),
            Kind::Failed => {
                self.learn_ok(None, StatusFlags(0));
                Ok(())
            }
            Kind::Count(columns) => {
                self.learn_count(alloc, columns);
                Ok(())
            }
            Kind::Column => self.learn_column(alloc, payload),
            Kind::Row => self.learn_row(alloc, payload),
            Kind::Prepared { .. } => {
                self.learn_head(alloc, payload);
                Ok(())
            }
            Kind::Parameter => self.learn_parameter(alloc, payload),
            Kind::Field => self.learn_field(alloc, payload),
            Kind::ColumnsDone | Kind::Bad => Ok(()),
        }
    }

    /// What a payload of this kind adds. Out of memory, nothing changes.
    pub fn learn(&mut self, alloc: Global, kind: Kind, payload: &[u8]) -> Result<(), NoMemory>
        ensures ok { OnOk result (self.new ≡ facts_after kind payload.now self.old) }
        ensures err { OnErr result (self.new ≡ self.old) }
    {
        self.learn_by_kind(alloc, kind, payload)?;
        self.count();
        Ok(())
    }
}
