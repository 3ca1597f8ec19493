//! What a change of user changes.

ghost use Rattle.std.specs.Prelude.{◌≡◌, ◌↔◌, IsFalse, IfOk, Some, string_bytes, option_map, option_copied, unwrap_or};
ghost use Rattle.my_opts.specs.ChangeUser.{no_change, changed_opts, IsUnchangedBy};

use crate::opts::Opts;
use my_frame::{Copied, NoMemory, Text};
use my_opts_parts::text::{shown, text_of};
use std::alloc::Global;
use std::marker::Model;

/// What a change of user changes: each part is left as it is, or gets a value or none.
#[derive(Drop, PartialEq, Eq)]
pub struct ChangeUserOpts {
    user: Option<Option<Text>>,
    pass: Option<Option<Text>>,
    db_name: Option<Option<Text>>,
}

impl Model for ChangeUserOpts {
    ghost use Rattle.my_opts.specs.ChangeUser.{ChangeView};

    ghost Value = { ChangeView };

    ghost view = { λ c. record { user = c.user; pass = c.pass; db_name = c.db_name } };

    ghost inverse = { λ v. record { user = v.user; pass = v.pass; db_name = v.db_name } };
}

impl ChangeUserOpts {
    /// Each part stays.
    pub fn new() -> ChangeUserOpts
        ensures { result ≡ no_change }
    {
        ChangeUserOpts {
            user: None,
            pass: None,
            db_name: None,
        }
    }

    /// The user's name gets this value.
    pub fn with_user(mut self, user: Option<String>) -> ChangeUserOpts
        ensures { result ≡ record self { user = Some (option_map string_bytes user) } }
    {
        self.user = Some(text_of(user));
        self
    }

    /// The password gets this value.
    pub fn with_pass(mut self, pass: Option<String>) -> ChangeUserOpts
        ensures { result ≡ record self { pass = Some (option_map string_bytes pass) } }
    {
        self.pass = Some(text_of(pass));
        self
    }

    /// The database gets this value.
    pub fn with_db_name(mut self, db_name: Option<String>) -> ChangeUserOpts
        ensures { result ≡ record self { db_name = Some (option_map string_bytes db_name) } }
    {
        self.db_name = Some(text_of(db_name));
        self
    }

    /// The user's name; the outer None keeps it.
    pub fn user(&self) -> Option<Option<&str>>
        ensures { option_map option_copied result ≡ self.now.user }
    {
        both_shown(&self.user)
    }

    /// The password; the outer None keeps it.
    pub fn pass(&self) -> Option<Option<&str>>
        ensures { option_map option_copied result ≡ self.now.pass }
    {
        both_shown(&self.pass)
    }

    /// The database; the outer None keeps it.
    pub fn db_name(&self) -> Option<Option<&str>>
        ensures { option_map option_copied result ≡ self.now.db_name }
    {
        both_shown(&self.db_name)
    }

    /// Whether these options would have another user, password or database after the change.
    pub fn would_change(&self, opts: &Opts) -> bool
        ensures { IsFalse result ↔ IsUnchangedBy self.now opts.now }
    {
        differs(&self.user, &opts.user)
            || differs(&self.pass, &opts.pass)
            || differs(&self.db_name, &opts.db_name)
    }

    /// Changes these options.
    pub fn update_opts(self, opts: &mut Opts)
        ensures { opts.new ≡ changed_opts self opts.old }
    {
        let user = opts.user.take();
        opts.user = chosen(self.user, user);
        let pass = opts.pass.take();
        opts.pass = chosen(self.pass, pass);
        let db_name = opts.db_name.take();
        opts.db_name = chosen(self.db_name, db_name);
    }

    /// A second value of the same change.
    pub fn copy(&self, alloc: Global) -> Result<ChangeUserOpts, NoMemory>
        ensures { IfOk result (λ c. c ≡ self.now) }
    {
        Ok(ChangeUserOpts {
            user: self.user.copy(alloc)?,
            pass: self.pass.copy(alloc)?,
            db_name: self.db_name.copy(alloc)?,
        })
    }
}

impl Default for ChangeUserOpts {
    ghost use Rattle.std.specs.Prelude.{◌≡◌};
    ghost use Rattle.my_opts.specs.ChangeUser.{no_change};

    ghost is_default = { λ c. c ≡ no_change };

    fn default() -> ChangeUserOpts {
        ChangeUserOpts::new()
    }
}

fn both_shown(part: &Option<Option<Text>>) -> Option<Option<&str>>
    ensures { option_map option_copied result ≡ part.now }
{
    match part {
        Some(text) => Some(shown(text)),
        None => None,
    }
}

/// The part's new value, or the old one where it stays.
fn chosen(part: Option<Option<Text>>, value: Option<Text>) -> Option<Text>
    ensures { result ≡ unwrap_or part value }
{
    match part {
        Some(text) => text,
        None => value,
    }
}

/// Whether the part would have another value.
fn differs(part: &Option<Option<Text>>, value: &Option<Text>) -> bool
    ensures { IsFalse result ↔ (unwrap_or part.now value.now ≡ value.now) }
{
    match part {
        Some(text) => text != value,
        None => false,
    }
}
