//! What a client with some options says of itself.
ghost use Rattle.std.specs.Prelude.{◌≡◌, [], IfOk, is_some, map, option_map, string_bytes};
ghost use Rattle.my_opts.specs.Capabilities.{capabilities_of};
ghost use Rattle.my_opts_parts.specs.Lists.{pair_bytes};
ghost use Rattle.my_session.specs.Login.{attributes_of, login_of, offering, rules_of, with_pairs};

use my_auth::AuthRules;
use my_flags::CapabilityFlags;
use my_frame::limits::DEFAULT_MAX_ALLOWED_PACKET;
use my_frame::{Blob, Listed, NoMemory};
use my_grammar::Login;
use my_handshake::Attributes;
use my_opts::Opts;
use std::alloc::Global;
use std::collections::BTreeMap;

fn blob(alloc: Global, text: Option<&str>) -> Result<Option<Blob>, NoMemory>
    ensures { IfOk result (λ b. b ≡ option_map (λ t. t.now) text.entry) }
{
    match text {
        None => Ok(None),
        Some(text) => Ok(Some(Blob::from_slice(alloc, text.as_bytes())?)),
    }
}

fn copied(alloc: Global, queries: &[String]) -> Result<Listed<Blob>, NoMemory>
    ensures { IfOk result (λ t. t ≡ map string_bytes queries.now) }
{
    let mut texts = Listed::new(alloc);
    for query in queries {
        texts.push(Blob::from_slice(alloc, query.as_bytes())?)?;
    }
    Ok(texts)
}

// The pairs as attributes.
fn attributes_in(alloc: Global, pairs: &BTreeMap<String, String>) -> Result<Attributes, NoMemory>
    ensures { IfOk result (λ a. a ≡ with_pairs [] (map pair_bytes pairs.now.entries)) }
{
    let mut attributes = Attributes::new(alloc);
    for (key, value) in pairs.iter() {
        let key = Blob::from_slice(alloc, key.as_bytes())?;
        let value = Blob::from_slice(alloc, value.as_bytes())?;
        attributes.put(key, value)?;
    }
    Ok(attributes)
}

// The attributes of options.
fn attributes_of(alloc: Global, opts: &Opts) -> Result<Attributes, NoMemory>
    ensures { IfOk result (λ a. a ≡ attributes_of opts.now.connect_attributes) }
{
    match opts.connect_attributes() {
        None => Ok(Attributes::new(alloc)),
        Some(pairs) => attributes_in(alloc, pairs),
    }
}

// What a connection with these options offers.
fn offered(opts: &Opts) -> CapabilityFlags
    ensures { result.0 ≡ offering (is_some opts.now.connect_attributes) (capabilities_of opts.now) }
{
    let flags = opts.get_capabilities();
    match opts.connect_attributes() {
        None => flags,
        Some(_) => CapabilityFlags(flags.0 | CapabilityFlags::CLIENT_CONNECT_ATTRS.0),
    }
}

// What a client with these options may answer where a server asks for more.
fn rules_of(opts: &Opts) -> AuthRules
    ensures { result ≡ rules_of opts.now }
{
    AuthRules {
        cleartext: opts.enable_cleartext_plugin(),
        secure: opts.secure_auth(),
        local: false,
    }
}

/// The login of a client with these options.
pub fn login_for(alloc: Global, opts: &Opts) -> Result<Login, NoMemory>
    ensures { IfOk result (λ l. l ≡ login_of opts.now) }
{
    let user = blob(alloc, opts.user())?;
    let password = blob(alloc, opts.pass())?;
    let database = blob(alloc, opts.db_name())?;
    let max_packet = match opts.max_allowed_packet() {
        None => DEFAULT_MAX_ALLOWED_PACKET as u32,
        Some(bytes) => bytes as u32,
    };
    let capabilities = offered(opts);
    Ok(Login {
        user,
        password,
        database,
        max_packet,
        attributes: attributes_of(alloc, opts)?,
        capabilities,
        packet_limit: opts.max_allowed_packet(),
        wait_timeout: opts.wait_timeout(),
        init: copied(alloc, opts.init())?,
        setup: copied(alloc, opts.setup())?,
        statements: opts.stmt_cache_size(),
        rules: rules_of(opts),
    })
}
