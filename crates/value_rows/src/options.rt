//! Options and refusals as lines: of options the host, the port and all that differs from the defaults.

use crate::words::{say, say_number};
use my_opts::{
    DEFAULT_POOL_CONSTRAINTS, Millis, Opts, PoolConstraints, PoolOpts, Target, UrlError, UrlFault,
};
use std::alloc::Global;
use std::collections::BTreeMap;

fn say_text(text: &mut String, name: &str, value: Option<&str>) {
    if let Some(value) = value {
        say(text, name);
        say(text, value);
    }
}

fn say_some(text: &mut String, name: &str, value: Option<u64>) {
    if let Some(value) = value {
        say_number(text, name, u128::from(value));
    }
}

fn say_time(text: &mut String, name: &str, value: Option<Millis>) {
    if let Some(value) = value {
        say_number(text, name, value.as_millis());
    }
}

// A number that isn't the default.
fn say_other(text: &mut String, name: &str, value: u128, default: u128) {
    if value != default {
        say_number(text, name, value);
    }
}

fn say_if(text: &mut String, holds: bool, name: &str) {
    if holds {
        say(text, name);
    }
}

fn say_texts(text: &mut String, opts: &Opts) {
    say(text, opts.ip_or_hostname());
    say_number(text, " ", u128::from(opts.tcp_port()));
    say_text(text, " user=", opts.user());
    say_text(text, " pass=", opts.pass());
    say_text(text, " db=", opts.db_name());
    say_text(text, " socket=", opts.socket());
}

fn say_numbers(text: &mut String, opts: &Opts) {
    say_some(text, " packet=", opts.max_allowed_packet());
    say_some(text, " wait=", opts.wait_timeout());
    say_time(text, " conn_ttl=", opts.conn_ttl());
    say_time(text, " keepalive=", opts.tcp_keepalive());
    say_time(text, " abs_ttl=", opts.abs_conn_ttl());
    say_time(text, " jitter=", opts.abs_conn_ttl_jitter());
    say_other(text, " cache=", u128::from(opts.stmt_cache_size()), 32);
}

/// Adds the bounds of a pool.
pub fn say_bounds(text: &mut String, bounds: PoolConstraints) {
    say_number(text, "", u128::from(bounds.min()));
    say_number(text, "..", u128::from(bounds.max()));
}

fn say_pool(text: &mut String, pool: &PoolOpts) {
    if pool.constraints() != DEFAULT_POOL_CONSTRAINTS {
        say(text, " pool=");
        say_bounds(text, pool.constraints());
    }
    say_some(text, " max_waiting=", pool.max_waiting());
    say_other(
        text,
        " inactive_ttl=",
        pool.inactive_connection_ttl().as_millis(),
        0,
    );
    say_other(
        text,
        " interval=",
        pool.ttl_check_interval().as_millis(),
        30_000,
    );
    say_if(text, !pool.reset_connection(), " reset_connection=false");
}

fn say_truths(text: &mut String, opts: &Opts) {
    say_if(text, !opts.tcp_nodelay(), " tcp_nodelay=false");
    say_if(text, !opts.prefer_socket(), " prefer_socket=false");
    say_if(text, !opts.secure_auth(), " secure_auth=false");
    say_if(text, opts.client_found_rows(), " client_found_rows");
    say_if(
        text,
        opts.enable_cleartext_plugin(),
        " enable_cleartext_plugin",
    );
    say_if(text, opts.addr_is_loopback(), " loopback");
}

fn say_queries(text: &mut String, name: &str, queries: &[String]) {
    for query in queries {
        say(text, name);
        say(text, query.as_str());
    }
}

fn say_attributes(text: &mut String, attributes: &BTreeMap<String, String>) {
    for (name, value) in attributes {
        say(text, " ");
        say(text, name.as_str());
        say_text(text, "=", Some(value.as_str()));
    }
}

fn say_lists(text: &mut String, opts: &Opts) {
    say_queries(text, " init=", opts.init());
    say_queries(text, " setup=", opts.setup());
    if let Some(ips) = opts.resolved_ips() {
        for ip in ips {
            let _ = write!(text, " ip={ip}");
        }
    }
    if let Some(attributes) = opts.connect_attributes() {
        say_attributes(text, attributes);
    }
}

/// Adds the line of options.
pub fn say_opts(text: &mut String, opts: &Opts) {
    say_texts(text, opts);
    say_numbers(text, opts);
    say_pool(text, opts.pool_opts());
    say_truths(text, opts);
    say_lists(text, opts);
}

fn say_place(text: &mut String, target: &Target) {
    match target {
        Target::Socket(path) => say(text, path.as_str()),
        Target::Tcp { host, port, ips } => {
            say(text, host.as_str());
            say_number(text, " ", u128::from(*port));
            let known = match ips {
                Some(ips) => ips.len(),
                None => 0,
            };
            say_number(text, " ips=", known as u128);
        }
    }
}

/// Adds where a connection is made.
pub fn say_target(alloc: Global, text: &mut String, opts: &Opts) {
    match opts.target(alloc) {
        Ok(target) => {
            say_place(text, &target);
            drop(target);
        }
        Err(_) => say(text, "out of memory"),
    }
}

// Why a URL gives no options, and the texts that the refusal holds.
fn cause_of(error: &UrlError) -> (&'static str, Option<&str>, Option<&str>) {
    match error {
        UrlError::FeatureRequired { feature, param } => {
            (
                "FeatureRequired",
                Some(feature.as_str()),
                Some(param.as_str()),
            )
        }
        UrlError::Invalid => ("Invalid", None, None),
        UrlError::InvalidParamValue { param, value } => {
            (
                "InvalidParamValue",
                Some(param.as_str()),
                Some(value.as_str()),
            )
        }
        UrlError::InvalidPoolConstraints { .. } => ("InvalidPoolConstraints", None, None),
        UrlError::Parse => ("Parse", None, None),
        UrlError::UnknownParameter { param } => ("UnknownParameter", Some(param.as_str()), None),
        UrlError::UnsupportedScheme { scheme } => {
            ("UnsupportedScheme", Some(scheme.as_str()), None)
        }
    }
}

fn say_cause(text: &mut String, error: &UrlError) {
    let (name, first, second) = cause_of(error);
    say(text, name);
    say_text(text, " ", first);
    say_text(text, " ", second);
    if let UrlError::InvalidPoolConstraints { min, max } = error {
        say_number(text, " ", u128::from(*min));
        say_number(text, " ", u128::from(*max));
    }
}

// Adds a refusal, or what it says to a user.
fn say_fault(text: &mut String, look: &str, fault: &UrlFault) {
    match fault {
        UrlFault::Url(error) if look != "says" => say_cause(text, error),
        _ => {
            let _ = write!(text, "{fault}");
        }
    }
}

/// Adds a copy of a refusal.
pub fn say_refusal(alloc: Global, text: &mut String, look: &str, fault: &UrlFault) {
    match fault.copy(alloc) {
        Ok(copy) => {
            say_fault(text, look, &copy);
            say_if(text, copy != *fault, " other copy");
            drop(copy);
        }
        Err(_) => say(text, "no copy"),
    }
}
