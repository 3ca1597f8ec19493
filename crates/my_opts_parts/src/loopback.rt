//! Hosts that are the machine itself.

ghost use Rattle.std.specs.Prelude.{◌≡◌, ◌≢◌, IfSome, All, Any, MatchBool};
ghost use Rattle.std.specs.Option.{ForSome};
ghost use Rattle.std.specs.Net.Addr.{IsLoopbackV4, IsLoopbackV6};
ghost use Rattle.std.specs.Net.Grammar.{IsIpv4Text, IsIpv6Text};
ghost use Rattle.my_opts_parts.specs.Loopback.{IsElsewhere, IsLoopback, IsLoopbackHost, IsLoopbackIp, IsOtherHost, Writes, WritesNo, unbracketed};

use my_frame::Listed;
use std::net::{IpAddr, Ipv4Addr, Ipv6Addr};

/// Whether a host with these known addresses is the machine itself: one of the addresses is, or the host is a loopback
/// address, with or without brackets, or `localhost`.
pub fn is_loopback(ips: &Option<Listed<IpAddr>>, host: &str) -> bool
    ensures { MatchBool result (IsLoopback ips.now host.now) (IsElsewhere ips.now host.now) }
{
    if any_loopback(ips) {
        return true;
    }
    if is_loopback_host(host) {
        return true;
    }
    false
}

/// Whether one of the known addresses is of the machine itself.
fn any_loopback(ips: &Option<Listed<IpAddr>>) -> bool
    ensures { MatchBool result (IfSome ips.now (Any IsLoopbackIp)) (ForSome ips.now (All (λ ip. ¬ (IsLoopbackIp ip)))) }
{
    match ips {
        Some(ips) => ips.as_vec().iter().any(|ip| ip.is_loopback()),
        None => false,
    }
}

/// Whether the host is the machine itself.
fn is_loopback_host(host: &str) -> bool
    ensures { MatchBool result (IsLoopbackHost host.now) (IsOtherHost host.now) }
{
    if is_loopback_v4(host) {
        return true;
    }
    if is_loopback_v6(host) {
        return true;
    }
    if host == "localhost" {
        return true;
    }
    false
}

fn is_loopback_v4(host: &str) -> bool
    ensures { MatchBool result (Writes IsIpv4Text host.now IsLoopbackV4) (WritesNo IsIpv4Text host.now IsLoopbackV4) }
{
    match Ipv4Addr::parse_ascii(host.as_bytes()) {
        Ok(ip) => ip.is_loopback(),
        Err(_) => false,
    }
}

fn is_loopback_v6(host: &str) -> bool
    ensures { let text = unbracketed host.now
        in MatchBool result (Writes IsIpv6Text text IsLoopbackV6) (WritesNo IsIpv6Text text IsLoopbackV6) }
{
    match Ipv6Addr::parse_ascii(unbracketed(host.as_bytes())) {
        Ok(ip) => ip.is_loopback(),
        Err(_) => false,
    }
}

/// The host without the brackets round it.
fn unbracketed(host: &[u8]) -> &[u8]
    ensures { result.now ≡ unbracketed host.now }
{
    let len = host.len();
    if len >= 2 && host[0] == b'[' && host[len - 1] == b']' {
        &host[1..len - 1]
    } else {
        host
    }
}
