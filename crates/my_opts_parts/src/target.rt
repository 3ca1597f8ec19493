//! Where a connection is made.

ghost use Rattle.std.specs.Prelude.{◌≡◌, IfOk};

use my_frame::{Copied, Listed, NoMemory, Text};
use std::alloc::Global;
use std::net::IpAddr;

/// Where a connection is made.
#[derive(Drop, PartialEq, Eq)]
pub enum Target {
    /// At a host and port; at the addresses, where they are known.
    Tcp {
        host: Text,
        port: u16,
        ips: Option<Listed<IpAddr>>,
    },
    /// At a local socket with this path.
    Socket(Text),
}

impl Target {
    /// A second value of the same target.
    pub fn copy(&self, alloc: Global) -> Result<Target, NoMemory>
        ensures { IfOk result (λ copy. copy ≡ self.now) }
    {
        match self {
            Target::Tcp { host, port, ips } => Ok(Target::Tcp {
                host: host.copy(alloc)?,
                port: *port,
                ips: ips.copy(alloc)?,
            }),
            Target::Socket(path) => Ok(Target::Socket(path.copy(alloc)?)),
        }
    }
}
