//! The packets by which a client asks for a binary log.

ghost use Rattle.std.specs.Prelude.{◌≡◌, ◌<◌, ◌^◌, ◌++◌, IfOk, OnOk, length};
ghost use Rattle.std.specs.List.{flat_map};
ghost use Rattle.my_command.specs.Client.Replica.{FitsDump, FitsSlave, dump_bytes, dump_gtid_bytes, gtid_block, intervals_bytes, long_bytes, sid_bytes, slave_bytes};

use my_frame::writing::{put_short, put_u8, put_u16, put_u32, put_u64};
use my_frame::{Blob, Copied, Listed, NoMemory};
use std::alloc::Global;
use std::marker::Model;

/// Transactions of one server.
#[derive(Drop)]
pub struct Sid {
    /// The server's UUID.
    pub uuid: [u8; 16],
    /// The numbers of the transactions: the first, and the one after the last.
    pub intervals: Vec<(u64, u64)>,
}

impl Model for Sid {
    ghost use Rattle.my_command.specs.Client.Transactions.{Transactions};

    ghost Value = { Transactions };

    ghost view = { λ s. record { uuid = s.uuid; intervals = s.intervals.items } };
}

impl PartialEq for Sid {
    ghost use Rattle.std.specs.Cmp.{partial_equiv_from_equiv};
    ghost use Rattle.my_command.specs.Client.Transactions.{same_transactions, same_transactions_laws};

    ghost eq = { same_transactions };

    ghost laws = { partial_equiv_from_equiv same_transactions_laws };

    fn eq(&self, other: &Sid) -> bool {
        self.uuid == other.uuid && self.intervals == other.intervals
    }
}

impl Eq for Sid {
    ghost use Rattle.my_command.specs.Client.Transactions.{same_transactions_laws};

    ghost laws = { same_transactions_laws };
}

impl Copied for Sid {
    fn copy(&self, alloc: Global) -> Result<Sid, NoMemory> {
        let mut intervals = Vec::new(alloc);
        intervals.extend_from_slice(self.intervals.as_slice())?;
        Ok(Sid {
            uuid: self.uuid,
            intervals,
        })
    }
}

/// Makes the client known as a replica.
#[derive(Drop)]
pub struct RegisterSlave {
    /// The client's server id.
    pub server: u32,
    /// At most 255 bytes, as the two that follow.
    pub host: Blob,
    pub user: Blob,
    pub password: Blob,
    pub port: u16,
}

/// Asks for a binary log from a position in a file on.
#[derive(Drop)]
pub struct Dump {
    /// The position in the file, of which the low 32 bits are sent.
    pub position: u64,
    /// The stream ends where the log does.
    pub non_blocking: bool,
    /// The client's server id.
    pub server: u32,
    pub file: Blob,
}

/// Asks for a binary log without the transactions that the client has.
#[derive(Drop)]
pub struct DumpGtid {
    pub position: u64,
    /// The stream ends where the log does.
    pub non_blocking: bool,
    /// The client's server id.
    pub server: u32,
    /// Fewer than 2^32 bytes.
    pub file: Blob,
    /// The transactions that the client has.
    pub sids: Listed<Sid>,
}

impl RegisterSlave {
    /// A second value of the same packet.
    pub fn copy(&self, alloc: Global) -> Result<RegisterSlave, NoMemory>
        ensures { IfOk result (λ copy. copy ≡ self.now) }
    {
        Ok(RegisterSlave {
            server: self.server,
            host: self.host.copy(alloc)?,
            user: self.user.copy(alloc)?,
            password: self.password.copy(alloc)?,
            port: self.port,
        })
    }
}

impl Dump {
    /// A second value of the same packet.
    pub fn copy(&self, alloc: Global) -> Result<Dump, NoMemory>
        ensures { IfOk result (λ copy. copy ≡ self.now) }
    {
        Ok(Dump {
            position: self.position,
            non_blocking: self.non_blocking,
            server: self.server,
            file: self.file.copy(alloc)?,
        })
    }
}

impl DumpGtid {
    /// A second value of the same packet.
    pub fn copy(&self, alloc: Global) -> Result<DumpGtid, NoMemory>
        ensures { IfOk result (λ copy. copy ≡ self.now) }
    {
        Ok(DumpGtid {
            position: self.position,
            non_blocking: self.non_blocking,
            server: self.server,
            file: self.file.copy(alloc)?,
            sids: self.sids.copy(alloc)?,
        })
    }
}

pub(crate) fn put_slave(out: &mut Vec<u8>, slave: &RegisterSlave) -> Result<(), NoMemory>
    requires { FitsSlave slave.now }
    ensures { OnOk result (out.new.items ≡ out.old.items ++ slave_bytes slave.now) }
{
    put_u8(out, 0x15)?;
    put_u32(out, slave.server)?;
    put_short(out, slave.host.as_slice())?;
    put_short(out, slave.user.as_slice())?;
    put_short(out, slave.password.as_slice())?;
    put_u16(out, slave.port)?;
    put_u64(out, 0)
}

pub(crate) fn put_dump(out: &mut Vec<u8>, dump: &Dump) -> Result<(), NoMemory>
    ensures { OnOk result (out.new.items ≡ out.old.items ++ dump_bytes dump.now) }
{
    put_u8(out, 0x12)?;
    put_u32(out, (dump.position % 0x1_0000_0000) as u32)?;
    put_u16(out, u16::from(dump.non_blocking))?;
    put_u32(out, dump.server)?;
    out.extend_from_slice(dump.file.as_slice())?;
    Ok(())
}

fn put_intervals(out: &mut Vec<u8>, intervals: &[(u64, u64)]) -> Result<(), NoMemory>
    ensures { OnOk result (out.new.items ≡ out.old.items ++ intervals_bytes intervals.now) }
{
    for interval in intervals {
        put_u64(out, interval.0)?;
        put_u64(out, interval.1)?;
    }
    Ok(())
}

fn put_sid(out: &mut Vec<u8>, sid: &Sid) -> Result<(), NoMemory>
    ensures { OnOk result (out.new.items ≡ out.old.items ++ sid_bytes sid.now) }
{
    out.extend_from_slice(&sid.uuid)?;
    put_u64(out, sid.intervals.len() as u64)?;
    put_intervals(out, sid.intervals.as_slice())
}

fn put_sids(out: &mut Vec<u8>, sids: &[Sid]) -> Result<(), NoMemory>
    ensures { OnOk result (out.new.items ≡ out.old.items ++ flat_map sid_bytes sids.now) }
{
    for sid in sids {
        put_sid(out, sid)?;
    }
    Ok(())
}

#[tactic(auto, unfolding(crate::specs::Client::Replica::gtid_block))]
fn gtid_block(alloc: Global, sids: &[Sid]) -> Result<Vec<u8>, NoMemory>
    ensures { IfOk result (λ block. block.items ≡ gtid_block sids.now) }
{
    let mut block = Vec::new(alloc);
    put_u64(&mut block, sids.len() as u64)?;
    put_sids(&mut block, sids)?;
    Ok(block)
}

fn put_long(out: &mut Vec<u8>, bytes: &[u8]) -> Result<(), NoMemory>
    requires { length bytes.now < 2 ^ 32 }
    ensures { OnOk result (out.new.items ≡ out.old.items ++ long_bytes bytes.now) }
{
    put_u32(out, bytes.len() as u32)?;
    out.extend_from_slice(bytes)?;
    Ok(())
}

pub(crate) fn put_dump_gtid(
    alloc: Global,
    out: &mut Vec<u8>,
    dump: &DumpGtid,
) -> Result<(), NoMemory>
    requires { FitsDump dump.now }
    ensures { OnOk result (out.new.items ≡ out.old.items ++ dump_gtid_bytes dump.now) }
{
    put_u8(out, 0x1E)?;
    put_u16(out, 4 + u16::from(dump.non_blocking))?;
    put_u32(out, dump.server)?;
    put_long(out, dump.file.as_slice())?;
    put_u64(out, dump.position)?;
    let block = gtid_block(alloc, dump.sids.as_slice())?;
    put_long(out, block.as_slice())
}
