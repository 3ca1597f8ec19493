//! A protocol of rows: how a row is read, and what ends a set.
ghost use Rattle.std.specs.Prelude.{◌≡◌, true, false, cond};
ghost use Rattle.my_flags.specs.Sets.{caches_metadata};
ghost use Rattle.my_protocol.specs.Rows.{end_bound, is_ending, is_last};
ghost use Rattle.my_protocol.specs.declared.protocol.ResultSetMeta.TheVariants as metas;

use my_flags::{CapabilityFlags, MariadbCapabilities};
use my_frame::{FULL_LENGTH, ReadError};
use my_value::{Columns, Row, read_binary_row, read_text_row};
use std::alloc::Global;

/// The columns of a set, by the protocol of its rows.
#[derive(Drop)]
pub enum ResultSetMeta {
    Text(Columns),
    Binary(Columns),
}

// Whether the payload begins with 0xFE.
fn is_ending(packet: &[u8]) -> bool
    ensures { result ≡ is_ending packet.now }
{
    match packet {
        [first, ..] => *first == 0xFE,
        [] => false,
    }
}

// What ends a set is shorter than this.
fn end_bound(capabilities: CapabilityFlags) -> usize
    ensures { result ≡ end_bound capabilities }
{
    if capabilities.deprecates_eof() {
        FULL_LENGTH
    } else {
        8
    }
}

/// The protocol of a set's rows.
pub trait Protocol: Sized {
    ghost use Rattle.std.specs.Prelude.{Bool, ◌&&◌, IfOk};
    ghost use Rattle.my_frame.specs.Reading.{GivesAs};
    ghost use Rattle.my_value.specs.RowParts.{columns_of};
    ghost use Rattle.my_protocol.specs.Rows.{cells_of};

    /// Whether cells have types.
    ghost is_binary: { Bool };

    /// The columns of a set of this protocol.
    fn result_set_meta(columns: Columns) -> ResultSetMeta
        ensures { result ≡ cond is_binary (metas.Binary columns) (metas.Text columns) };

    /// Reads a row of these columns.
    fn read_result_set_row(
        alloc: Global,
        packet: &[u8],
        columns: &Columns,
    ) -> Result<Row, ReadError>
        ensures cells { GivesAs (λ row. row.cells) result (cells_of is_binary (columns_of columns.now) packet.now) }
        ensures columns { IfOk result (λ row. row.columns ≡ columns_of columns.now) };

    /// Whether the payload, which is in the place of a row, ends the set.
    fn is_last_result_set_packet(capabilities: CapabilityFlags, packet: &[u8]) -> bool
        ensures { result ≡ is_last capabilities packet.now }
    {
        is_ending(packet) && packet.len() < end_bound(capabilities)
    }

    /// Whether a server of these capabilities may leave out the columns of a set.
    fn metadata_skip_possible(extended: MariadbCapabilities) -> bool
        ensures { result ≡ is_binary && caches_metadata extended };
}

/// Cells are texts, as in the answer to a query.
#[derive(Drop)]
pub struct TextProtocol;

impl Protocol for TextProtocol {
    ghost is_binary = { false };

    fn result_set_meta(columns: Columns) -> ResultSetMeta {
        ResultSetMeta::Text(columns)
    }

    fn read_result_set_row(
        alloc: Global,
        packet: &[u8],
        columns: &Columns,
    ) -> Result<Row, ReadError> {
        read_text_row(alloc, packet, columns)
    }

    fn metadata_skip_possible(_extended: MariadbCapabilities) -> bool {
        false
    }
}

/// Cells have types, as in the answer to a statement that is executed.
#[derive(Drop)]
pub struct BinaryProtocol;

impl Protocol for BinaryProtocol {
    ghost is_binary = { true };

    fn result_set_meta(columns: Columns) -> ResultSetMeta {
        ResultSetMeta::Binary(columns)
    }

    fn read_result_set_row(
        alloc: Global,
        packet: &[u8],
        columns: &Columns,
    ) -> Result<Row, ReadError> {
        read_binary_row(alloc, packet, columns)
    }

    fn metadata_skip_possible(extended: MariadbCapabilities) -> bool {
        extended.caches_metadata()
    }
}
