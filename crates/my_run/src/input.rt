//! Reads all bytes of a source.
ghost use Rattle.std.specs.Prelude.{IfOk};
ghost use Rattle.my_run.specs.Input.{CameIs};

use my_frame::limits::MOST_INPUT;
use my_frame::{NoMemory, Source, SourceStep};
use std::alloc::Global;

/// What came of a source: all its bytes, a fault, or more bytes than it may give.
#[derive(Drop)]
pub(crate) enum Came {
    Whole(Vec<u8>),
    Broken,
    TooLong,
}

/// Reads a source to its end.
pub(crate) fn read_all<S: Source>(alloc: Global, src: &mut S) -> Result<Came, NoMemory>
    ensures { IfOk result (λ came.
        CameIs MOST_INPUT (S.seen src.old) (S.seen src.new) came) }
{
    let mut bytes = Vec::new(alloc);
    'more: while bytes.len() <= MOST_INPUT {
        let mut buf = [0u8; 4096];
        match src.read(&mut buf) {
            SourceStep::Got(n) => bytes.extend_from_slice(&buf[..n])?,
            SourceStep::End => return Ok(Came::Whole(bytes)),
            SourceStep::Failed => return Ok(Came::Broken),
        }
    }
    Ok(Came::TooLong)
}
