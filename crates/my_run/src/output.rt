//! Writes bytes to a sink.
ghost use Rattle.std.specs.Prelude.{◌≡◌, ◌≤◌, length, drop};
ghost use Rattle.my_run.specs.Output.{Wrote};

use my_frame::{Sink, SinkStep};

fn following(bytes: &[u8], from: usize) -> &[u8]
    requires { from ≤ length bytes.now }
    ensures { result.now ≡ drop from bytes.now }
{
    &bytes[from..]
}

/// Writes all bytes, or returns false where the sink failed.
pub fn write_all<W: Sink>(out: &mut W, bytes: &[u8]) -> bool
    ensures { Wrote (W.seen out.old) bytes.now (W.seen out.new) result }
{
    let mut from = 0;
    'rest: while from < bytes.len() {
        match out.write(following(bytes, from)) {
            SinkStep::Took(n) => from += n,
            SinkStep::Failed => return false,
        }
    }
    true
}
