//! Numbers and bytes as text.
ghost use Rattle.std.specs.Prelude.{◌≡◌, ◌++◌, ◌∷◌, [], OnOk};
ghost use Rattle.std.specs.Fmt.{decimal, signed_decimal};
ghost use Rattle.hex.specs.Hex.{encode_lower};
ghost use Rattle.my_script.specs.TextParts.{marked, bytes_text};

use std::alloc::{AllocError, Global};

/// Bytes as pairs of hexadecimal digits.
pub fn push_hex(alloc: Global, out: &mut Vec<u8>, bytes: &[u8]) -> Result<(), AllocError>
    ensures { OnOk result (out.new.items ≡ out.old.items ++ encode_lower bytes.now) }
{
    let text = hex::encode(alloc, bytes)?;
    out.extend_from_slice(text.as_bytes())
}

/// Bytes as `b:HEX`.
#[tactic(auto, unfolding(crate::specs::TextParts::bytes_text))]
pub fn push_bytes(alloc: Global, out: &mut Vec<u8>, bytes: &[u8]) -> Result<(), AllocError>
    ensures { OnOk result (out.new.items ≡ out.old.items ++ bytes_text bytes.now) }
{
    out.extend_from_slice(b"b:")?;
    push_hex(alloc, out, bytes)
}

/// A number in decimal digits.
pub fn push_decimal(alloc: Global, out: &mut Vec<u8>, n: u64) -> Result<(), AllocError>
    ensures { OnOk result (out.new.items ≡ out.old.items ++ decimal n) }
{
    let text = n.to_string(alloc)?;
    out.extend_from_slice(text.as_bytes())
}

/// A signed number in decimal digits.
pub fn push_signed(alloc: Global, out: &mut Vec<u8>, n: i64) -> Result<(), AllocError>
    ensures { OnOk result (out.new.items ≡ out.old.items ++ signed_decimal n) }
{
    let text = n.to_string(alloc)?;
    out.extend_from_slice(text.as_bytes())
}

/// A mark, and a number after it.
pub fn push_marked(alloc: Global, out: &mut Vec<u8>, mark: u8, n: u64) -> Result<(), AllocError>
    ensures { OnOk result (out.new.items ≡ out.old.items ++ marked mark n) }
{
    out.push(mark)?;
    push_decimal(alloc, out, n)
}
