//! Numbers and texts at the end of bytes that are written. Numbers have their lowest byte first.

ghost use Rattle.std.specs.Prelude.{◌≡◌, ◌+◌, ◌<◌, ◌++◌, OnOk, length};
ghost use Rattle.my_frame.specs.Writing.{le_bytes, len_bytes, short_bytes, text0_bytes, text_bytes};

use crate::no_memory::NoMemory;
use crate::numbers::before_zero;

/// A number of one byte.
#[tactic(auto, unfolding(crate::specs::Writing::le_bytes))]
pub fn put_u8(out: &mut Vec<u8>, number: u8) -> Result<(), NoMemory>
    ensures { OnOk result (out.new.items ≡ out.old.items ++ le_bytes 1 number) }
{
    out.push(number)?;
    Ok(())
}

/// A number of two bytes.
#[tactic(auto, unfolding(crate::specs::Writing::le_bytes))]
pub fn put_u16(out: &mut Vec<u8>, number: u16) -> Result<(), NoMemory>
    ensures { OnOk result (out.new.items ≡ out.old.items ++ le_bytes 2 number) }
{
    out.extend_from_slice(&number.to_le_bytes())?;
    Ok(())
}

/// A number of four bytes.
#[tactic(auto, unfolding(crate::specs::Writing::le_bytes))]
pub fn put_u32(out: &mut Vec<u8>, number: u32) -> Result<(), NoMemory>
    ensures { OnOk result (out.new.items ≡ out.old.items ++ le_bytes 4 number) }
{
    out.extend_from_slice(&number.to_le_bytes())?;
    Ok(())
}

/// A number of eight bytes.
#[tactic(auto, unfolding(crate::specs::Writing::le_bytes))]
pub fn put_u64(out: &mut Vec<u8>, number: u64) -> Result<(), NoMemory>
    ensures { OnOk result (out.new.items ≡ out.old.items ++ le_bytes 8 number) }
{
    out.extend_from_slice(&number.to_le_bytes())?;
    Ok(())
}

/// A length-encoded number, in the shortest form.
#[tactic(auto, unfolding(crate::specs::Writing::le_bytes, crate::specs::Writing::len_bytes))]
pub fn put_len(out: &mut Vec<u8>, number: u64) -> Result<(), NoMemory>
    ensures { OnOk result (out.new.items ≡ out.old.items ++ len_bytes number) }
{
    if number < 0xFB {
        out.push(number as u8)?;
    } else if number < 0x1_0000 {
        out.extend_from_slice(&[0xFC, (number % 256) as u8, (number / 256) as u8])?;
    } else if number < 0x100_0000 {
        out.extend_from_slice(&[
            0xFD,
            (number % 256) as u8,
            (number / 256 % 256) as u8,
            (number / 65_536) as u8,
        ])?;
    } else {
        out.push(0xFE)?;
        out.extend_from_slice(&number.to_le_bytes())?;
    }
    Ok(())
}

/// A text after its length-encoded length.
#[tactic(auto, unfolding(crate::specs::Writing::text_bytes))]
pub fn put_text(out: &mut Vec<u8>, text: &[u8]) -> Result<(), NoMemory>
    ensures { OnOk result (out.new.items ≡ out.old.items ++ text_bytes text.now) }
{
    put_len(out, text.len() as u64)?;
    out.extend_from_slice(text)?;
    Ok(())
}

/// A text that ends at a zero byte. It is cut before its own first zero byte.
#[tactic(auto, unfolding(crate::specs::Writing::text0_bytes))]
pub fn put_text0(out: &mut Vec<u8>, text: &[u8]) -> Result<(), NoMemory>
    ensures { OnOk result (out.new.items ≡ out.old.items ++ text0_bytes text.now) }
{
    out.extend_from_slice(before_zero(text))?;
    out.push(0)?;
    Ok(())
}

/// A text after one byte with its length.
#[tactic(auto, unfolding(crate::specs::Writing::short_bytes))]
pub fn put_short(out: &mut Vec<u8>, text: &[u8]) -> Result<(), NoMemory>
    requires { length text.now < 256 }
    ensures { OnOk result (out.new.items ≡ out.old.items ++ short_bytes text.now) }
{
    out.push(text.len() as u8)?;
    out.extend_from_slice(text)?;
    Ok(())
}
