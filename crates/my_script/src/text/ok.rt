//! What a server's OK said, as text.
ghost use Rattle.std.specs.Prelude.{◌≡◌, ◌++◌, OnOk, option_map};
ghost use Rattle.my_script.specs.OkText.{number_text, insert_text, named_text, changed_text, state_text, info_text, ok_text, fields_text};

use super::parts::{push_bytes, push_decimal};
use my_reply::OkPacket;
use std::alloc::{AllocError, Global};

#[tactic(auto, unfolding(crate::specs::OkText::number_text))]
fn push_number(alloc: Global, out: &mut Vec<u8>, n: u64) -> Result<(), AllocError>
    ensures { OnOk result (out.new.items ≡ out.old.items ++ number_text n) }
{
    if n == 0 {
        return out.extend_from_slice(b"-");
    }
    push_decimal(alloc, out, n)
}

#[tactic(auto, unfolding(crate::specs::OkText::insert_text))]
fn push_insert(alloc: Global, out: &mut Vec<u8>, insert: u64) -> Result<(), AllocError>
    ensures { OnOk result (out.new.items ≡ out.old.items ++ insert_text insert) }
{
    out.extend_from_slice(b" insert=")?;
    push_number(alloc, out, insert)
}

/// A word and a number.
#[tactic(auto, unfolding(crate::specs::OkText::named_text))]
pub fn push_named(alloc: Global, out: &mut Vec<u8>, word: &[u8], n: u64) -> Result<(), AllocError>
    ensures { OnOk result (out.new.items ≡ out.old.items ++ named_text word.now n) }
{
    out.extend_from_slice(word)?;
    push_decimal(alloc, out, n)
}

#[tactic(auto, unfolding(crate::specs::OkText::changed_text))]
fn push_changed(alloc: Global, out: &mut Vec<u8>, ok: &OkPacket) -> Result<(), AllocError>
    ensures { OnOk result (out.new.items ≡ out.old.items ++ changed_text ok.now) }
{
    out.extend_from_slice(b"ok")?;
    push_named(alloc, out, b" affected=", ok.affected)?;
    push_insert(alloc, out, ok.insert)
}

#[tactic(auto, unfolding(crate::specs::OkText::state_text))]
fn push_state(alloc: Global, out: &mut Vec<u8>, ok: &OkPacket) -> Result<(), AllocError>
    ensures { OnOk result (out.new.items ≡ out.old.items ++ state_text ok.now) }
{
    push_named(alloc, out, b" warnings=", ok.warnings as u64)?;
    push_named(alloc, out, b" status=", ok.status.0 as u64)
}

#[tactic(auto, unfolding(crate::specs::OkText::info_text))]
fn push_info(alloc: Global, out: &mut Vec<u8>, info: &[u8]) -> Result<(), AllocError>
    ensures { OnOk result (out.new.items ≡ out.old.items ++ info_text info.now) }
{
    out.extend_from_slice(b" info=")?;
    push_bytes(alloc, out, info)
}

#[tactic(auto, unfolding(crate::specs::OkText::ok_text))]
fn push_ok(alloc: Global, out: &mut Vec<u8>, ok: &OkPacket) -> Result<(), AllocError>
    ensures { OnOk result (out.new.items ≡ out.old.items ++ ok_text ok.now) }
{
    push_changed(alloc, out, ok)?;
    push_state(alloc, out, ok)?;
    push_info(alloc, out, ok.info.as_slice())
}

/// The fields of the last OK, or `ok -` where there is none.
pub fn push_fields(
    alloc: Global,
    out: &mut Vec<u8>,
    fields: Option<&OkPacket>,
) -> Result<(), AllocError>
    ensures { OnOk result (out.new.items ≡ out.old.items ++ fields_text (option_map (λ p. p.now) fields.entry)) }
{
    match fields {
        None => out.extend_from_slice(b"ok -"),
        Some(ok) => push_ok(alloc, out, ok),
    }
}
