//! Numbers, their lowest byte first.
//!
//! A writer adds the spelling of its value behind the bytes that there are.

ghost use Rattle.std.specs.Prelude.{◌≡◌, ◌++◌, OnOk};
ghost use Rattle.wsm_bytecode.specs.Parts.{byte, number, long, signed};

use std::alloc::AllocError;

pub(crate) fn put_u8(out: &mut Vec<u8>, value: u8) -> Result<(), AllocError>
    ensures { OnOk result (out.new.items ≡ out.old.items ++ byte value) }
{
    out.extend_from_slice(&value.to_le_bytes())
}

pub(crate) fn put_u16(out: &mut Vec<u8>, value: u16) -> Result<(), AllocError>
    ensures { OnOk result (out.new.items ≡ out.old.items ++ number value) }
{
    out.extend_from_slice(&value.to_le_bytes())
}

#[tactic(auto, unfolding(crate::specs::Parts::long))]
pub(crate) fn put_u64(out: &mut Vec<u8>, value: u64) -> Result<(), AllocError>
    ensures { OnOk result (out.new.items ≡ out.old.items ++ long value) }
{
    out.extend_from_slice(&value.to_le_bytes())
}

#[tactic(auto, unfolding(crate::specs::Parts::signed))]
pub(crate) fn put_i64(out: &mut Vec<u8>, value: i64) -> Result<(), AllocError>
    ensures { OnOk result (out.new.items ≡ out.old.items ++ signed value) }
{
    out.extend_from_slice(&value.to_le_bytes())
}

pub(crate) fn put_two(out: &mut Vec<u8>, first: i64, second: i64) -> Result<(), AllocError>
    ensures { OnOk result (out.new.items ≡ out.old.items ++ (signed first ++ signed second)) }
{
    put_i64(out, first)?;
    put_i64(out, second)
}
