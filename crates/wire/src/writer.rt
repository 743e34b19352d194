ghost use Rattle.std.specs.Prelude.{OnOk};
ghost use Rattle.wire.specs.Fields as form;
ghost use Rattle.wire.specs.Reading.{AppendsWireForm};

use std::alloc::AllocError;

/// Appends a number of one byte.
#[tactic(auto, unfolding(crate::specs::Fields::n1, crate::specs::Format::wire_spelled_number))]
pub(crate) fn put_n1(out: &mut Vec<u8>, number: u8) -> Result<(), AllocError>
    ensures { OnOk result (AppendsWireForm form.n1 number out.old.items out.new.items) }
{
    out.push(number)?;
    Ok(())
}

/// Appends a number of four bytes, the most significant first.
#[tactic(auto, unfolding(crate::specs::Fields::n4, crate::specs::Format::wire_spelled_number))]
pub(crate) fn put_n4(out: &mut Vec<u8>, number: u32) -> Result<(), AllocError>
    ensures { OnOk result (AppendsWireForm form.n4 number out.old.items out.new.items) }
{
    out.extend_from_slice(&number.to_be_bytes())
}

/// Appends a number of eight bytes, the most significant first.
#[tactic(auto, unfolding(crate::specs::Fields::n8, crate::specs::Format::wire_spelled_number))]
pub(crate) fn put_n8(out: &mut Vec<u8>, number: u64) -> Result<(), AllocError>
    ensures { OnOk result (AppendsWireForm form.n8 number out.old.items out.new.items) }
{
    out.extend_from_slice(&number.to_be_bytes())
}

/// Appends a number of sixteen bytes, the most significant first.
#[tactic(auto, unfolding(crate::specs::Fields::n16))]
pub(crate) fn put_n16(out: &mut Vec<u8>, number: u128) -> Result<(), AllocError>
    ensures { OnOk result (AppendsWireForm form.n16 number out.old.items out.new.items) }
{
    put_n8(out, (number >> 64) as u64)?;
    put_n8(out, (number & u128::from(u64::MAX)) as u64)
}
