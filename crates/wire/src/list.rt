ghost use Rattle.std.specs.Prelude.{◌<◌, ◌^◌, length, All, OnOk};
ghost use Rattle.wire.specs.Format.{WireFormat, wire_list_of, wire_read_items};
ghost use Rattle.wire.specs.Reading.{WireFormatReads, GivesWireReading, AppendsWireForm, AppendsEncodedItems};
ghost use Rattle.wire.specs.Fields.{n4};

use crate::error::WireError;
use crate::reader::ByteReader;
use crate::writer::put_n4;
use std::alloc::AllocError;

/// The least bytes of a part: those of a word, which each part has.
const LEAST_OF_PART: usize = 32;

/// A part of a message that has a format.
pub(crate) trait Part: Sized + Drop {
    /// How it is encoded.
    ghost format: { WireFormat Self };

    /// What its writer requires.
    ghost needs: { Self → Type 0 };

    /// Reads a part from the front of the bytes.
    fn read(reader: &mut ByteReader) -> Result<Self, WireError>
        ensures { WireFormatReads format reader.old result reader.new };

    /// Appends the encoding of the part.
    fn put(&self, out: &mut Vec<u8>) -> Result<(), AllocError>
        requires { needs self.now }
        ensures { OnOk result (AppendsWireForm format self.now out.old.items out.new.items) };
}

// The count isn't trusted: room is allocated for no more parts than the bytes can have.
pub(crate) fn wire_read_items<T: Part>(
    reader: &mut ByteReader,
    count: u32,
) -> Result<Vec<T>, WireError>
    ensures { GivesWireReading (λ v. v.items) (wire_read_items T.format count reader.old) result reader.new }
{
    let most = reader.len() / LEAST_OF_PART;
    let mut items = Vec::with_capacity(reader.alloc(), most.min(count as usize))?;
    for _ in 0..count {
        items.push(T::read(reader)?)?;
    }
    Ok(items)
}

#[tactic(auto, unfolding(crate::specs::Format::wire_list_of))]
pub(crate) fn wire_read_list<T: Part>(reader: &mut ByteReader) -> Result<Vec<T>, WireError>
    ensures { GivesWireReading (λ v. v.items) ((wire_list_of n4 T.format).read reader.old) result reader.new }
{
    let count = reader.n4()?;
    wire_read_items(reader, count)
}

// Appends only the parts, not their count.
pub(crate) fn put_wire_items<T: Part>(items: &[T], out: &mut Vec<u8>) -> Result<(), AllocError>
    requires { All T.needs items.now }
    ensures { OnOk result (AppendsEncodedItems T.format items.now out.old.items out.new.items) }
{
    for item in items {
        item.put(out)?;
    }
    Ok(())
}

#[tactic(auto, unfolding(crate::specs::Format::wire_list_of))]
pub(crate) fn put_list<T: Part>(items: &[T], out: &mut Vec<u8>) -> Result<(), AllocError>
    requires few { length items.now < 2 ^ 32 }
    requires each { All T.needs items.now }
    ensures { OnOk result (AppendsWireForm (wire_list_of n4 T.format) items.now out.old.items out.new.items) }
{
    put_n4(out, items.len() as u32)?;
    out.reserve(items.len().saturating_mul(LEAST_OF_PART))?;
    put_wire_items(items, out)
}
