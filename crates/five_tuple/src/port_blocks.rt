ghost use Rattle.std.specs.Prelude.{◌≡◌, ◌+◌, ◌≤◌, ◌<◌, ◌^◌, IfOk, length};
ghost use Rattle.five_tuple.specs.Exports.{TuplePortCoverLaws, IsPortRangeCover, IsLargestTuplePortBlock, IsPortRange, port_range_cover_of};

use crate::matching::PortRange;
use std::alloc::{AllocError, Global};

/// A block of ports as a value and a mask: it has the ports that agree with the value on each bit
/// of the mask.
pub type PortBlock = (u16, u16);

/// The exponent of the largest power of two whose aligned block begins at `first` and ends at or
/// below `high`.
fn largest_tuple_port_block(first: u32, high: u32) -> u32
    requires ordered { first ≤ high }
    requires high { high < 2 ^ 16 }
    ensures largest { IsLargestTuplePortBlock first high result }
    ensures bound { result ≤ 16 }
{
    let aligned = first.trailing_zeros();
    let fitting = (high + 1 - first).ilog2();
    aligned.min(fitting)
}

/// An iterator over the blocks of a range, ascending; it allocates nothing.
#[derive(Clone, Copy, Debug)]
pub struct Blocks {
    next: u32,
    high: u32,
    ghost ports: { high < 2 ^ 16 },
    ghost reached: { next ≤ high + 1 },
}

impl Iterator for Blocks {
    ghost use Rattle.std.specs.Iterator.{YieldsFirst, item_count};
    ghost use Rattle.five_tuple.specs.Blocks.{tuple_port_blocks_left};

    type Item = PortBlock;

    ghost next_gives = { YieldsFirst tuple_port_blocks_left };

    ghost remaining = { item_count tuple_port_blocks_left };

    fn next(&mut self) -> Option<PortBlock> {
        if self.next > self.high {
            return None;
        }
        let size: u32 = 1 << largest_tuple_port_block(self.next, self.high);
        let block = (self.next as u16, (65_536 - size) as u16);
        self.next += size;
        Some(block)
    }
}

impl PortRange {
    ghost use Rattle.five_tuple.specs.Blocks.{tuple_port_blocks_left};

    /// The blocks of this range, one after another, as `cover` lists them.
    pub fn blocks(&self) -> Blocks
        ensures blocks { tuple_port_blocks_left result ≡ port_range_cover_of self.now }
        ensures sound { IsPortRange self.now }
    {
        Blocks {
            next: u32::from(self.low),
            high: u32::from(self.high),
        }
    }
}

/// The range as aligned blocks: exactly its ports, in at most 30 blocks.
///
/// From the low end on, each block is the largest that begins at the first port not yet covered
/// and ends at or below the high end. A block of 2^k ports has the mask 65536 - 2^k.
///
/// # Errors
/// Only out of memory.
pub fn cover(alloc: Global, range: &PortRange) -> Result<Vec<PortBlock>, AllocError>
    ensures cover { IfOk result (λ v. v.items ≡ port_range_cover_of range.now) }
    ensures blocks { IfOk result (λ v. IsPortRangeCover range.now v.items) }
{
    collect_tuple_port_blocks(alloc, range)
}

fn collect_tuple_port_blocks(alloc: Global, range: &PortRange) -> Result<Vec<PortBlock>, AllocError>
    ensures blocks { IfOk result (λ v. v.items ≡ port_range_cover_of range.now) }
    ensures sound { IsPortRange range.now }
{
    range.blocks().collect(alloc)
}

/// The number of blocks that `cover` lists, without making a list.
pub fn count_tuple_port_blocks(range: &PortRange) -> u32
    ensures count { result ≡ length (port_range_cover_of range.now) }
    ensures few { result ≤ 30 }
{
    range.blocks().count() as u32
}

/// The blocks of a range are exactly its ports, and each is the largest that begins at the first
/// port not yet covered.
pub fn tuple_port_cover_laws()
    ensures { TuplePortCoverLaws }
{}
