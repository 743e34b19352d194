ghost use Rattle.std.specs.Prelude.{◌≡◌, ◌==◌, ◌<◌, ◌≤◌, drop, length, take, IfNone, IfSome};
ghost use Rattle.wire.specs.Reading.{WireFormatReads};
ghost use Rattle.wire.specs.Fields.{n1, n4, n8, n16};

use crate::error::{Malformed, WireError};
use std::alloc::Global;
use std::marker::Model;

/// The bytes that are still to be read. Contracts see them.
#[derive(Drop)]
pub(crate) struct ByteReader<'a> {
    alloc: Global,
    bytes: &'a [u8],
}

impl<'a> Model for ByteReader<'a> {
    ghost use Rattle.std.specs.Prelude.{List, ℕ};

    ghost Value = { List ℕ };

    ghost view = { λ r. r.bytes.now };
}

impl<'a> ByteReader<'a> {
    pub fn new(alloc: Global, bytes: &'a [u8]) -> ByteReader<'a>
        ensures { result ≡ bytes.now }
    {
        ByteReader { alloc, bytes }
    }

    pub fn alloc(&self) -> Global {
        self.alloc
    }

    pub fn len(&self) -> usize
        ensures { result ≡ length self.now }
    {
        self.bytes.len()
    }

    pub fn is_empty(&self) -> bool
        ensures { result ≡ (length self.now == 0) }
    {
        self.bytes.is_empty()
    }

    // The next `count` bytes; `None` if there are fewer.
    fn take(&mut self, count: usize) -> Option<&'a [u8]>
        ensures some { IfSome result (λ front. (count ≤ length self.old)
            × (front.now ≡ take count self.old) × (self.new ≡ drop count self.old)) }
        ensures none { IfNone result (length self.old < count) }
    {
        let (front, rest) = self.bytes.split_at_checked(count)?;
        self.bytes = rest;
        Some(front)
    }

    #[tactic(auto, unfolding(crate::specs::Fields::n1, crate::specs::Format::read_number))]
    pub fn n1(&mut self) -> Result<u8, WireError>
        ensures { WireFormatReads n1 self.old result self.new }
    {
        let front = self.take(1).ok_or(WireError::Refused(Malformed))?;
        Ok(front[0])
    }

    #[tactic(auto, unfolding(crate::specs::Fields::n4, crate::specs::Format::read_number))]
    pub fn n4(&mut self) -> Result<u32, WireError>
        ensures { WireFormatReads n4 self.old result self.new }
    {
        let front = self.take(4).ok_or(WireError::Refused(Malformed))?;
        Ok(u32::from_be_bytes([front[0], front[1], front[2], front[3]]))
    }

    #[tactic(auto, unfolding(crate::specs::Fields::n8, crate::specs::Format::read_number))]
    pub fn n8(&mut self) -> Result<u64, WireError>
        ensures { WireFormatReads n8 self.old result self.new }
    {
        let front = self.take(8).ok_or(WireError::Refused(Malformed))?;
        Ok(u64::from_be_bytes([
            front[0], front[1], front[2], front[3], front[4], front[5], front[6], front[7],
        ]))
    }

    #[tactic(auto, unfolding(crate::specs::Fields::n16))]
    pub fn n16(&mut self) -> Result<u128, WireError>
        ensures { WireFormatReads n16 self.old result self.new }
    {
        let high = self.n8()?;
        let low = self.n8()?;
        Ok(u128::from(high) << 64 | u128::from(low))
    }
}
