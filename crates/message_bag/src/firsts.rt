ghost use Rattle.std.specs.Prelude.{◌≡◌, ◌<◌, ◌-◌, ◌^◌, ◌≤◌, ◌↔◌, [], Some, length, slice_get, IfOk, IfSome, IsNone};
ghost use Rattle.message_bag.specs.Numbered.{HasPosted};

use std::alloc::{AllocError, Global};
use std::marker::Model;

/// How many bytes are reserved with the first frame, so that they are seldom moved: the memory that
/// they leave stays unused. The system provides reserved memory only when it is written.
const FIRST_BYTES: usize = 4_194_304;

/// For how many frames room is reserved with the first one.
const FIRST_SPANS: usize = 131_072;

/// Where the bytes of a first frame lie, and under which number the frames after it are kept, if
/// there are any.
#[derive(Clone, Copy, Debug, Drop)]
pub struct Span {
    start: u32,
    len: u32,
    tables: Option<u32>,
}

const _: () = prove!(size_of::<Span>() <= 16);

/// The first frames of messages, one after the other, each with the number of the frames after it.
/// Contracts see the list.
#[derive(Drop)]
pub struct Firsts {
    bytes: Vec<u8>,
    spans: Vec<Span>,
}

impl Model for Firsts {
    ghost use Rattle.std.specs.Prelude.{List, Option, All, map};
    ghost use Rattle.message_bag.specs.KeptFrames.{BagFirst, IsBagSpanWithin, bag_first_frame_in};

    ghost Value = { List BagFirst };

    ghost view = { λ f. map (bag_first_frame_in f.bytes.items) f.spans.items };

    ghost invariant = { λ f. All (IsBagSpanWithin f.bytes.items) f.spans.items };
}

impl Firsts {
    /// No first frames; it allocates nothing yet.
    pub fn new(alloc: Global) -> Firsts
        ensures { result ≡ [] }
    {
        Firsts {
            bytes: Vec::new(alloc),
            spans: Vec::new(alloc),
        }
    }

    /// Appends a first frame, with the number of the frames after it, and returns how many there
    /// are then.
    ///
    /// # Errors
    /// Only out of memory, or if the frames so far or this one have 2^32 bytes or more, or the
    /// number is 2^32 or more; then nothing changes.
    #[inline(always)]
    pub fn push(&mut self, frame: &[u8], tables: Option<usize>) -> Result<u32, AllocError>
        requires { length self.old < 2 ^ 32 - 1 }
        ensures { HasPosted result (frame.now, tables) self.old self.new }
    {
        make_bag_frame_room(&mut self.bytes, &mut self.spans)?;
        let span = bag_frame_span_of(self.bytes.len(), frame.len(), tables)?;
        self.bytes.extend_from_slice(frame)?;
        self.spans.push(span)?;
        Ok(self.spans.len() as u32)
    }

    /// Appends the first frame of this index again, without another copy of its bytes, and returns
    /// how many there are then.
    ///
    /// # Errors
    /// Only out of memory; then nothing changes.
    pub fn repeat(&mut self, index: usize) -> Result<u32, AllocError>
        requires there { index < length self.old }
        requires few { length self.old < 2 ^ 32 - 1 }
        ensures { IfSome (slice_get self.old index)
            (λ first. HasPosted result first self.old self.new) }
    {
        let span = self.spans[index];
        self.spans.push(span)?;
        Ok(self.spans.len() as u32)
    }

    /// The first frame of this index, from 0; `None` if there is none.
    pub fn get(&self, index: usize) -> Option<(&[u8], Option<usize>)>
        ensures some { IfSome result (λ first. slice_get self.now index
            ≡ Some (first.0.now, first.1)) }
        ensures none { IsNone result ↔ (length self.now ≤ index) }
    {
        match self.spans.get(index) {
            None => None,
            Some(span) => {
                let start = span.start as usize;
                let frame = &self.bytes[start..start + span.len as usize];
                Some((frame, long(span.tables)))
            }
        }
    }
}

// Reserves room for many, if there is no frame yet.
fn make_bag_frame_room(bytes: &mut Vec<u8>, spans: &mut Vec<Span>) -> Result<(), AllocError>
    ensures bytes { bytes.new.items ≡ bytes.old.items }
    ensures spans { spans.new.items ≡ spans.old.items }
{
    if spans.is_empty() {
        bytes.reserve(FIRST_BYTES)?;
        spans.reserve(FIRST_SPANS)?;
    }
    Ok(())
}

// The span of `len` bytes from `start` on; an error if a number is 2^32 or more.
fn bag_frame_span_of(start: usize, len: usize, tables: Option<usize>) -> Result<Span, AllocError>
    ensures start { IfOk result (λ span. span.start ≡ start) }
    ensures len { IfOk result (λ span. span.len ≡ len) }
    ensures tables { IfOk result (λ span. span.tables ≡ tables) }
{
    let tables = match tables {
        None => None,
        Some(number) => Some(short(number)?),
    };
    Ok(Span {
        start: short(start)?,
        len: short(len)?,
        tables,
    })
}

// The same number in four bytes; an error if it doesn't fit.
fn short(number: usize) -> Result<u32, AllocError>
    ensures { IfOk result (λ short. short ≡ number) }
{
    if number > u32::MAX as usize {
        return Err(AllocError);
    }
    Ok(number as u32)
}

// The same number, if there is one.
fn long(number: Option<u32>) -> Option<usize>
    ensures { result ≡ number }
{
    match number {
        None => None,
        Some(number) => Some(number as usize),
    }
}
