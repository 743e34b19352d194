ghost use Rattle.std.specs.Prelude.{◌≡◌, ◌<◌, ◌≤◌, length, IfOk};
ghost use Rattle.wire.specs.Frames.{frame, place_in_wire_frame, count_in_wire_frame, chunk_in_wire_frame};

use crate::writer::put_n4;
use std::alloc::{AllocError, Global};
use std::marker::Model;
use std::rc::RcSlice;

/// How many bytes of a frame say its place and the count of frames.
pub const HEADER_LEN: usize = 8;

/// A frame, which its clones share: its place, the count of frames, and a chunk of an encoding.
/// Contracts see the bytes.
#[derive(Debug, Drop)]
pub(crate) struct Frame {
    bytes: RcSlice<u8>,
}

impl Model for Frame {
    ghost use Rattle.std.specs.Prelude.{List, ℕ, ◌≤◌, length};
    ghost use Rattle.std.specs.Rc.{rc_slice_items};

    ghost Value = { List ℕ };

    ghost view = { λ f. rc_slice_items f.bytes };

    ghost invariant = { λ f. 8 ≤ length (rc_slice_items f.bytes) };
}

impl Frame {
    /// The frame of a chunk.
    #[tactic(auto, unfolding(crate::specs::Frames::frame), using(crate::proofs::WireFrameBytes::length_frame))]
    pub fn new(alloc: Global, place: u32, count: u32, chunk: &[u8]) -> Result<Frame, AllocError>
        ensures { IfOk result (λ f. f ≡ frame place count chunk.now) }
    {
        let mut bytes = Vec::with_capacity(alloc, chunk.len().saturating_add(HEADER_LEN))?;
        put_n4(&mut bytes, place)?;
        put_n4(&mut bytes, count)?;
        bytes.extend_from_slice(chunk)?;
        Frame::of_bytes(bytes)
    }

    /// The frame with these bytes.
    pub fn of_bytes(bytes: Vec<u8>) -> Result<Frame, AllocError>
        requires { 8 ≤ length bytes.items }
        ensures { IfOk result (λ f. f ≡ bytes.items) }
    {
        let bytes = RcSlice::from_vec(bytes)?;
        Ok(Frame { bytes })
    }

    /// The frame with a copy of these bytes.
    pub fn copied(alloc: Global, bytes: &[u8]) -> Result<Frame, AllocError>
        requires { 8 ≤ length bytes.now }
        ensures { IfOk result (λ f. f ≡ bytes.now) }
    {
        let bytes = RcSlice::from_slice(alloc, bytes)?;
        Ok(Frame { bytes })
    }

    pub fn bytes(&self) -> &[u8]
        ensures bytes { result.now ≡ self.now }
        ensures long { 8 ≤ length result.now }
    {
        self.bytes.as_slice()
    }

    pub fn place(&self) -> u32
        ensures { result ≡ place_in_wire_frame self.now }
    {
        wire_place_of(self.bytes())
    }

    pub fn count(&self) -> u32
        ensures { result ≡ count_in_wire_frame self.now }
    {
        wire_count_of(self.bytes())
    }

    pub fn chunk(&self) -> &[u8]
        ensures { result.now ≡ chunk_in_wire_frame self.now }
    {
        &self.bytes()[HEADER_LEN..]
    }
}

impl Clone for Frame {
    ghost is_clone = { λ frame copy. copy ≡ frame };

    fn clone(&self) -> Result<Frame, AllocError> {
        let bytes = self.bytes.clone()?;
        Ok(Frame { bytes })
    }
}

/// The place of a frame.
#[tactic(auto, unfolding(crate::specs::Frames::place_in_wire_frame))]
pub(crate) fn wire_place_of(frame: &[u8]) -> u32
    requires { 8 ≤ length frame.now }
    ensures { result ≡ place_in_wire_frame frame.now }
{
    u32::from_be_bytes([frame[0], frame[1], frame[2], frame[3]])
}

/// How many frames there are, as this frame says.
#[tactic(auto, unfolding(crate::specs::Frames::count_in_wire_frame))]
pub(crate) fn wire_count_of(frame: &[u8]) -> u32
    requires { 8 ≤ length frame.now }
    ensures { result ≡ count_in_wire_frame frame.now }
{
    u32::from_be_bytes([frame[4], frame[5], frame[6], frame[7]])
}
