ghost use Rattle.std.specs.Prelude.{◌≡◌, ◌<◌, ◌≤◌, ◌^◌, ◌↔◌, Some, true, length, map, take, drop, slice_get, IfOk, IfSome, IsNone};
ghost use Rattle.wire.specs.Frames.{AreWireFrames, wire_begun_for, wire_frame_begun_with, wire_chunks_behind_head, wire_first_chunk_len, wire_frames_of, wire_frames_of_version};
ghost use Rattle.wire.specs.Messages as kinds;
ghost use Rattle.wire.specs.Messages.{HasWireSpelling, IsWirePlace};

use crate::codec::{encode, receiver_byte};
use crate::frame::{Frame, HEADER_LEN};
use crate::writer::put_n4;
use ctrl_msg::{Body, Message, Place};
use std::alloc::{AllocError, Global};
use std::marker::Model;

/// The most bytes of a frame.
pub(crate) const MAX_FRAME: usize = 16_384;

/// The most bytes of a chunk.
pub(crate) const MAX_CHUNK: usize = MAX_FRAME - HEADER_LEN;

/// Where the version ends in the frame whose chunk begins with it.
const VERSION_END: usize = HEADER_LEN + 4;

/// The frames of a message. Contracts see the list of their bytes.
#[derive(Debug, Drop)]
pub struct Frames {
    frames: Vec<Frame>,
}

impl Model for Frames {
    ghost use Rattle.std.specs.Prelude.{List, ℕ};

    ghost Value = { List (List ℕ) };

    ghost view = { λ f. f.frames.items };
}

impl Frames {
    /// The frame at this place, from 0; `None` exactly at or beyond the end.
    pub fn get(&self, place: u32) -> Option<&[u8]>
        ensures frame { IfSome result (λ frame. slice_get self.now place ≡ Some frame.now) }
        ensures none { IsNone result ↔ (length self.now ≤ place) }
    {
        match self.frames.get(place as usize) {
            Some(frame) => Some(frame.bytes()),
            None => None,
        }
    }

    /// The frames of an installation of the same tables under another version. Only the second
    /// frame differs: its chunk begins with the version. All others are shared.
    ///
    /// # Errors
    /// Only out of memory.
    pub fn with_version(&self, alloc: Global, version: u32) -> Result<Frames, AllocError>
        ensures { IfOk result (λ frames. frames ≡ wire_frames_of_version version self.now) }
    {
        let mut frames = shared(alloc, &self.frames)?;
        if frames.len() > 1 {
            frames[1] = frame_begun_with(alloc, version, frames[1].bytes())?;
        }
        Ok(Frames { frames })
    }
}

// A copy of this list, which shares the frames.
fn shared(alloc: Global, frames: &[Frame]) -> Result<Vec<Frame>, AllocError>
    ensures { IfOk result (λ all. all.items ≡ frames.now) }
{
    let mut all = Vec::with_capacity(alloc, frames.len())?;
    for frame in frames {
        all.push(frame.clone()?)?;
    }
    Ok(all)
}

// The frame with the four bytes of this version at the beginning of its chunk.
fn frame_begun_with(alloc: Global, version: u32, frame: &[u8]) -> Result<Frame, AllocError>
    requires { 8 ≤ length frame.now }
    ensures { IfOk result (λ f. f ≡ wire_frame_begun_with version frame.now) }
{
    let mut bytes = Vec::with_capacity(alloc, frame.len())?;
    bytes.extend_from_slice(split_front(frame, HEADER_LEN).0)?;
    put_n4(&mut bytes, version)?;
    bytes.extend_from_slice(split_front(frame, VERSION_END).1)?;
    Frame::of_bytes(bytes)
}

/// Writes this receiver into the first frame of a message, so that it is the one of the same
/// message to this receiver.
pub fn set_wire_receiver(frame: &mut [u8], to: Place)
    requires receiver { IsWirePlace to }
    requires long { 9 ≤ length frame.old }
    ensures fits { kinds.wire_receiver.fits to ≡ true }
    ensures written { frame.new ≡ wire_begun_for to frame.old }
{
    frame[HEADER_LEN] = receiver_byte(to);
}

/// The frames of a message: for an installation its first six bytes are a chunk, and the rest is
/// cut into chunks of 16,376 bytes; for any other message all bytes are one chunk.
///
/// # Errors
/// Only out of memory.
pub fn split(alloc: Global, message: &Message) -> Result<Frames, AllocError>
    requires spelling { HasWireSpelling message.now }
    requires short { length (kinds.message.spell message.now) < 2 ^ 40 }
    ensures { IfOk result (λ frames. AreWireFrames message.now frames) }
{
    let bytes = encode(alloc, message)?;
    let parts = cut(alloc, wire_first_chunk_len(&message.body, &bytes), &bytes)?;
    let frames = framed(alloc, &parts)?;
    Ok(Frames { frames })
}

// How many bytes the first chunk has.
pub(crate) fn wire_first_chunk_len(body: &Body, bytes: &[u8]) -> usize
    ensures { result ≡ wire_first_chunk_len body.now bytes.now }
{
    match body {
        Body::Install { .. } => 6,
        _ => bytes.len(),
    }
}

// The first bytes, at most this many, and the others.
fn split_front(bytes: &[u8], len: usize) -> (&[u8], &[u8])
    ensures front { result.0.now ≡ take len bytes.now }
    ensures back { result.1.now ≡ drop len bytes.now }
{
    if bytes.len() <= len {
        (bytes, &[])
    } else {
        bytes.split_at(len)
    }
}

// The chunks of an encoding, the first of which has `head` bytes, and the others at most 16,376.
pub(crate) fn cut(alloc: Global, head: usize, bytes: &[u8]) -> Result<Vec<&[u8]>, AllocError>
    ensures { IfOk result (λ parts. map (λ p. p.now) parts.items
        ≡ wire_chunks_behind_head head bytes.now) }
{
    let (first, rest) = split_front(bytes, head);
    let mut parts = Vec::new(alloc);
    parts.push(first)?;
    let count = rest.len().div_ceil(MAX_CHUNK);
    let mut left = rest;
    for _ in 0..count {
        let (chunk, after) = split_front(left, MAX_CHUNK);
        parts.push(chunk)?;
        left = after;
    }
    Ok(parts)
}

// The frames of these chunks.
fn framed(alloc: Global, parts: &[&[u8]]) -> Result<Vec<Frame>, AllocError>
    requires { length parts.now < 2 ^ 32 }
    ensures { IfOk result (λ frames. frames.items ≡ wire_frames_of (map (λ p. p.now) parts.now)) }
{
    let mut frames = Vec::new(alloc);
    let count = parts.len() as u32;
    for place in 0..count {
        let frame = Frame::new(alloc, place, count, parts[place as usize])?;
        frames.push(frame)?;
    }
    Ok(frames)
}
