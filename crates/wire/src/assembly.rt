ghost use Rattle.std.specs.Prelude.{◌≡◌, ◌↔◌, length, map, IsTrue, IfOk};
ghost use Rattle.std.specs.List.{flat_map};
ghost use Rattle.wire.specs.Frames.{chunk_in_wire_frame};
ghost use Rattle.wire.specs.Assembly.{AreWireFramesRising, IsWireMessageAssembled, IsWireMessageWhole};

use crate::codec::decode;
use crate::error::{Malformed, WireError};
use crate::frame::Frame;
use crate::frames::{MAX_CHUNK, cut, wire_first_chunk_len};
use ctrl_msg::Message;
use std::alloc::{AllocError, Global};

// Whether two lists of bytes are the same.
pub(crate) fn are_same_frame_bytes(a: &[u8], b: &[u8]) -> bool
    ensures { IsTrue result ↔ (a.now ≡ b.now) }
{
    a == b
}

// The chunks, one after the other.
fn joined(alloc: Global, frames: &[Frame]) -> Result<Vec<u8>, AllocError>
    ensures { IfOk result (λ bytes. bytes.items ≡ flat_map chunk_in_wire_frame frames.now) }
{
    let mut bytes = Vec::with_capacity(alloc, frames.len().saturating_mul(MAX_CHUNK))?;
    for frame in frames {
        bytes.extend_from_slice(frame.chunk())?;
    }
    Ok(bytes)
}

// Whether these are the chunks of the frames.
fn are_frame_chunks(frames: &[Frame], parts: &[&[u8]]) -> bool
    ensures { IsTrue result ↔ (map chunk_in_wire_frame frames.now ≡ map (λ p. p.now) parts.now) }
{
    if frames.len() != parts.len() {
        return false;
    }
    for place in 0..frames.len() {
        if !are_same_frame_bytes(frames[place].chunk(), parts[place]) {
            return false;
        }
    }
    true
}

// The message of these frames, whose chunks make these bytes.
fn decoded_frames(alloc: Global, frames: &[Frame], bytes: &[u8]) -> Result<Message, WireError>
    requires rising { AreWireFramesRising 0 (length frames.now) frames.now }
    requires bytes { bytes.now ≡ flat_map chunk_in_wire_frame frames.now }
    ensures { IsWireMessageWhole frames.now result }
{
    let message = decode(alloc, bytes)?;
    let parts = cut(alloc, wire_first_chunk_len(&message.body, bytes), bytes)?;
    if are_frame_chunks(frames, &parts) {
        Ok(message)
    } else {
        Err(WireError::Refused(Malformed))
    }
}

// The message of all of its frames.
fn complete_wire_message(alloc: Global, frames: &[Frame]) -> Result<Message, WireError>
    requires { AreWireFramesRising 0 (length frames.now) frames.now }
    ensures { IsWireMessageWhole frames.now result }
{
    let bytes = joined(alloc, frames)?;
    decoded_frames(alloc, frames, &bytes)
}

/// The message of these frames at rising places; `None` if there are fewer than `count`.
///
/// # Errors
/// `Malformed` exactly if there are as many, and they are those of no message; or out of memory.
pub(crate) fn wire_message_of(
    alloc: Global,
    count: u32,
    frames: &[Frame],
) -> Result<Option<Message>, WireError>
    requires { AreWireFramesRising 0 count frames.now }
    ensures { IsWireMessageAssembled frames.now count result }
{
    if frames.len() != count as usize {
        return Ok(None);
    }
    complete_wire_message(alloc, frames).map(Some)
}
