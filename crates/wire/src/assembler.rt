ghost use Rattle.std.specs.Prelude.{◌≡◌, ◌<◌, ◌≤◌, ◌↔◌, [], length, IsSome, IfOk, IfSome, OnOk, OnErr, IfErr, nat_le};
ghost use Rattle.std.specs.Option.{option_copied};
ghost use Rattle.std.specs.List.{insert, position, position_or_len};
ghost use Rattle.base.specs.Refusals.{IfRefused};
ghost use Rattle.wire.specs.Frames.{AreWireFrames, count_in_wire_frame, place_in_wire_frame};
ghost use Rattle.wire.specs.Assembly.{WireFramesAgree, AreWireFramesHeld, AreWireFramesRising, AreWireFramesTogether, IsWireMessageAssembled, IsWireAssemblerFed, IsRefusedWireFrame, IsWireFrameCheck, wire_frame_held_at, wire_frames_with_frame};

use crate::assembly::{are_same_frame_bytes, wire_message_of};
use crate::error::{Malformed, WireError};
use crate::frame::{Frame, HEADER_LEN, wire_count_of, wire_place_of};
use crate::frames::MAX_FRAME;
use ctrl_msg::Message;
use std::alloc::Global;
use std::marker::Model;

/// The frames of one message that came so far. Contracts see the list of their bytes, in the order
/// of their places.
#[derive(Debug, Drop)]
pub struct Assembler {
    frames: Vec<Frame>,
}

impl Model for Assembler {
    ghost use Rattle.std.specs.Prelude.{List, ℕ};
    ghost use Rattle.wire.specs.Assembly.{AreWireFramesTogether};

    ghost Value = { List (List ℕ) };

    ghost view = { λ a. a.frames.items };

    ghost invariant = { λ a. AreWireFramesTogether a.frames.items };
}

impl Assembler {
    /// An assembler without frames; it allocates nothing yet.
    pub fn new(alloc: Global) -> Assembler
        ensures { result ≡ [] }
    {
        Assembler {
            frames: Vec::new(alloc),
        }
    }

    /// Takes a frame, and returns the message once it has all of its frames; a frame may come
    /// again, and in any order.
    ///
    /// # Errors
    /// `Malformed` if the frame isn't of 9 to 16,384 bytes, its place isn't below its
    /// count, an earlier frame has another count, another frame has its place, or all frames have
    /// come and are those of no message. Otherwise only out of memory. An error changes nothing.
    pub fn feed(&mut self, frame: &[u8]) -> Result<Option<Message>, WireError>
        ensures refused { IfErr result (IfRefused (λ _. IsRefusedWireFrame self.old frame.now)) }
        ensures taken { OnOk result (IsRefusedWireFrame self.old frame.now → ⊥) }
        ensures held { OnOk result (self.new ≡ wire_frames_with_frame self.old frame.now) }
        ensures some { IfOk result (λ answer.
            IsSome answer ↔ AreWireFramesHeld self.new (count_in_wire_frame frame.now)) }
        ensures message { IfOk result (λ answer. IfSome answer (λ m. AreWireFrames m self.new)) }
        ensures unchanged { OnErr result (self.new ≡ self.old) }
    {
        let alloc = *self.frames.allocator();
        feed(&mut self.frames, alloc, frame)
    }
}

fn feed(frames: &mut Vec<Frame>, alloc: Global, frame: &[u8]) -> Result<Option<Message>, WireError>
    requires { AreWireFramesTogether frames.old.items }
    ensures { IsWireAssemblerFed frames.old.items frame.now frames.new.items result }
{
    match frame_check_of(frames, frame) {
        FrameCheck::Refused => Err(WireError::Refused(Malformed)),
        FrameCheck::Held => wire_message_of(alloc, wire_count_of(frame), frames),
        FrameCheck::New(index) => hold(frames, alloc, index, frame),
    }
}

// Inserts a frame at this index, unless there is an error.
fn hold(
    frames: &mut Vec<Frame>,
    alloc: Global,
    index: usize,
    frame: &[u8],
) -> Result<Option<Message>, WireError>
    requires index { index ≤ length frames.old.items }
    requires long { 8 ≤ length frame.now }
    requires rising { AreWireFramesRising 0 (count_in_wire_frame frame.now) (insert frames.old.items index frame.now) }
    ensures answer { let held = insert frames.old.items index frame.now in
        IsWireMessageAssembled held (count_in_wire_frame frame.now) result }
    ensures ok { OnOk result (frames.new.items ≡ insert frames.old.items index frame.now) }
    ensures unchanged { OnErr result (frames.new.items ≡ frames.old.items) }
{
    let copy = Frame::copied(alloc, frame)?;
    frames.insert(index, copy)?;
    match wire_message_of(alloc, wire_count_of(frame), frames) {
        Ok(answer) => Ok(answer),
        Err(error) => {
            let _ = frames.remove(index);
            Err(error)
        }
    }
}

/// Where a frame belongs among those that came.
enum FrameCheck {
    /// It is refused.
    Refused,
    /// It has come already.
    Held,
    /// At this index.
    New(usize),
}

fn frame_check_of(frames: &[Frame], frame: &[u8]) -> FrameCheck
    requires { AreWireFramesTogether frames.now }
    ensures { IsWireFrameCheck frames.now frame.now result }
{
    if frame.len() <= HEADER_LEN {
        return FrameCheck::Refused;
    }
    if frame.len() > MAX_FRAME {
        return FrameCheck::Refused;
    }
    if wire_count_of(frame) <= wire_place_of(frame) {
        return FrameCheck::Refused;
    }
    if !agree(frames, wire_count_of(frame)) {
        return FrameCheck::Refused;
    }
    frame_check_among(frames, frame)
}

// Whether the frames that came have this count.
fn agree(frames: &[Frame], count: u32) -> bool
    requires { AreWireFramesTogether frames.now }
    ensures { WireFramesAgree frames.now count result }
{
    match frames.first() {
        Some(first) => first.count() == count,
        None => true,
    }
}

// Where a frame belongs among those of its count.
fn frame_check_among(frames: &[Frame], frame: &[u8]) -> FrameCheck
    requires long { 9 ≤ length frame.now }
    requires short { length frame.now ≤ 16384 }
    requires below { place_in_wire_frame frame.now < count_in_wire_frame frame.now }
    requires rising { AreWireFramesRising 0 (count_in_wire_frame frame.now) frames.now }
    ensures { IsWireFrameCheck frames.now frame.now result }
{
    let place = wire_place_of(frame);
    match find_wire_frame_at(frames, place) {
        Some(held) => {
            if are_same_frame_bytes(held.bytes(), frame) {
                FrameCheck::Held
            } else {
                FrameCheck::Refused
            }
        }
        None => FrameCheck::New(wire_frame_index_of(frames, place)),
    }
}

// The frame of this place; `None` if it hasn't come.
fn find_wire_frame_at(frames: &[Frame], place: u32) -> Option<&Frame>
    ensures { option_copied result ≡ wire_frame_held_at frames.now place }
{
    frames.iter().find(|frame| frame.place() == place)
}

// The index of the first frame of this place or a higher one.
fn first_wire_frame_from(frames: &[Frame], place: u32) -> Option<usize>
    ensures { result ≡ position (λ f. nat_le place (place_in_wire_frame f)) frames.now }
{
    frames.iter().position(|frame| place <= frame.place())
}

// How many frames are before the first of this place or a higher one.
fn wire_frame_index_of(frames: &[Frame], place: u32) -> usize
    ensures { result ≡ position_or_len (λ f. nat_le place (place_in_wire_frame f)) frames.now }
{
    match first_wire_frame_from(frames, place) {
        Some(index) => index,
        None => frames.len(),
    }
}
