//! Messages that are made out of their frames again.
ghost use Rattle.std.specs.Prelude.{◌≡◌, ◌∷◌, ◌↔◌, ℕ, [], None, drop, IfOk, IfSome, IsNone, IsSome, OnOk};
ghost use Rattle.ctrl_msg.specs.declared.message.Body.TheVariants.{Install};
ghost use Rattle.ctrl_msg.specs.declared.message.Place.{Place};
ghost use Rattle.wire.specs.Assembly.{AreWireFramesHeld, IsRefusedWireFrame, wire_frames_with_frame};
ghost use Rattle.wire.specs.Frames.{AreWireFrames, count_in_wire_frame};
ghost use Rattle.wire.specs.Messages.{IsWireFront};
ghost use Rattle.message_bag.specs.KeptFrames.{AreBagFramesOfInstall, AreBagFramesOfMessage, BagFramesCarryTables, bag_tables_version};

use ctrl_msg::{Body, Message, Place, SharedTables};
use std::alloc::{AllocError, Global};
use wire::{Assembler, Frames, HEADER_LEN, WireError, decode, decode_front};

/// The message of one frame, whose chunk is the whole encoding.
///
/// # Errors
/// Only out of memory.
pub fn bag_message_of_frame(alloc: Global, frame: &[u8]) -> Result<Message, AllocError>
    requires { AreBagFramesOfMessage (frame.now ∷ []) }
    ensures { IfOk result (λ message. AreWireFrames message (frame.now ∷ [])) }
{
    match decode(alloc, &frame[HEADER_LEN..]) {
        Ok(message) => Ok(message),
        Err(WireError::Refused(_)) => unreachable!(),
        Err(WireError::NoMemory) => Err(AllocError),
    }
}

// Feeds the assembler with a frame that it doesn't refuse.
fn feed(assembler: &mut Assembler, frame: &[u8]) -> Result<Option<Message>, AllocError>
    requires { IsRefusedWireFrame assembler.old frame.now → ⊥ }
    ensures held { OnOk result (assembler.new ≡ wire_frames_with_frame assembler.old frame.now) }
    ensures some { IfOk result (λ answer.
        IsSome answer ↔ AreWireFramesHeld assembler.new (count_in_wire_frame frame.now)) }
    ensures message { IfOk result (λ answer. IfSome answer (λ m. AreWireFrames m assembler.new)) }
{
    match assembler.feed(frame) {
        Ok(answer) => Ok(answer),
        Err(WireError::Refused(_)) => unreachable!(),
        Err(WireError::NoMemory) => Err(AllocError),
    }
}

// The message of this first frame and the other frames after their first one.
fn assembled_bag_message(
    alloc: Global,
    first: &[u8],
    frames: &Frames,
) -> Result<Message, AllocError>
    requires { AreBagFramesOfMessage (first.now ∷ drop 1 frames.now) }
    ensures { IfOk result (λ message. AreWireFrames message (first.now ∷ drop 1 frames.now)) }
{
    let mut assembler = Assembler::new(alloc);
    let mut frame = first;
    for place in 0..u32::MAX {
        if let Some(message) = feed(&mut assembler, frame)? {
            return Ok(message);
        }
        frame = match frames.get(place + 1) {
            Some(next) => next,
            None => unreachable!(),
        };
    }
    unreachable!()
}

/// The boot and the tables of an installation; `None` for any other body.
pub fn tables_of(body: &Body) -> Option<(u32, &SharedTables)>
    ensures some { IfSome result (λ found. body.now ≡ Install found.0 found.1.now) }
    ensures none { IsNone result → bag_tables_version body.now ≡ None }
{
    match body {
        Body::Install { boot, tables } => Some((*boot, tables)),
        _ => None,
    }
}

/// The tables that an installation carries, out of its frames.
///
/// # Errors
/// Only out of memory.
pub fn tables_in_bag_frames(alloc: Global, frames: &Frames) -> Result<SharedTables, AllocError>
    requires { AreBagFramesOfInstall frames.now }
    ensures { IfOk result (λ tables. BagFramesCarryTables tables frames.now) }
{
    let message = match frames.get(0) {
        Some(first) => assembled_bag_message(alloc, first, frames)?,
        None => unreachable!(),
    };
    match tables_of(&message.body) {
        Some((_, tables)) => tables.clone(),
        None => unreachable!(),
    }
}

/// The receiver and the boot of an installation.
///
/// # Errors
/// Only out of memory.
pub fn read_bag_install_front(alloc: Global, front: &[u8]) -> Result<(Place, u32), AllocError>
    requires { (to : Place) × (boot : ℕ) × IsWireFront to boot front.now }
    ensures { IfOk result (λ read. IsWireFront read.0 read.1 front.now) }
{
    match decode_front(alloc, front) {
        Ok(read) => Ok(read),
        Err(WireError::Refused(_)) => unreachable!(),
        Err(WireError::NoMemory) => Err(AllocError),
    }
}
