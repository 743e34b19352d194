//! Frames of messages, fed to an assembler in another order than theirs.
ghost use Rattle.wire.specs.Messages.{HasWireSpelling};

use crate::tests::messages::{collect, install};
use ctrl_msg::{Body, Message};
use std::alloc::Global;
use std::test::*;
use wire::{Assembler, Frames, encode, split};

// The frames of a message; `None` if its encoding is longer than 1 MiB, or out of memory.
fn frames(alloc: Global, message: &Message) -> Option<Frames>
    requires { HasWireSpelling message.now }
{
    let Ok(bytes) = encode(alloc, message) else {
        return None;
    };
    if bytes.len() > 1 << 20 {
        return None;
    }
    split(alloc, message).ok()
}

// Whether this is the only frame of the `Collect` message.
fn is_one(alloc: Global, frame: &[u8]) -> Option<bool> {
    let frames = frames(alloc, &collect())?;
    Some(frames.get(0) == Some(frame) && frames.get(1).is_none())
}

#[test]
fn one_frame(rt: HostRuntime) {
    let bytes = [0, 0, 0, 0, 0, 0, 0, 1, 0, 4, 0, 0, 0, 1, 0, 0, 0, 1];
    assert!(rt; is_one(rt.alloc(), &bytes) == Some(true));
}

// Whether the frame at this place makes the message whole.
fn completes(assembler: &mut Assembler, frames: &Frames, place: u32) -> Option<bool> {
    let answer = assembler.feed(frames.get(place)?).ok()?;
    Some(match answer {
        Some(message) => matches!(message.body, Body::Install { boot: 1, .. }),
        None => false,
    })
}

fn frame_len(frames: &Frames, place: u32) -> Option<usize> {
    Some(frames.get(place)?.len())
}

// Whether there are four frames, of these lengths.
fn have_lengths(frames: &Frames) -> bool {
    for (place, len) in [(0, 14), (1, 16_384), (2, 16_384), (3, 7256)] {
        if frame_len(frames, place) != Some(len) {
            return false;
        }
    }
    frames.get(4).is_none()
}

// Whether only the last of these frames, in another order and with one twice, makes it whole.
fn are_put_together(alloc: Global, frames: &Frames) -> bool {
    let mut assembler = Assembler::new(alloc);
    for place in [3, 1, 1, 0] {
        if completes(&mut assembler, frames, place) != Some(false) {
            return false;
        }
    }
    completes(&mut assembler, frames, 2) == Some(true)
}

#[test]
fn frames_in_another_order(rt: HostRuntime) -> Result<(), Fail> {
    let alloc = rt.alloc();
    // Tables of 40,000 bytes.
    let frames = frames(alloc, &install(alloc, 1038, 12)?).ok_or("frames")?;
    assert!(rt; have_lengths(&frames) && are_put_together(alloc, &frames));
    Ok(())
}
