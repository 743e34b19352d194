//! Encodings byte by byte, and bytes that are none.
ghost use Rattle.wire.specs.Messages.{HasWireSpelling};

use crate::tests::messages::{collect, hello, stamp};
use ctrl_msg::{Body, Message, Place};
use std::alloc::{AllocError, Global};
use std::test::*;
use wire::{WireError, decode, encode};

fn is_malformed(alloc: Global, bytes: &[u8]) -> bool {
    matches!(decode(alloc, bytes), Err(WireError::Refused(_)))
}

fn is_spelled(alloc: Global, message: &Message, spelling: &[u8]) -> Result<bool, AllocError>
    requires { HasWireSpelling message.now }
{
    Ok(encode(alloc, message)?.as_slice() == spelling)
}

#[test]
fn spellings_byte_by_byte(rt: HostRuntime) {
    let alloc = rt.alloc();
    let bytes = [0, 4, 0, 0, 0, 1, 0, 0, 0, 1];
    assert!(rt; is_spelled(alloc, &collect(), &bytes) == Ok(true));
    assert!(rt; is_spelled(alloc, &hello(), &[255, 7, 0, 0, 0, 0, 2]) == Ok(true));
    assert!(rt; is_malformed(alloc, &[255, 4, 0, 0, 0, 1, 0, 0, 0, 1]));
}

#[test]
fn stamps_have_their_words(rt: HostRuntime) -> Result<(), Fail> {
    let alloc = rt.alloc();
    for (words, len) in [(0, 11), (1, 43), (16, 523)] {
        assert!(rt; encode(alloc, &stamp(alloc, words)?)?.len() == len);
    }
    let short = [0, 3, 0, 0, 0, 1, 0, 0, 0, 2];
    let many = [0, 3, 0, 0, 0, 1, 0, 0, 0, 2, 17];
    assert!(rt; is_malformed(alloc, &short) && is_malformed(alloc, &many));
    Ok(())
}

// Whether the bytes encode the Hello of the switch 0 in its second boot.
fn is_hello(alloc: Global, bytes: &[u8]) -> bool {
    match decode(alloc, bytes) {
        Ok(read) => {
            read.to == Place::Controller && matches!(read.body, Body::Hello { switch: 0, boot: 2 })
        }
        Err(_) => false,
    }
}

#[test]
fn a_spelling_is_read(rt: HostRuntime) {
    assert!(rt; is_hello(rt.alloc(), &[255, 7, 0, 0, 0, 0, 2]));
}
