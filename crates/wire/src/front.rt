//! What comes before the tables in the encoding of an installation.
ghost use Rattle.std.specs.Prelude.{◌≡◌, ◌++◌, ℕ, true, IfOk, IfErr, OnOk};
ghost use Rattle.ctrl_msg.specs.declared.message.Place.{Place};
ghost use Rattle.base.specs.Refusals.{IfRefused};
ghost use Rattle.wire.specs.Messages.{IsWireFront, IsWirePlace, wire_message_front, wire_read_front, wire_spelled_front};
ghost use Rattle.wire.specs.Reading.{GivesWireReading};

use crate::codec::{put_receiver, read_receiver};
use crate::error::{Malformed, WireError};
use crate::reader::ByteReader;
use crate::writer::{put_n1, put_n4};
use ctrl_msg::Place;
use std::alloc::{AllocError, Global};

/// The kind of an installation.
const INSTALL: u8 = 1;

/// Appends the front of an installation for this receiver and this boot.
///
/// # Errors
/// Only out of memory; then a part of it may be written.
#[tactic(auto, unfolding(crate::specs::Messages::wire_message_front))]
pub fn append_install_front(out: &mut Vec<u8>, to: Place, boot: u32) -> Result<(), AllocError>
    requires { IsWirePlace to }
    ensures fits { OnOk result (wire_message_front.fits (to, (1, boot)) ≡ true) }
    ensures spelled { OnOk result (out.new.items ≡ out.old.items ++ wire_spelled_front to boot) }
{
    put_receiver(out, to)?;
    put_n1(out, INSTALL)?;
    put_n4(out, boot)
}

#[tactic(auto, unfolding(crate::specs::Messages::wire_message_front))]
fn read(reader: &mut ByteReader) -> Result<(Place, u32), WireError>
    ensures { GivesWireReading (λ front. front) (wire_read_front reader.old) result reader.new }
{
    let to = read_receiver(reader)?;
    let kind = reader.n1()?;
    let boot = reader.n4()?;
    if kind == INSTALL && reader.is_empty() {
        Ok((to, boot))
    } else {
        Err(WireError::Refused(Malformed))
    }
}

/// The receiver and the boot of an installation whose front these bytes are.
///
/// # Errors
/// `Malformed` exactly if they are the front of no installation; or out of memory.
#[tactic(auto, using(crate::proofs::WireInstallationFronts::front_found, crate::proofs::WireInstallationFronts::no_front))]
pub fn decode_front(alloc: Global, bytes: &[u8]) -> Result<(Place, u32), WireError>
    ensures found { IfOk result (λ front. IsWireFront front.0 front.1 bytes.now) }
    ensures malformed { IfErr result (IfRefused (λ _.
        (to : Place) (boot : ℕ) → IsWireFront to boot bytes.now → ⊥)) }
{
    read(&mut ByteReader::new(alloc, bytes))
}
