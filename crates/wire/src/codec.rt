ghost use Rattle.std.specs.Prelude.{◌≡◌, ◌<◌, ◌++◌, ◌∷◌, [], true, OnOk, IfOk, IfErr};
ghost use Rattle.ctrl_msg.specs.declared.message.Message.{Message};
ghost use Rattle.base.specs.Refusals.{IfRefused};
ghost use Rattle.wire.specs.Fields as form;
ghost use Rattle.wire.specs.Messages as kinds;
ghost use Rattle.wire.specs.Messages.{AreWireShort, WireFieldsSuit, HasWireSpelling, IsWireSpelling, IsWirePlace, wire_cache_rule_of, wire_kind_number, wire_made_body, read_wire_fields, whole_wire_message};
ghost use Rattle.wire.specs.Reading.{AppendsWireForm, AppendsWireFields, GivesWireReading, WireFormatReads};

use crate::error::{Malformed, WireError};
use crate::fields::{
    put_action, put_wire_rule_name, put_wire_switch, put_wire_touched, put_word, read_touched,
    read_wire_action, read_wire_rule_name, read_wire_switch, read_wire_word,
};
use crate::parts::{put_tables, read_wire_tables};
use crate::reader::ByteReader;
use crate::writer::{put_n1, put_n4};
use base::Shared;
use ctrl_msg::{Body, Message, Place, SharedTables};
use failover::Advert;
use policy_rules::Hit;
use std::alloc::{AllocError, Global};
use switch_table::Touched;
use ternary::Word;

#[tactic(auto, unfolding(crate::specs::Messages::wire_receiver))]
pub(crate) fn read_receiver(reader: &mut ByteReader) -> Result<Place, WireError>
    ensures { WireFormatReads kinds.wire_receiver reader.old result reader.new }
{
    match reader.n1()? {
        255 => Ok(Place::Controller),
        switch if switch < 64 => Ok(Place::Switch(u32::from(switch))),
        _ => Err(WireError::Refused(Malformed)),
    }
}

/// The byte of a receiver.
#[tactic(auto, unfolding(crate::specs::Messages::wire_receiver, crate::specs::Fields::switch, crate::specs::Fields::n1, crate::specs::Format::wire_spelled_number))]
pub(crate) fn receiver_byte(to: Place) -> u8
    requires { IsWirePlace to }
    ensures fits { kinds.wire_receiver.fits to ≡ true }
    ensures spelled { kinds.wire_receiver.spell to ≡ result ∷ [] }
{
    match to {
        Place::Controller => 255,
        Place::Switch(switch) => switch as u8,
    }
}

pub(crate) fn put_receiver(out: &mut Vec<u8>, to: Place) -> Result<(), AllocError>
    requires { IsWirePlace to }
    ensures { OnOk result (AppendsWireForm kinds.wire_receiver to out.old.items out.new.items) }
{
    out.push(receiver_byte(to))?;
    Ok(())
}

#[tactic(auto, unfolding(crate::specs::Messages::wire_install_form))]
fn read_install(reader: &mut ByteReader) -> Result<(u32, SharedTables), WireError>
    ensures { WireFormatReads kinds.wire_install_form reader.old result reader.new }
{
    let boot = reader.n4()?;
    let tables = read_wire_tables(reader)?;
    let tables = SharedTables::new(reader.alloc(), tables)?;
    Ok((boot, tables))
}

#[tactic(auto, unfolding(crate::specs::Messages::wire_boot_and_version))]
fn read_wire_boot_version(reader: &mut ByteReader) -> Result<(u32, u32), WireError>
    ensures { WireFormatReads kinds.wire_boot_and_version reader.old result reader.new }
{
    let boot = reader.n4()?;
    let version = reader.n4()?;
    Ok((boot, version))
}

#[tactic(auto, unfolding(crate::specs::Messages::wire_stamp_form))]
fn read_wire_stamp(reader: &mut ByteReader) -> Result<(u32, u32, Shared<Touched>), WireError>
    ensures { let read = kinds.wire_stamp_form.read reader.old in
        GivesWireReading (λ p. (p.0, (p.1, p.2))) read result reader.new }
{
    let boot = reader.n4()?;
    let version = reader.n4()?;
    let touched = read_touched(reader)?;
    let touched = Shared::new(reader.alloc(), touched)?;
    Ok((boot, version, touched))
}

#[tactic(auto, unfolding(crate::specs::Messages::advert))]
fn read_advert(reader: &mut ByteReader) -> Result<Advert, WireError>
    ensures { WireFormatReads kinds.advert reader.old result reader.new }
{
    Ok(Advert {
        origin: read_wire_switch(reader)?,
        boot: reader.n4()?,
        seq: reader.n4()?,
        up: reader.n8()?,
    })
}

#[tactic(auto, unfolding(crate::specs::Messages::wire_cache_rule_form))]
fn read_wire_cache_rule(reader: &mut ByteReader) -> Result<Body, WireError>
    ensures { let read = wire_made_body wire_cache_rule_of (kinds.wire_cache_rule_form.read reader.old) in
        GivesWireReading (λ body. body) read result reader.new }
{
    Ok(Body::CacheRule {
        version: reader.n4()?,
        word: read_wire_word(reader)?,
        rule: read_wire_rule_name(reader)?,
        action: read_wire_action(reader)?,
    })
}

#[tactic(auto, unfolding(crate::specs::Messages::hello))]
fn read_hello(reader: &mut ByteReader) -> Result<(u32, u32), WireError>
    ensures { WireFormatReads kinds.hello reader.old result reader.new }
{
    let switch = read_wire_switch(reader)?;
    let boot = reader.n4()?;
    Ok((switch, boot))
}

#[tactic(auto, unfolding(crate::specs::Messages::wire_acknowledgement))]
fn read_acknowledged(reader: &mut ByteReader) -> Result<(u32, u32, u32), WireError>
    ensures { let read = kinds.wire_acknowledgement.read reader.old in
        GivesWireReading (λ p. (p.0, (p.1, p.2))) read result reader.new }
{
    let switch = read_wire_switch(reader)?;
    let (boot, version) = read_wire_boot_version(reader)?;
    Ok((switch, boot, version))
}

fn read_wire_fields(kind: u8, reader: &mut ByteReader) -> Result<Body, WireError>
    ensures { GivesWireReading (λ body. body) (read_wire_fields kind reader.old) result reader.new }
{
    match kind {
        1 => read_install(reader).map(|(boot, tables)| Body::Install { boot, tables }),
        2 => read_wire_boot_version(reader).map(|(boot, version)| Body::OpenAt { boot, version }),
        3 => read_wire_stamp(reader).map(|(boot, version, touched)| Body::Stamp {
            boot,
            version,
            touched,
        }),
        4 => read_wire_boot_version(reader).map(|(boot, version)| Body::Collect { boot, version }),
        5 => read_wire_cache_rule(reader),
        6 => read_advert(reader).map(|advert| Body::Advertise { advert }),
        7 => read_hello(reader).map(|(switch, boot)| Body::Hello { switch, boot }),
        8 => read_acknowledged(reader).map(|(switch, boot, version)| Body::Installed {
            switch,
            boot,
            version,
        }),
        9 => read_acknowledged(reader).map(|(switch, boot, version)| Body::Stamped {
            switch,
            boot,
            version,
        }),
        _ => Err(WireError::Refused(Malformed)),
    }
}

#[tactic(auto, unfolding(crate::specs::Messages::body))]
fn read_body(reader: &mut ByteReader) -> Result<Body, WireError>
    ensures { WireFormatReads kinds.body reader.old result reader.new }
{
    let kind = reader.n1()?;
    read_wire_fields(kind, reader)
}

#[tactic(auto, unfolding(crate::specs::Messages::message))]
fn read_message(reader: &mut ByteReader) -> Result<Message, WireError>
    ensures { WireFormatReads kinds.message reader.old result reader.new }
{
    let to = read_receiver(reader)?;
    let body = read_body(reader)?;
    let for_controller = match to {
        Place::Switch(_) => false,
        Place::Controller => true,
    };
    if for_controller == body.is_for_controller() {
        Ok(Message { to, body })
    } else {
        Err(WireError::Refused(Malformed))
    }
}

fn whole(reader: &mut ByteReader) -> Result<Message, WireError>
    ensures { GivesWireReading (λ message. message) (whole_wire_message reader.old) result reader.new }
{
    let message = read_message(reader)?;
    if reader.is_empty() {
        Ok(message)
    } else {
        Err(WireError::Refused(Malformed))
    }
}

#[tactic(auto, unfolding(crate::specs::Messages::wire_install_form))]
fn put_install(out: &mut Vec<u8>, boot: u32, tables: &SharedTables) -> Result<(), AllocError>
    requires { AreWireShort tables.now }
    ensures { OnOk result (AppendsWireForm kinds.wire_install_form (boot, tables.now) out.old.items out.new.items) }
{
    put_n4(out, boot)?;
    put_tables(out, tables.tables())
}

#[tactic(auto, unfolding(crate::specs::Messages::wire_boot_and_version))]
fn put_wire_boot_and_version(out: &mut Vec<u8>, boot: u32, version: u32) -> Result<(), AllocError>
    ensures { OnOk result (AppendsWireForm kinds.wire_boot_and_version (boot, version) out.old.items
        out.new.items) }
{
    put_n4(out, boot)?;
    put_n4(out, version)
}

#[tactic(auto, unfolding(crate::specs::Messages::wire_stamp_form))]
fn put_stamp(
    out: &mut Vec<u8>,
    boot: u32,
    version: u32,
    touched: &Touched,
) -> Result<(), AllocError>
    ensures { OnOk result (AppendsWireForm kinds.wire_stamp_form (boot, (version, touched.now))
        out.old.items out.new.items) }
{
    put_n4(out, boot)?;
    put_n4(out, version)?;
    put_wire_touched(out, touched)
}

#[tactic(auto, unfolding(crate::specs::Messages::wire_cache_rule_form))]
fn put_wire_cache_rule(
    out: &mut Vec<u8>,
    version: u32,
    word: &Word,
    hit: Hit,
) -> Result<(), AllocError>
    ensures { OnOk result (AppendsWireForm kinds.wire_cache_rule_form (version, (word.now, (hit.rule, hit.action)))
        out.old.items out.new.items) }
{
    put_n4(out, version)?;
    put_word(out, word)?;
    put_wire_rule_name(out, hit.rule)?;
    put_action(out, hit.action)
}

// The encoding of an advert.
#[tactic(auto, unfolding(crate::specs::Messages::advert, crate::specs::Fields::switch, crate::specs::Fields::n1, crate::specs::Fields::n4, crate::specs::Fields::n8))]
fn advert_bytes(advert: &Advert) -> [u8; 17]
    requires { advert.now.origin < 64 }
    ensures fits { kinds.advert.fits advert.now ≡ true }
    ensures spelled { result ≡ kinds.advert.spell advert.now }
{
    let Advert {
        origin,
        boot,
        seq,
        up,
    } = *advert;
    let mut bytes = [0; 17];
    bytes[0] = origin as u8;
    bytes[1..5].copy_from_slice(&boot.to_be_bytes());
    bytes[5..9].copy_from_slice(&seq.to_be_bytes());
    bytes[9..].copy_from_slice(&up.to_be_bytes());
    bytes
}

fn put_advert(out: &mut Vec<u8>, advert: &Advert) -> Result<(), AllocError>
    requires { advert.now.origin < 64 }
    ensures { OnOk result (AppendsWireForm kinds.advert advert.now out.old.items out.new.items) }
{
    out.extend_from_slice(&advert_bytes(advert))
}

#[tactic(auto, unfolding(crate::specs::Messages::hello))]
fn put_hello(out: &mut Vec<u8>, switch: u32, boot: u32) -> Result<(), AllocError>
    requires { switch < 64 }
    ensures { OnOk result (AppendsWireForm kinds.hello (switch, boot) out.old.items out.new.items) }
{
    put_wire_switch(out, switch)?;
    put_n4(out, boot)
}

#[tactic(auto, unfolding(crate::specs::Messages::wire_acknowledgement))]
fn put_acknowledged(
    out: &mut Vec<u8>,
    switch: u32,
    boot: u32,
    version: u32,
) -> Result<(), AllocError>
    requires { switch < 64 }
    ensures { OnOk result (AppendsWireForm kinds.wire_acknowledgement (switch, (boot, version))
        out.old.items out.new.items) }
{
    put_wire_switch(out, switch)?;
    put_wire_boot_and_version(out, boot, version)
}

fn wire_kind_of_body(body: &Body) -> u8
    ensures { result ≡ wire_kind_number body.now }
{
    match body {
        Body::Install { .. } => 1,
        Body::OpenAt { .. } => 2,
        Body::Stamp { .. } => 3,
        Body::Collect { .. } => 4,
        Body::CacheRule { .. } => 5,
        Body::Advertise { .. } => 6,
        Body::Hello { .. } => 7,
        Body::Installed { .. } => 8,
        Body::Stamped { .. } => 9,
    }
}

fn put_fields(out: &mut Vec<u8>, body: &Body) -> Result<(), AllocError>
    requires { WireFieldsSuit body.now }
    ensures { OnOk result (AppendsWireFields body.now out.old.items out.new.items) }
{
    match body {
        Body::Install { boot, tables } => put_install(out, *boot, tables),
        Body::OpenAt { boot, version } | Body::Collect { boot, version } => {
            put_wire_boot_and_version(out, *boot, *version)
        }
        Body::Stamp {
            boot,
            version,
            touched,
        } => put_stamp(out, *boot, *version, touched.get()),
        Body::CacheRule {
            version,
            word,
            rule,
            action,
        } => {
            let hit = Hit {
                rule: *rule,
                action: *action,
            };
            put_wire_cache_rule(out, *version, word, hit)
        }
        Body::Advertise { advert } => put_advert(out, advert),
        Body::Hello { switch, boot } => put_hello(out, *switch, *boot),
        Body::Installed {
            switch,
            boot,
            version,
        }
        | Body::Stamped {
            switch,
            boot,
            version,
        } => put_acknowledged(out, *switch, *boot, *version),
    }
}

#[tactic(auto, unfolding(crate::specs::Messages::body))]
fn put_body(out: &mut Vec<u8>, body: &Body) -> Result<(), AllocError>
    requires { WireFieldsSuit body.now }
    ensures { OnOk result (AppendsWireForm kinds.body body.now out.old.items out.new.items) }
{
    put_n1(out, wire_kind_of_body(body))?;
    put_fields(out, body)
}

/// Appends the encoding of a message.
///
/// # Errors
/// Only out of memory; then a part of it may be written.
#[tactic(auto, unfolding(crate::specs::Messages::message))]
pub fn append(out: &mut Vec<u8>, message: &Message) -> Result<(), AllocError>
    requires { HasWireSpelling message.now }
    ensures fits { OnOk result (kinds.message.fits message.now ≡ true) }
    ensures spelled { OnOk result
        (out.new.items ≡ out.old.items ++ kinds.message.spell message.now) }
{
    put_receiver(out, message.to)?;
    put_body(out, &message.body)
}

/// The encoding of a message.
///
/// # Errors
/// Only out of memory.
pub fn encode(alloc: Global, message: &Message) -> Result<Vec<u8>, AllocError>
    requires { HasWireSpelling message.now }
    ensures { IfOk result (λ bytes. IsWireSpelling message.now bytes.items) }
{
    let mut bytes = Vec::new(alloc);
    append(&mut bytes, message)?;
    Ok(bytes)
}

/// The message that the bytes encode.
///
/// # Errors
/// `Malformed` exactly if they are the encoding of no message; or out of memory.
#[tactic(auto, using(crate::proofs::WireDecoding::found, crate::proofs::WireDecoding::only, crate::proofs::WireDecoding::malformed))]
pub fn decode(alloc: Global, bytes: &[u8]) -> Result<Message, WireError>
    ensures found { IfOk result (λ message. IsWireSpelling message bytes.now) }
    ensures only { IfOk result (λ message.
        (other : Message) → IsWireSpelling other bytes.now → other ≡ message) }
    ensures malformed { IfErr result (IfRefused (λ _.
        (message : Message) → IsWireSpelling message bytes.now → ⊥)) }
{
    whole(&mut ByteReader::new(alloc, bytes))
}
