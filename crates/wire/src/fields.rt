ghost use Rattle.std.specs.Prelude.{◌<◌, ◌≤◌, All, IfOk, OnOk};
ghost use Rattle.wire.specs.Fields as form;
ghost use Rattle.wire.specs.Reading.{AppendsWireForm, WireFormatReads};

use crate::error::{Malformed, WireError};
use crate::list::{put_wire_items, wire_read_items};
use crate::reader::ByteReader;
use crate::writer::{put_n1, put_n4, put_n16};
use policy_rules::{Action, Targets};
use std::alloc::AllocError;
use switch_table::Touched;
use ternary::Word;

#[tactic(auto, unfolding(crate::specs::Fields::switch))]
pub(crate) fn read_wire_switch(reader: &mut ByteReader) -> Result<u32, WireError>
    ensures { WireFormatReads form.switch reader.old result reader.new }
{
    let number = reader.n1()?;
    if number < 64 {
        Ok(u32::from(number))
    } else {
        Err(WireError::Refused(Malformed))
    }
}

#[tactic(auto, unfolding(crate::specs::Fields::switch))]
pub(crate) fn put_wire_switch(out: &mut Vec<u8>, number: u32) -> Result<(), AllocError>
    requires { number < 64 }
    ensures { OnOk result (AppendsWireForm form.switch number out.old.items out.new.items) }
{
    put_n1(out, number as u8)
}

#[tactic(auto, unfolding(crate::specs::Fields::word))]
pub(crate) fn read_wire_word(reader: &mut ByteReader) -> Result<Word, WireError>
    ensures { WireFormatReads form.word reader.old result reader.new }
{
    let value = reader.n16()?;
    let mask = reader.n16()?;
    match Word::new(value, mask) {
        Some(word) => Ok(word),
        None => Err(WireError::Refused(Malformed)),
    }
}

#[tactic(auto, unfolding(crate::specs::Fields::word))]
pub(crate) fn put_word(out: &mut Vec<u8>, word: &Word) -> Result<(), AllocError>
    ensures { OnOk result (AppendsWireForm form.word word.now out.old.items out.new.items) }
{
    put_n16(out, word.value())?;
    put_n16(out, word.mask())
}

#[tactic(auto, unfolding(crate::specs::Fields::wire_rule_name))]
pub(crate) fn read_wire_rule_name(reader: &mut ByteReader) -> Result<Option<u32>, WireError>
    ensures { WireFormatReads form.wire_rule_name reader.old result reader.new }
{
    match reader.n1()? {
        0 => Ok(None),
        1 => Ok(Some(reader.n4()?)),
        _ => Err(WireError::Refused(Malformed)),
    }
}

#[tactic(auto, unfolding(crate::specs::Fields::wire_rule_name))]
pub(crate) fn put_wire_rule_name(out: &mut Vec<u8>, rule: Option<u32>) -> Result<(), AllocError>
    ensures { OnOk result (AppendsWireForm form.wire_rule_name rule out.old.items out.new.items) }
{
    match rule {
        None => put_n1(out, 0),
        Some(priority) => {
            put_n1(out, 1)?;
            put_n4(out, priority)
        }
    }
}

#[tactic(auto, unfolding(crate::specs::Fields::action))]
pub(crate) fn read_wire_action(reader: &mut ByteReader) -> Result<Action, WireError>
    ensures { WireFormatReads form.action reader.old result reader.new }
{
    match reader.n1()? {
        0 => Ok(Action::Drop),
        1 => Ok(Action::Out(reader.n4()?)),
        _ => Err(WireError::Refused(Malformed)),
    }
}

#[tactic(auto, unfolding(crate::specs::Fields::action))]
pub(crate) fn put_action(out: &mut Vec<u8>, action: Action) -> Result<(), AllocError>
    ensures { OnOk result (AppendsWireForm form.action action out.old.items out.new.items) }
{
    match action {
        Action::Drop => put_n1(out, 0),
        Action::Out(port) => {
            put_n1(out, 1)?;
            put_n4(out, port)
        }
    }
}

// How many values follow: a byte from `least` to `most`.
fn read_byte_count(reader: &mut ByteReader, least: u8, most: u8) -> Result<usize, WireError>
    ensures read { WireFormatReads (form.wire_count_within least most) reader.old result reader.new }
    ensures within { IfOk result (λ count. (least ≤ count) × (count ≤ most)) }
{
    let count = reader.n1()?;
    if least <= count && count <= most {
        Ok(usize::from(count))
    } else {
        Err(WireError::Refused(Malformed))
    }
}

#[tactic(auto, unfolding(crate::specs::Fields::touched, crate::specs::Fields::wire_touched_count))]
pub(crate) fn read_touched(reader: &mut ByteReader) -> Result<Touched, WireError>
    ensures { WireFormatReads form.touched reader.old result reader.new }
{
    let count = read_byte_count(reader, 0, 16)?;
    let words = wire_read_items(reader, count as u32)?;
    match Touched::new(words) {
        Some(touched) => Ok(touched),
        None => Err(WireError::Refused(Malformed)),
    }
}

#[tactic(auto, unfolding(crate::specs::Fields::touched, crate::specs::Fields::wire_touched_count))]
pub(crate) fn put_wire_touched(out: &mut Vec<u8>, touched: &Touched) -> Result<(), AllocError>
    ensures { OnOk result (AppendsWireForm form.touched touched.now out.old.items out.new.items) }
{
    let words = touched.words();
    put_n1(out, words.len() as u8)?;
    put_wire_items(words, out)
}

#[tactic(auto, unfolding(crate::specs::Fields::targets, crate::specs::Fields::wire_target_count))]
pub(crate) fn read_targets(reader: &mut ByteReader) -> Result<Targets, WireError>
    ensures { WireFormatReads form.targets reader.old result reader.new }
{
    let count = read_byte_count(reader, 1, 4)?;
    let mut switches = [0; 4];
    for place in 0..count {
        switches[place] = read_wire_switch(reader)?;
    }
    match Targets::new(&switches[..count]) {
        Some(targets) => Ok(targets),
        None => Err(WireError::Refused(Malformed)),
    }
}

#[tactic(auto, unfolding(crate::specs::Fields::targets, crate::specs::Fields::wire_target_count))]
pub(crate) fn put_targets(out: &mut Vec<u8>, targets: &Targets) -> Result<(), AllocError>
    requires { All (λ s. s < 64) targets.now }
    ensures { OnOk result (AppendsWireForm form.targets targets.now out.old.items out.new.items) }
{
    let switches = targets.items();
    put_n1(out, switches.len() as u8)?;
    for switch in switches {
        put_wire_switch(out, *switch)?;
    }
    Ok(())
}
