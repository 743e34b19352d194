#![tactic(auto, unfolding(crate::specs::Fields::rule, crate::specs::Fields::region, crate::specs::Fields::partition, crate::specs::Fields::tables))]

ghost use Rattle.std.specs.Prelude.{OnOk};
ghost use Rattle.wire.specs.Reading.{AppendsWireForm, WireFormatReads};
ghost use Rattle.wire.specs.Fields as form;
ghost use Rattle.wire.specs.Messages.{AreWireShort, AreWireSwitchNumbers, HasFewWireRules};

use crate::error::WireError;
use crate::fields::{
    put_action, put_targets, put_wire_rule_name, put_word, read_targets, read_wire_action,
    read_wire_rule_name, read_wire_word,
};
use crate::list::{Part, put_list, wire_read_list};
use crate::reader::ByteReader;
use crate::writer::put_n4;
use policy_rules::{Partition, Rule, Rules};
use std::alloc::AllocError;
use switch_table::{PartRow, PartRows, Partitions, Tables};
use ternary::Word;

impl Part for Word {
    ghost format = { form.word };

    ghost needs = { λ _. Unit {0} };

    fn read(reader: &mut ByteReader) -> Result<Word, WireError> {
        read_wire_word(reader)
    }

    fn put(&self, out: &mut Vec<u8>) -> Result<(), AllocError> {
        put_word(out, self)
    }
}

impl Part for Rule {
    ghost format = { form.rule };

    ghost needs = { λ _. Unit {0} };

    fn read(reader: &mut ByteReader) -> Result<Rule, WireError> {
        Ok(Rule {
            word: read_wire_word(reader)?,
            rank: reader.n4()?,
            rule: read_wire_rule_name(reader)?,
            action: read_wire_action(reader)?,
        })
    }

    fn put(&self, out: &mut Vec<u8>) -> Result<(), AllocError> {
        put_word(out, &self.word)?;
        put_n4(out, self.rank)?;
        put_wire_rule_name(out, self.rule)?;
        put_action(out, self.action)
    }
}

impl Part for PartRow {
    ghost format = { form.region };

    ghost needs = { AreWireSwitchNumbers };

    fn read(reader: &mut ByteReader) -> Result<PartRow, WireError> {
        Ok(PartRow {
            region: read_wire_word(reader)?,
            targets: read_targets(reader)?,
        })
    }

    fn put(&self, out: &mut Vec<u8>) -> Result<(), AllocError> {
        put_word(out, &self.region)?;
        put_targets(out, &self.targets)
    }
}

impl Part for Partition {
    ghost format = { form.partition };

    ghost needs = { HasFewWireRules };

    fn read(reader: &mut ByteReader) -> Result<Partition, WireError> {
        Ok(Partition {
            number: reader.n4()?,
            region: read_wire_word(reader)?,
            rules: Rules::new(wire_read_list(reader)?)?,
        })
    }

    fn put(&self, out: &mut Vec<u8>) -> Result<(), AllocError> {
        put_n4(out, self.number)?;
        put_word(out, &self.region)?;
        put_list(self.rules.items(), out)
    }
}

pub(crate) fn read_wire_tables(reader: &mut ByteReader) -> Result<Tables, WireError>
    ensures { WireFormatReads form.tables reader.old result reader.new }
{
    let version = reader.n4()?;
    let parts = PartRows::new(wire_read_list(reader)?)?;
    let auth = Partitions::new(wire_read_list(reader)?)?;
    Ok(Tables {
        version,
        parts,
        auth,
    })
}

pub(crate) fn put_tables(out: &mut Vec<u8>, tables: &Tables) -> Result<(), AllocError>
    requires { AreWireShort tables.now }
    ensures { OnOk result (AppendsWireForm form.tables tables.now out.old.items out.new.items) }
{
    put_n4(out, tables.version)?;
    put_list(tables.parts.items(), out)?;
    put_list(tables.auth.items(), out)
}
