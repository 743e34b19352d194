//! The messages that the tests encode.
ghost use Rattle.std.specs.Prelude.{◌<◌, ◌^◌, length, IfOk};
ghost use Rattle.wire.specs.Messages.{HasWireSpelling};

use base::Shared;
use ctrl_msg::{Body, Message, Place, SharedTables};
use policy_rules::{Action, Partition, Rule, Rules};
use std::alloc::Global;
use std::test::Fail;
use switch_table::{PartRows, Partitions, Tables, Touched};
use ternary::Word;

pub fn collect() -> Message
    ensures { HasWireSpelling result }
{
    Message {
        to: Place::Switch(0),
        body: Body::Collect {
            boot: 1,
            version: 1,
        },
    }
}

/// A stamp whose change touches this many words.
pub fn stamp(alloc: Global, words: u32) -> Result<Message, Fail>
    ensures { IfOk result HasWireSpelling }
{
    let mut list = Vec::new(alloc);
    for _ in 0..words {
        list.push(Word::any())?;
    }
    let touched = Touched::new(list).ok_or("touched")?;
    Ok(Message {
        to: Place::Switch(0),
        body: Body::Stamp {
            boot: 1,
            version: 2,
            touched: Shared::new(alloc, touched)?,
        },
    })
}

pub fn hello() -> Message
    ensures { HasWireSpelling result }
{
    Message {
        to: Place::Controller,
        body: Body::Hello { switch: 0, boot: 2 },
    }
}

// Rules that drop: of no row, in 38 bytes each, and of a row, in 42 bytes each.
fn rules(alloc: Global, defaults: u32, rows: u32) -> Result<Vec<Rule>, Fail>
    ensures { IfOk result (λ rules. length rules.items < 2 ^ 32) }
{
    let mut rules = Vec::new(alloc);
    for rank in 0..defaults {
        rules.push(Rule {
            word: Word::any(),
            rank,
            rule: None,
            action: Action::Drop,
        })?;
    }
    for rank in 0..rows {
        rules.push(Rule {
            word: Word::any(),
            rank,
            rule: Some(rank),
            action: Action::Drop,
        })?;
    }
    if rules.len() >= 1 << 20 {
        return Err(Fail::from("too many rules"));
    }
    Ok(rules)
}

/// An installation of one partition: its tables take 52 bytes, and 38 or 42 for each rule.
pub fn install(alloc: Global, defaults: u32, rows: u32) -> Result<Message, Fail>
    ensures { IfOk result HasWireSpelling }
{
    let part = Partition {
        number: 0,
        region: Word::any(),
        rules: Rules::new(rules(alloc, defaults, rows)?)?,
    };
    let mut auth = Vec::new(alloc);
    auth.push(part)?;
    let tables = Tables {
        version: 1,
        parts: PartRows::new(Vec::new(alloc))?,
        auth: Partitions::new(auth)?,
    };
    let tables = SharedTables::new(alloc, tables)?;
    Ok(Message {
        to: Place::Switch(1),
        body: Body::Install { boot: 1, tables },
    })
}
