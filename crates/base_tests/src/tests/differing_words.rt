//! The words of cache rules, computed by differing bits, compared with those of their definition.
ghost use Rattle.std.specs.Prelude.{◌<◌, length};

use crate::packets::web_header;
use cache_maker::widen;
use five_tuple::Header;
use policy_rules::{Action, Rule, first_hit};
use std::test::Fail;
use ternary::{Word, any_laws};

// The definition, bit by bit: each freed word is tried on the region and on the rules.
fn plain_widen(h: &Header, rules: &[Rule], index: usize) -> Word
    requires { index < length rules.now }
{
    let mut word = Word::exact(h.number());
    for bit in 0..104 {
        let freed = word.free(bit);
        if rules[index].word.covers(&freed) && meets_none(&freed, &rules[..index]) {
            word = freed;
        }
    }
    word
}

fn meets_none(word: &Word, rules: &[Rule]) -> bool {
    rules.iter().all(|rule| word.meet(&rule.word).is_none())
}

fn rule(value: u128, mask: u128) -> Option<Rule> {
    Some(Rule {
        word: Word::new(value, mask)?,
        rank: 0,
        rule: None,
        action: Action::Drop,
    })
}

// TCP to 10.1.0.0/16, port 80; to 10.1.2.0/24; from 1.0.0.0/8 to 10.0.0.0/8; TCP; all.
fn rules() -> Option<[Rule; 5]> {
    Some([
        rule(
            0x00000000_0a010000_0000_0050_06,
            0x00000000_ffff0000_0000_ffff_ff,
        )?,
        rule(
            0x00000000_0a010200_0000_0000_00,
            0x00000000_ffffff00_0000_0000_00,
        )?,
        rule(
            0x01000000_0a000000_0000_0000_00,
            0xff000000_ff000000_0000_0000_00,
        )?,
        rule(
            0x00000000_00000000_0000_0000_06,
            0x00000000_00000000_0000_0000_ff,
        )?,
        rule(0, 0)?,
    ])
}

#[test]
fn words_are_those_of_the_definition(rt: HostRuntime) -> Result<(), Fail> {
    any_laws();
    let rules = rules().ok_or("words")?;
    for src in [0x01020304, 0x02030405] {
        for dst in [0x0a010203, 0x0a010303, 0x0a020001, 0x0b000001] {
            let header = web_header(src, dst);
            let place = first_hit(&rules, &header).ok_or("no rule")?;
            assert!(rt;
                widen(&header, &Word::any(), &rules, place as u32)
                    == plain_widen(&header, &rules, place)
            );
        }
    }
    Ok(())
}
