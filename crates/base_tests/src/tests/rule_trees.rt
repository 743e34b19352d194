//! The tree of forty rules, compared with a search through the list.
ghost use Rattle.std.specs.Prelude.{◌<◌, ◌^◌, IfOk, length};

use crate::packets::web_header;
use policy_rules::{Action, Rule, first_hit};
use std::alloc::Global;
use std::test::Fail;
use table_tree::{BitTree, RuleTree};
use ternary::{Word, any_laws};

// The rules of the destinations 10.0.0.0/16 to 10.38.0.0/16, and one of all headers.
fn rules(alloc: Global) -> Result<Vec<Rule>, Fail>
    ensures { IfOk result (λ rules. length rules.items < 2 ^ 32) }
{
    let mut rules = Vec::new(alloc);
    for k in 0..39u32 {
        let dst = u128::from(0x0a000000 + (k << 16));
        let word = Word::new(dst << 40, 0xffff0000 << 40).ok_or("word")?;
        rules.push(rule(word, Action::Drop))?;
    }
    rules.push(rule(Word::any(), Action::Out(2)))?;
    Ok(rules)
}

fn rule(word: Word, action: Action) -> Rule {
    Rule {
        word,
        rank: 7,
        rule: None,
        action,
    }
}

#[test]
fn a_tree_finds_what_a_search_finds(rt: HostRuntime) -> Result<(), Fail> {
    any_laws();
    let alloc = rt.alloc();
    let rules = rules(alloc)?;
    let tree = RuleTree::build(alloc, &rules, &Word::any())?;
    assert!(rt; matches!(&tree.root, BitTree::Cut { .. }));
    for dst in [0x0a000001, 0x0a030201, 0x0a260000, 0x0a270000, 0x0b000000] {
        let header = web_header(1, dst);
        assert!(rt; tree.first(&rules, &header) == first_hit(&rules, &header));
    }
    Ok(())
}

#[test]
fn few_rules_are_not_cut(rt: HostRuntime) -> Result<(), Fail> {
    any_laws();
    let alloc = rt.alloc();
    let rules = [rule(Word::any(), Action::Drop)];
    let tree = RuleTree::build(alloc, &rules, &Word::any())?;
    assert!(rt; matches!(&tree.root, BitTree::End(_)));
    assert!(rt; tree.first(&rules, &web_header(1, 1)) == Some(0));
    Ok(())
}
