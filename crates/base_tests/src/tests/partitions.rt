//! The tree and the partitions of few rules. Those of rules that span a cut are among the worked
//! rows of the program.
use crate::packets::web_header;
use cut_tree::{Tree, build};
use partition::{find, list};
use policy_rules::{Policy, to_rules};
use std::alloc::Global;
use std::test::Fail;
use ternary::Word;

// Whether the tree is a leaf of all headers without rules.
fn is_leaf(tree: &Tree) -> bool {
    match tree {
        Tree::Leaf { region, rules } => *region == Word::any() && rules.items().is_empty(),
        _ => false,
    }
}

#[test]
fn no_rules_make_a_leaf(rt: HostRuntime) -> Result<(), Fail> {
    assert!(rt; is_leaf(&build(rt.alloc(), &[], 1)?));
    Ok(())
}

// The partition of a header of a policy without rows.
fn found(alloc: Global) -> Result<u32, Fail> {
    let policy = Policy::new(alloc, Vec::new(alloc))?;
    let rules = to_rules(alloc, &policy)?;
    let parts = list(alloc, &build(alloc, &rules, 1)?)?;
    Ok(find(&parts, &web_header(0x0102_0304, 0x0a02_0001)))
}

#[test]
fn finds_the_partition_of_a_header(rt: HostRuntime) -> Result<(), Fail> {
    assert!(rt; found(rt.alloc())? == 0);
    Ok(())
}
