ghost use Rattle.std.specs.Prelude.{◌≡◌, ◌<◌, ◌^◌, All, IfOk, length, map};
ghost use Rattle.table_tree.specs.Finding.{AreTableTreesOf};
ghost use Rattle.table_tree.specs.Ruling.{part_lookup_tree, table_tree_seen};

use crate::bit_tree::BitTree;
use crate::node::PartNode;
use crate::rule_tree::RuleTree;
use crate::tree;
use policy_rules::Partition;
use std::alloc::{AllocError, Global};
use switch_table::PartRow;

/// Trees for the tables of a switch, whatever their version: one over their partition rules, and
/// one over the rules of each authority partition.
#[derive(Debug, Drop)]
pub struct TableTrees {
    pub tree: BitTree<u32>,
    pub rule_trees: Vec<RuleTree>,
}

impl TableTrees {
    /// The trees for tables with these partition rules and authority partitions. The tables needn't
    /// be sound; `Finder::of` requires it.
    ///
    /// # Errors
    /// Only out of memory.
    pub fn grow(
        alloc: Global,
        parts: &[PartRow],
        auth: &[Partition],
    ) -> Result<TableTrees, AllocError>
        requires parts { length parts.now < 2 ^ 32 }
        requires auth { All (λ part. length part.rules < 2 ^ 32) auth.now }
        ensures { IfOk result (AreTableTreesOf parts.now auth.now) }
    {
        let root = PartNode::root(alloc, parts)?;
        let tree = tree::grow(alloc, root)?;
        let rule_trees = rule_trees(alloc, auth)?;
        Ok(TableTrees { tree, rule_trees })
    }
}

// The tree of each partition's rules.
fn rule_trees(alloc: Global, parts: &[Partition]) -> Result<Vec<RuleTree>, AllocError>
    requires { All (λ part. length part.rules < 2 ^ 32) parts.now }
    ensures { IfOk result (λ trees. map table_tree_seen trees.items ≡ map part_lookup_tree parts.now) }
{
    let mut trees = Vec::with_capacity(alloc, parts.len())?;
    for part in parts {
        trees.push(RuleTree::build(alloc, part.rules.items(), &part.region)?)?;
    }
    Ok(trees)
}
