ghost use Rattle.std.specs.Prelude.{ℕ, ◌≡◌, ◌+◌, ◌<◌, ◌^◌, ◌++◌, All, IfOk, OnOk, IsTrue, List, Some, count_by, find, length, option_map};
ghost use Rattle.policy_rules.specs.Exports.{AreSoundPolicyPartitions, IsPolicy, LastPolicyRuleCovers, is_in_policy_partition, policy_rules_of};
ghost use Rattle.policy_rules.specs.declared.policy.Row.{Row};
ghost use Rattle.policy_rules.specs.declared.rules.Rule.{Rule};
ghost use Rattle.cut_tree.specs.DefinedTree.{IsDefinedCutTree};
ghost use Rattle.cut_tree.specs.Shape.{cut_leaf_count, cut_leaves_of, cut_tree_shape_of};
ghost use Rattle.partition.specs.Parts.{PartitionsDecideAs, partitions_from, partitions_of_cut_tree};

use cut_tree::Tree;
use five_tuple::Header;
use policy_rules::Partition;
use std::alloc::{AllocError, Global};

/// The partitions of a tree: its leaves, low side before high side, numbered from 0.
///
/// Those of the tree of a list of rules decide each header as the list does, and those of a
/// policy's rules as its first match does; the last rule of each of these covers its region.
///
/// # Errors
/// Only out of memory.
pub fn list(alloc: Global, tree: &Tree) -> Result<Vec<Partition>, AllocError>
    requires { cut_leaf_count (cut_tree_shape_of tree.now) < 2 ^ 32 }
    ensures parts { IfOk result (λ parts. parts.items ≡ partitions_of_cut_tree (cut_tree_shape_of tree.now)) }
    ensures count { IfOk result (λ parts. length parts.items ≡ cut_leaf_count (cut_tree_shape_of tree.now)) }
    ensures decide { IfOk result (λ parts. (rules : List Rule) (cap : ℕ) →
        IsDefinedCutTree rules cap (cut_tree_shape_of tree.now) → PartitionsDecideAs rules parts.items) }
    ensures sound { IfOk result (λ parts. (rows : List Row) (cap : ℕ) →
        IsPolicy rows → IsDefinedCutTree (policy_rules_of rows) cap (cut_tree_shape_of tree.now) →
        AreSoundPolicyPartitions rows parts.items) }
    ensures ended { IfOk result (λ parts. (rows : List Row) (cap : ℕ) →
        IsPolicy rows → IsDefinedCutTree (policy_rules_of rows) cap (cut_tree_shape_of tree.now) →
        All LastPolicyRuleCovers parts.items) }
{
    let mut parts = Vec::new(alloc);
    push_leaves(tree, &mut parts)?;
    Ok(parts)
}

fn push_leaves(tree: &Tree, parts: &mut Vec<Partition>) -> Result<(), AllocError>
    requires { length parts.old.items + cut_leaf_count (cut_tree_shape_of tree.now) < 2 ^ 32 }
    ensures { OnOk result (parts.new.items ≡ parts.old.items
        ++ partitions_from (length parts.old.items) (cut_leaves_of (cut_tree_shape_of tree.now))) }
{
    match tree {
        Tree::Leaf { region, rules } => {
            let number = parts.len() as u32;
            let rules = rules.clone()?;
            parts.push(Partition {
                number,
                region: *region,
                rules,
            })?;
            Ok(())
        }
        Tree::Cut { low, high, .. } => {
            push_leaves(low, parts)?;
            push_leaves(high, parts)?;
            Ok(())
        }
    }
}

/// The number of the one partition whose region holds the header.
pub fn find(parts: &[Partition], header: &Header) -> u32
    requires { count_by (is_in_policy_partition header.now) parts.now ≡ 1 }
    ensures there { option_map (λ part. part.number)
        (find (is_in_policy_partition header.now) parts.now) ≡ Some result }
    ensures alone { All (λ part. IsTrue (is_in_policy_partition header.now part) → part.number ≡ result) parts.now }
{
    let number = header.number();
    for part in parts {
        if part.region.holds(number) {
            return part.number;
        }
    }
    unreachable!()
}
