ghost use Rattle.std.specs.Prelude.{◌≡◌, ◌+◌, ◌<◌, ◌≤◌, ◌^◌, IfOk, IfErr, length};
ghost use Rattle.cut_tree.specs.DefinedTree.{IsDefinedCutTree, IsCutTreeOf, cut_tree_at, cut_tree_of};
ghost use Rattle.cut_tree.specs.Nodes.{AreCutRuleWords};
ghost use Rattle.cut_tree.specs.Shape.{End, cut_leaf_count, cut_tree_shape_of};
ghost use Rattle.base.specs.Refusals.{IfRefused};

use crate::node::Node;
use base::Failure;
use policy_rules::{Rule, Rules};
use std::alloc::{AllocError, Global};
use ternary::Word;
use thiserror::Error;

/// The most leaves that a tree may have.
const MAX_LEAVES: u32 = 512;

/// A decision tree over the header space. It cuts at one bit after another; each leaf has the rules
/// that decide the headers of its region.
#[derive(Debug, Drop)]
pub enum Tree {
    Leaf {
        region: Word,
        rules: Rules,
    },
    /// The headers with a 0 at the bit are on the low side, those with a 1 on the high side.
    Cut {
        bit: u32,
        low: Box<Tree>,
        high: Box<Tree>,
    },
}

/// Why rules have no tree.
#[derive(Clone, Copy, Debug, PartialEq, Eq, Error)]
#[error("the tree has more than {MAX_LEAVES} leaves")]
pub struct TooManyLeaves;

/// The tree of these rules: its root has them all, each side of a cut those of its half, and no
/// leaf has more than the cap.
///
/// # Errors
/// `TooManyLeaves` exactly if that tree has more than 512 leaves; then building stops at the
/// first leaf too many. Otherwise only out of memory.
pub fn build(alloc: Global, rules: &[Rule], cap: u32) -> Result<Tree, Failure<TooManyLeaves>>
    requires cap { 0 < cap }
    requires few_rules { length rules.now < 2 ^ 32 }
    requires words { AreCutRuleWords rules.now }
    ensures tree { IfOk result (λ tree. cut_tree_shape_of tree ≡ cut_tree_of rules.now cap) }
    ensures defined { IfOk result (λ tree. IsDefinedCutTree rules.now cap (cut_tree_shape_of tree)) }
    ensures few { IfOk result (λ tree. cut_leaf_count (cut_tree_shape_of tree) ≤ 512) }
    ensures refused { IfErr result (IfRefused (λ _. 512 < cut_leaf_count (cut_tree_of rules.now cap))) }
{
    let root = Node {
        rules: Vec::from_slice(alloc, rules)?,
        region: Word::any(),
    };
    let mut room = MAX_LEAVES;
    grow(alloc, root, cap, &mut room)
}

// The tree of the rules of a node. Each leaf takes 1 from `room`; refused if there is no room.
fn grow(alloc: Global, node: Node, cap: u32, room: &mut u32) -> Result<Tree, Failure<TooManyLeaves>>
    requires cap { 0 < cap }
    ensures tree { IfOk result (λ tree. cut_tree_shape_of tree ≡ cut_tree_at cap node.rules.items node.region) }
    ensures defined { IfOk result (λ tree.
        IsCutTreeOf node.rules.items node.region cap (cut_tree_shape_of tree)) }
    ensures room { IfOk result (λ tree. room.old ≡ room.new + cut_leaf_count (cut_tree_shape_of tree)) }
    ensures refused { IfErr result (IfRefused (λ _.
        room.old < cut_leaf_count (cut_tree_at cap node.rules.items node.region))) }
{
    if node.rules.len() <= cap as usize {
        return leaf(node, room);
    }
    let bit = node.least_cut().bit;
    let low = node.half(alloc, bit, false)?;
    let high = node.half(alloc, bit, true)?;
    // Only the lists of the halves are kept on the way down.
    drop(node);
    let low = grow(alloc, low, cap, room)?;
    let high = grow(alloc, high, cap, room)?;
    Ok(Tree::Cut {
        bit,
        low: Box::new(alloc, low)?,
        high: Box::new(alloc, high)?,
    })
}

fn leaf(node: Node, room: &mut u32) -> Result<Tree, Failure<TooManyLeaves>>
    ensures tree { IfOk result (λ tree. cut_tree_shape_of tree ≡ End node.region node.rules.items) }
    ensures room { IfOk result (λ _. room.old ≡ room.new + 1) }
    ensures refused { IfErr result (IfRefused (λ _. room.old < 1)) }
{
    if *room == 0 {
        return Err(Failure::Refused(TooManyLeaves));
    }
    *room -= 1;
    let Node { rules, region } = node;
    let rules = Rules::new(rules)?;
    Ok(Tree::Leaf { region, rules })
}
