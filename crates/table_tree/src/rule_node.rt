ghost use Rattle.std.specs.Prelude.{◌≡◌, ◌<◌, IfOk, IfSome, map};
ghost use Rattle.policy_rules.specs.declared.rules.Rule.{Rule};
ghost use Rattle.cut_tree.specs.Cuts.{IsCuttableBit};
ghost use Rattle.table_tree.specs.Ruling.{table_tree_paying_cut, table_tree_rule_shape, table_rule_tree_within};

use crate::bit_tree::{BitTree, HeaderBit};
use cut_tree::{Cost, Node};
use policy_rules::Rule;
use std::alloc::{AllocError, Global};

/// The most rules of a node that is not cut.
const FEW_RULES: usize = 16;

/// The tree of a node, with at most this many cuts on a path.
///
/// # Errors
/// Only out of memory.
pub fn grow(alloc: Global, node: Node, cuts: u32) -> Result<BitTree<Vec<u32>>, AllocError>
    ensures { IfOk result (λ tree.
        table_tree_rule_shape tree ≡ table_rule_tree_within cuts node.rules.items node.region) }
{
    let Some(cost) = table_tree_paying_cut(&node, cuts) else {
        let places = table_tree_rule_places(alloc, &node.rules)?;
        return Ok(BitTree::End(places));
    };
    let low = node.half(alloc, cost.bit, false)?;
    let high = node.half(alloc, cost.bit, true)?;
    // Only the lists of the halves are kept on the way down.
    drop(node);
    let low = grow(alloc, low, cuts - 1)?;
    let high = grow(alloc, high, cuts - 1)?;
    Ok(BitTree::Cut {
        bit: HeaderBit::new(cost.bit),
        low: Box::new(alloc, low)?,
        high: Box::new(alloc, high)?,
    })
}

// The least cut of the node, if any cuts are left and this one pays.
#[tactic(auto, using(crate::proofs::TableTreeRules::none_left, crate::proofs::TableTreeRules::few_stay, crate::proofs::TableTreeRules::large_stays, crate::proofs::TableTreeRules::spread_stays, crate::proofs::TableTreeRules::cut_pays))]
fn table_tree_paying_cut(node: &Node, cuts: u32) -> Option<Cost>
    ensures cut { result ≡ table_tree_paying_cut cuts node.now.rules.items node.now.region }
    ensures free { IfSome result (λ cost. IsCuttableBit node.now.region cost.bit) }
    ensures left { IfSome result (λ cost. 0 < cuts) }
{
    let count = node.rules.len();
    if cuts == 0 {
        return None;
    }
    if count <= FEW_RULES {
        return None;
    }
    let cost = node.least_cut();
    if cost.larger as usize >= count {
        return None;
    }
    if 4 * u128::from(cost.sum) > 5 * count as u128 {
        return None;
    }
    Some(cost)
}

// The places that the rules have as their ranks.
fn table_tree_rule_places(alloc: Global, rules: &[Rule]) -> Result<Vec<u32>, AllocError>
    ensures { IfOk result (λ places. places.items ≡ map (λ (rule : Rule). rule.rank) rules.now) }
{
    let mut places = Vec::with_capacity(alloc, rules.len())?;
    for rule in rules {
        places.push(rule.rank)?;
    }
    Ok(places)
}
