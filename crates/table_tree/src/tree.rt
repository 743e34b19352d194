ghost use Rattle.std.specs.Prelude.{IfOk};
ghost use Rattle.table_tree.specs.Finding.{IsGrownTableTree, table_tree_candidate_shape};

use crate::bit_tree::{BitTree, HeaderBit};
use crate::bits::table_tree_cut_bit;
use crate::node::PartNode;
use std::alloc::{AllocError, Global};

/// The tree of the regions of a node. A node that has several, or none, and can't be cut gets an
/// end at place 0: the tree of sound tables has no such node.
///
/// # Errors
/// Only out of memory.
#[tactic(auto, using(crate::proofs::TableTreeNodes::half_smaller, crate::proofs::TableTreeFinder::end_is))]
pub fn grow(alloc: Global, node: PartNode) -> Result<BitTree<u32>, AllocError>
    ensures { IfOk result (λ tree. IsGrownTableTree node.candidates.items node.region
        (table_tree_candidate_shape tree)) }
{
    if node.candidates.len() == 1 {
        let place = node.candidates[0].place;
        return Ok(BitTree::End(place));
    }
    let Some(bit) = table_tree_cut_bit(&node.candidates, &node.region) else {
        return Ok(BitTree::End(0));
    };
    let low = node.half(alloc, bit, false)?;
    let high = node.half(alloc, bit, true)?;
    // Only the lists of the halves are kept on the way down.
    drop(node);
    let low = grow(alloc, low)?;
    let high = grow(alloc, high)?;
    Ok(BitTree::Cut {
        bit: HeaderBit::new(bit),
        low: Box::new(alloc, low)?,
        high: Box::new(alloc, high)?,
    })
}
