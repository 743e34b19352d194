ghost use Rattle.std.specs.Prelude.{◌≡◌, ◌^◌, ◌<◌, IfOk, filter, length};
ghost use Rattle.ternary.specs.Meets.{any_word, word_fix_of, word_meets};
ghost use Rattle.cut_tree.specs.Cuts.{IsCuttableBit};
ghost use Rattle.table_tree.specs.Regions.{AreTableTreeRegions, table_tree_candidate_meets, table_tree_side_candidates, table_tree_candidates_of};

use std::alloc::{AllocError, Global};
use switch_table::PartRow;
use ternary::Word;

/// A place of the partition rules, from 0, and the region there.
#[derive(Clone, Copy)]
pub struct Candidate {
    pub place: u32,
    pub region: Word,
}

/// A region of the header space, and the regions of partition rules that meet it.
#[derive(Drop)]
pub struct PartNode {
    pub candidates: Vec<Candidate>,
    pub region: Word,
}

impl PartNode {
    /// The whole header space, with the regions of all rows.
    ///
    /// # Errors
    /// Only out of memory.
    pub fn root(alloc: Global, rows: &[PartRow]) -> Result<PartNode, AllocError>
        requires { length rows.now < 2 ^ 32 }
        ensures candidates { IfOk result (λ node. node.candidates.items ≡ table_tree_candidates_of rows.now) }
        ensures region { IfOk result (λ node. node.region ≡ any_word) }
        ensures words { IfOk result (λ node. AreTableTreeRegions node.candidates.items) }
    {
        let candidates = numbered(alloc, rows)?;
        Ok(PartNode {
            candidates,
            region: Word::any(),
        })
    }

    /// The half of this node in which the bit is 1 if `one` is true, otherwise 0.
    ///
    /// # Errors
    /// Only out of memory.
    pub fn half(&self, alloc: Global, bit: u32, one: bool) -> Result<PartNode, AllocError>
        requires { IsCuttableBit self.now.region bit }
        ensures candidates { IfOk result (λ half.
            half.candidates.items ≡ table_tree_side_candidates self.now.candidates.items self.now.region bit
            one) }
        ensures region { IfOk result (λ half. half.region ≡ word_fix_of self.now.region bit one) }
    {
        let region = self.region.fix(bit, one);
        let candidates = table_tree_candidates_meeting(alloc, &self.candidates, &region)?;
        Ok(PartNode { candidates, region })
    }
}

// The regions of the rows, each with its place.
fn numbered(alloc: Global, rows: &[PartRow]) -> Result<Vec<Candidate>, AllocError>
    requires { length rows.now < 2 ^ 32 }
    ensures candidates { IfOk result (λ candidates. candidates.items ≡ table_tree_candidates_of rows.now) }
    ensures words { IfOk result (λ candidates. AreTableTreeRegions candidates.items) }
{
    let mut candidates = Vec::with_capacity(alloc, rows.len())?;
    for row in rows {
        let place = candidates.len() as u32;
        // For the proof: reading the mask yields the invariant `IsWord`.
        let _ = row.region.mask();
        candidates.push(Candidate {
            place,
            region: row.region,
        })?;
    }
    Ok(candidates)
}

// The candidates whose regions meet this one.
#[tactic(auto, using(crate::proofs::TableTreeNodes::kept_same))]
fn table_tree_candidates_meeting(
    alloc: Global,
    candidates: &[Candidate],
    region: &Word,
) -> Result<Vec<Candidate>, AllocError>
    ensures { IfOk result (λ kept. kept.items ≡ filter (table_tree_candidate_meets region.now)
        candidates.now) }
{
    let mut kept = Vec::with_capacity(alloc, candidates.len())?;
    for candidate in candidates {
        if !candidate.region.meets(region) {
            continue;
        }
        kept.push(*candidate)?;
    }
    Ok(kept)
}
