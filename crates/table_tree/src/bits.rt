ghost use Rattle.std.specs.Prelude.{ℕ, ◌≡◌, ◌<◌, ◌==◌, IfNone, IfSome};
ghost use Rattle.std.specs.Int.{bit_at};
ghost use Rattle.cut_tree.specs.Cuts.{IsCuttableBit};
ghost use Rattle.table_tree.specs.Cutting.{IsLowestLookupBit, LookupPassesNoFreeBit};
ghost use Rattle.table_tree.specs.Regions.{IsTableTreeCutBit, table_tree_all_fix, table_tree_some_fixes};

use crate::node::Candidate;
use cut_tree::free_bits_to_cut;
use ternary::{ALL_BITS, Word};

/// The bit that separates these regions, which overlap `region`: of its free bits the least one
/// that all of them fix, otherwise the least one that some of them fixes. `None` if none of them
/// fixes a free bit.
pub fn table_tree_cut_bit(candidates: &[Candidate], region: &Word) -> Option<u32>
    ensures some { IfSome result (λ bit. IsTableTreeCutBit candidates.now region.now bit) }
    ensures free { IfSome result (λ bit. IsCuttableBit region.now bit) }
    ensures none { IfNone result (LookupPassesNoFreeBit region.now (table_tree_some_fixes candidates.now)) }
{
    let free = free_bits_to_cut(region);
    match lowest(table_tree_fixed_bits(candidates) & free) {
        Some(bit) => Some(bit),
        None => lowest(table_tree_some_fixed_bits(candidates) & free),
    }
}

fn table_tree_fixed_bits(candidates: &[Candidate]) -> u128
    ensures { (bit : ℕ) → bit < 104 → (bit_at result bit == 1) ≡ table_tree_all_fix candidates.now bit }
{
    let mut bits = ALL_BITS;
    for candidate in candidates {
        bits &= candidate.region.mask();
    }
    bits
}

fn table_tree_some_fixed_bits(candidates: &[Candidate]) -> u128
    ensures { (bit : ℕ) → (bit_at result bit == 1) ≡ table_tree_some_fixes candidates.now bit }
{
    let mut bits = 0;
    for candidate in candidates {
        bits |= candidate.region.mask();
    }
    bits
}

// The lowest bit of the number; `None` for 0.
fn lowest(bits: u128) -> Option<u32>
    ensures some { IfSome result (λ bit. IsLowestLookupBit bits bit) }
    ensures none { IfNone result (bits ≡ 0) }
{
    if bits == 0 {
        None
    } else {
        Some(bits.trailing_zeros())
    }
}
