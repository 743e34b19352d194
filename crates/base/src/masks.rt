//! Sets of numbers below 64, such as switches or ports, kept as the bits of a number.
//!
//! ```text
//! let ends = with(only_if(true, 3), 5); // 0b101000
//! has(ends, 5) // true
//! ```
ghost use Rattle.std.specs.Prelude.{◌≡◌, ◌<◌, ◌^◌, ◌==◌, bit_or};
ghost use Rattle.std.specs.Int.{bit_at};
ghost use Rattle.base.specs.Masks.{has};
ghost use Rattle.base.specs.ComputedMasks.{only_if};
ghost use Rattle.base.specs.MaskLaws.{SmallNumberMaskLaws};

/// Whether the set has this number.
#[tactic(auto, using(std::proofs::lemmas::Nat::Bits::shr_and_one), unfolding(crate::specs::Masks::has))]
pub fn has(mask: u64, k: u32) -> bool
    requires { k < 64 }
    ensures has { result ≡ has mask k }
    ensures bit { result ≡ (bit_at mask k == 1) }
{
    (mask >> k) & 1 == 1
}

/// The set of this number if the test is true, otherwise the empty set.
#[tactic(auto, using(std::proofs::lemmas::Nat::one_shl))]
pub fn only_if(test: bool, k: u32) -> u64
    requires { k < 64 }
    ensures { result ≡ only_if test k }
{
    if test { 1 << k } else { 0 }
}

/// The set with this number added.
pub fn with(mask: u64, k: u32) -> u64
    requires { k < 64 }
    ensures bits { result ≡ bit_or mask (2 ^ k) }
    ensures small { result < 2 ^ 64 }
{
    mask | 1 << k
}

/// The mask of a test has exactly the numbers below 64 that pass it, and no other mask has them.
pub fn small_number_mask_laws()
    ensures { SmallNumberMaskLaws }
{}
