//! Placement of partitions on authority switches: each is put on the switches of least load that
//! have room for it.
//!
//! `place` returns the placement that a relation on loads defines, without an order of work, or the
//! first partition that finds too few switches. `placement_laws` says that there is at most one
//! such placement, and that the function that definitions of plans use returns it.
//!
//! `Load::take_turns` does the same for loads by any keys, on all targets or only on the first.
#![tactic(auto)]

mod turns;

ghost use Rattle.std.specs.Prelude.{ℕ, ◌≡◌, ◌<◌, ◌≤◌, ◌^◌, Ok, Err, List, length, IfOk, IfErr};
ghost use Rattle.base.specs.Refusals.{IfRefused};
ghost use Rattle.placement.specs.Placement.{IsPlacement, PlacementLacksRoom, MeetsPlacement, RefusesPlacement, placement_of};

use base::Failure;
use policy_rules::Targets;
use std::alloc::Global;
use thiserror::Error;
pub use turns::{Load, widened};

/// Why partitions have no placement: too few switches have room for this one, counted from 0. It
/// is the first such one, by falling size and then by number.
#[derive(Clone, Copy, Debug, PartialEq, Eq, Error)]
#[error("too few switches have room for partition {partition}")]
pub struct NoRoom {
    pub partition: u32,
}

/// The targets of partitions of these `sizes` on switches of these `rooms`, both in rules: for each
/// partition an authority switch and this many backups.
///
/// Partitions come by falling size, then by number. Each is put on the switches of least load, and
/// then of least number, among those that have room for it besides the partitions that they have.
///
/// # Errors
/// `NoRoom` with the first partition, by falling size and then by number, that finds fewer switches
/// than it needs; or out of memory.
pub fn place(
    alloc: Global,
    sizes: &[u32],
    rooms: &[u32],
    backups: u32,
) -> Result<Vec<Targets>, Failure<NoRoom>>
    requires partitions { length sizes.now < 2 ^ 32 }
    requires switches { length rooms.now ≤ 64 }
    requires backups { backups ≤ 3 }
    ensures placement { IfOk result (λ targets.
        IsPlacement sizes.now rooms.now backups targets.items) }
    ensures value { IfOk result (λ targets.
        placement_of sizes.now rooms.now backups ≡ Ok targets.items) }
    ensures refused { IfErr result (IfRefused
        (RefusesPlacement sizes.now rooms.now backups)) }
{
    let wide = widened(alloc, sizes)?;
    Load::OnAll.take_turns(alloc, &wide, &wide, rooms, backups)
}

/// The defined placement: it meets the relation on loads, or names the partition that is refused,
/// and nothing else does. A law about the definitions only.
pub fn placement_laws()
    ensures meets { (sizes rooms : List ℕ) (backups : ℕ) →
        MeetsPlacement sizes rooms backups (placement_of sizes rooms backups) }
    ensures one { (sizes rooms : List ℕ) (backups : ℕ) (placement : List (List ℕ)) →
        IsPlacement sizes rooms backups placement →
        placement_of sizes rooms backups ≡ Ok placement }
    ensures refused { (sizes rooms : List ℕ) (backups partition : ℕ) →
        PlacementLacksRoom sizes rooms backups partition → placement_of sizes rooms backups ≡ Err partition }
{}
