ghost use Rattle.std.specs.Prelude.{◌≡◌, ◌<◌, ◌≤◌, ◌^◌, length, sum, IfOk, IfErr};
ghost use Rattle.base.specs.Refusals.{IfRefused};
ghost use Rattle.rebalance.specs.Spread.{RebalanceSpreadFindsFewer, IsRebalanceSpread};

use base::Failure;
use placement::{Load, NoRoom, widened};
use policy_rules::Targets;
use std::alloc::Global;

/// The targets of partitions of these sizes, in rules, and of these weights, on switches of these
/// rooms, in rules: for each partition an authority switch and this many backups.
///
/// Partitions take turns by falling weight, then by number. Each gets the switches of least
/// traffic, and then of least number, among those that have room for it besides the partitions that
/// they have. The traffic of its first target rises by its weight.
///
/// # Errors
/// `NoRoom` with the first partition in that order that finds fewer switches with room than it
/// needs; or out of memory.
pub fn spread(
    alloc: Global,
    sizes: &[u32],
    weights: &[u64],
    rooms: &[u32],
    backups: u32,
) -> Result<Vec<Targets>, Failure<NoRoom>>
    requires each { length sizes.now ≡ length weights.now }
    requires partitions { length weights.now < 2 ^ 32 }
    requires switches { length rooms.now ≤ 64 }
    requires backups { backups ≤ 3 }
    requires small { sum weights.now < 2 ^ 64 }
    ensures spread { IfOk result (λ targets.
        IsRebalanceSpread sizes.now weights.now rooms.now backups targets.items) }
    ensures refused { IfErr result (IfRefused (λ lack.
        RebalanceSpreadFindsFewer sizes.now weights.now rooms.now backups lack.partition)) }
{
    let wide = widened(alloc, sizes)?;
    Load::OnFirst.take_turns(alloc, weights, &wide, rooms, backups)
}
