ghost use Rattle.std.specs.Prelude.{◌≡◌, [], length, map, IfOk};
ghost use Rattle.std.specs.List.{range_with_len};
ghost use Rattle.controller.specs.Exports.{ControllerPlanValue, controller_at_start};
ghost use Rattle.net_file.specs.Net.{IsNet};
ghost use Rattle.world_log.specs.Linking.{AreLogNearMasks};
ghost use Rattle.refinement.specs.Begun.{IsRefinedFirstController, refined_switch_begun};

use controller::Controller;
use failover::Database;
use journal::Journal;
use net_file::Net;
use std::alloc::{AllocError, Global};
use switch_core::Switch;

/// How many items a journal has room for from the beginning, so that a longer one is seldom moved.
const FIRST_ITEMS: usize = 16_384;

/// A journal in which nothing happened yet.
///
/// # Errors
/// Only out of memory.
pub fn first_journal(alloc: Global) -> Result<Journal, AllocError>
    ensures { IfOk result (λ journal. journal ≡ []) }
{
    let items = Vec::with_capacity(alloc, FIRST_ITEMS)?;
    Ok(Journal::from_items(items))
}

/// All switches in their first boot, each with the controller's tables of version 1, shared.
///
/// # Errors
/// Only out of memory.
#[tactic(auto, using(switch_core::proofs::SwitchLaws::own_first))]
pub fn first_world_switches(
    alloc: Global,
    net: &Net,
    controller: &Controller,
    near: &[u64; 64],
) -> Result<Vec<Switch>, AllocError>
    requires net { IsNet net.now }
    requires near { AreLogNearMasks net.now near.now }
    requires first { IsRefinedFirstController net.now controller.now }
    ensures { IfOk result (λ switches. (plan : ControllerPlanValue)
        → controller.now ≡ controller_at_start (length net.now.switches) plan
        → switches.items ≡ map (refined_switch_begun net.now plan.hosted)
        (range_with_len 0 (length net.now.switches))) }
{
    let count = net.switches.items().len();
    let mut switches = Vec::with_capacity(alloc, count)?;
    for number in 0..count {
        let tables = controller.tables(1, number as u32)?;
        let base = Database::begin(near, count as u32);
        switches.push(Switch::begin(alloc, number as u32, net.cache, tables, base)?)?;
    }
    Ok(switches)
}
