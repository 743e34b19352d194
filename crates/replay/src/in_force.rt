//! The plan that is in force after a play.
ghost use Rattle.std.specs.Prelude.{◌≡◌, false, IfOk};
ghost use Rattle.replay.specs.InForce.{IsReplayPlanInForce};
ghost use Rattle.world.specs.State.{world_setting_at};

use control_laws::{marks_are_bounded, versions_are_planned};
use controller::Plan;
use std::alloc::AllocError;
use world::World;

/// The plan of the current version, shared.
///
/// # Errors
/// Only out of memory.
pub fn replay_plan_in_force(world: &World) -> Result<Plan, AllocError>
    requires { world.now.is_spent ≡ false }
    ensures { IfOk result (IsReplayPlanInForce (world_setting_at world.now) world.now.journal) }
{
    world.refines();
    marks_are_bounded();
    versions_are_planned();
    let plan = world.controller().current_plan().clone()?;
    Ok(plan)
}
