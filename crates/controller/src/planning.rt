ghost use Rattle.std.specs.Prelude.{◌≡◌, ◌^◌, ◌<◌, length, All, Ok, IfOk, IfErr};
ghost use Rattle.net_file.specs.Net.{IsNet};
ghost use Rattle.partition.specs.Plan.{IsPartitionPlan, partition_plan_of, partition_switch_rooms_of, partition_sizes_of};
ghost use Rattle.controller.specs.Leads.{ControllerPlanLeadsEveryHeader};
ghost use Rattle.controller.specs.Plan.{ControllerRefusesPlan};

use crate::plan::Plan;
use crate::plan_error::PlanError;
use cut_tree::build;
use net_file::Net;
use partition::{list, partition_plan_laws};
use placement::place;
use policy_rules::{Partition, Policy, to_rules};
use std::alloc::{AllocError, Global};

/// The plan of a policy on a network: the partitions of its tree, whose cap is the network's
/// `leaf_rules`, hosted by the switches. From each switch its tables lead each header to the
/// policy's first match.
///
/// # Errors
/// `TooManyWords` if its rows have more than 4,096 words; otherwise `TooManyLeaves` if
/// its tree has more than 512 leaves; otherwise `NoRoom` with the first partition, by falling size
/// and then by number, that finds too few switches.
pub fn compile(alloc: Global, policy: &Policy, net: &Net) -> Result<Plan, PlanError>
    requires { IsNet net.now }
    ensures plan { IfOk result (λ plan. partition_plan_of policy.now net.now ≡ Ok plan.hosted) }
    ensures parts { IfOk result (λ plan. IsPartitionPlan policy.now net.now plan.hosted) }
    ensures leads { IfOk result (λ plan. ControllerPlanLeadsEveryHeader policy.now plan.hosted) }
    ensures policy { IfOk result (λ plan. plan.policy ≡ policy.now) }
    ensures refused { IfErr result (ControllerRefusesPlan policy.now net.now) }
{
    partition_plan_laws();
    let rules = to_rules(alloc, policy)?;
    let tree = build(alloc, &rules, net.leaf_rules)?;
    let parts = list(alloc, &tree)?;
    let sizes = sizes_of(alloc, &parts)?;
    let rooms = rooms_of(alloc, net)?;
    let targets = place(alloc, &sizes, &rooms, net.backups)?;
    let policy = policy.clone()?;
    let plan = Plan::new(alloc, policy, parts, &targets)?;
    Ok(plan)
}

/// How many rules each partition has.
///
/// # Errors
/// Only out of memory.
pub fn sizes_of(alloc: Global, parts: &[Partition]) -> Result<Vec<u32>, AllocError>
    requires { All (λ part. length part.rules < 2 ^ 32) parts.now }
    ensures { IfOk result (λ sizes. sizes.items ≡ partition_sizes_of parts.now) }
{
    let mut sizes = Vec::with_capacity(alloc, parts.len())?;
    for part in parts {
        sizes.push(part.rules.items().len() as u32)?;
    }
    Ok(sizes)
}

/// How many rules each switch has room for.
///
/// # Errors
/// Only out of memory.
pub fn rooms_of(alloc: Global, net: &Net) -> Result<Vec<u32>, AllocError>
    ensures { IfOk result (λ rooms. rooms.items ≡ partition_switch_rooms_of net.now) }
{
    let rows = net.switches.items();
    rows.iter().map(|row| row.room).collect(alloc)
}
