ghost use Rattle.std.specs.Prelude.{◌≡◌, map, filter, nat_eq, IfOk};
ghost use Rattle.std.specs.List.{list_any};
ghost use Rattle.switch_table.specs.Tables.{AreSoundSwitchTables, switch_table_part_has_target, switch_table_part_of, tables_of};

use crate::plan::Plan;
use policy_rules::{Partition, Targets};
use std::alloc::{AllocError, Global};
use switch_table::{Partitions, Tables, tables_laws};

/// The tables that a plan gives a switch for a version: all regions with their targets, and the
/// partitions of which the switch is a target, in the order of their numbers. Regions and rules
/// are the plan's, shared.
///
/// # Errors
/// Only out of memory.
pub fn tables_of(alloc: Global, plan: &Plan, version: u32, s: u32) -> Result<Tables, AllocError>
    ensures tables { IfOk result (λ tables. tables ≡ tables_of plan.now.hosted version s) }
    ensures sound { IfOk result AreSoundSwitchTables }
{
    tables_laws();
    let own = parts_of(alloc, plan.hosted(), s)?;
    Ok(Tables {
        version,
        parts: plan.rows().clone()?,
        auth: Partitions::new(own)?,
    })
}

// The partitions of which the switch is a target.
fn parts_of(
    alloc: Global,
    hosted: &[(Partition, Targets)],
    s: u32,
) -> Result<Vec<Partition>, AllocError>
    ensures { IfOk result (λ parts.
        parts.items ≡ map switch_table_part_of (filter (switch_table_part_has_target s) hosted.now)) }
{
    let mut parts = Vec::new(alloc);
    for (part, targets) in hosted {
        if is_controller_plan_target(targets.items(), s) {
            parts.push(part.clone()?)?;
        }
    }
    Ok(parts)
}

fn is_controller_plan_target(targets: &[u32], s: u32) -> bool
    ensures { result ≡ list_any (nat_eq s) targets.now }
{
    targets.iter().any(|target| s == *target)
}
