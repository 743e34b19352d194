ghost use Rattle.std.specs.Prelude.{◌≡◌, ◌<◌, length, map, All, IfOk};
ghost use Rattle.std.specs.List.{zip};
ghost use Rattle.switch_table.specs.Tables.{switch_table_part_of, switch_table_row_of_hosted};
ghost use Rattle.controller.specs.Leads.{ControllerPlanLeadsEveryHeader};
ghost use Rattle.controller.specs.Plan.{IsSoundControllerPlan};

use policy_rules::{Partition, Policy, Targets};
use std::alloc::{AllocError, Global};
use std::marker::Model;
use std::rc::Rc;
use switch_table::{PartRow, PartRows};

/// A policy with its partitions, each with its targets. A clone shares all of it. Contracts see the
/// policy's rows and the list of the partitions with their targets, which are sound for the policy.
#[derive(Drop)]
pub struct Plan {
    shared: Rc<PlanParts>,
}

// What the clones of a plan share.
#[derive(Drop)]
struct PlanParts {
    policy: Policy,
    hosted: Vec<(Partition, Targets)>,
    /// The regions with their targets, as each switch's tables share them.
    rows: PartRows,
}

impl Model for Plan {
    ghost use Rattle.std.specs.Prelude.{◌≡◌, map};
    ghost use Rattle.switch_table.specs.Tables.{switch_table_row_of_hosted};
    ghost use Rattle.controller.specs.Plan.{ControllerPlanValue, IsSoundControllerPlan};

    ghost Value = { ControllerPlanValue };

    ghost view = { λ p. record {
      policy = p.shared.value.policy;
      hosted = p.shared.value.hosted.items;
    } };

    ghost invariant = { λ p. IsSoundControllerPlan (record {
      policy = p.shared.value.policy;
      hosted = p.shared.value.hosted.items;
    }) × (p.shared.value.rows ≡ map switch_table_row_of_hosted p.shared.value.hosted.items) };
}

impl Plan {
    /// The plan of these partitions, in order, with these targets, in order.
    ///
    /// # Errors
    /// Only out of memory.
    pub fn new(
        alloc: Global,
        policy: Policy,
        parts: Vec<Partition>,
        targets: &[Targets],
    ) -> Result<Plan, AllocError>
        requires each { length targets.now ≡ length parts.items }
        requires sound { IsSoundControllerPlan (record {
          policy = policy;
          hosted = zip parts.items targets.now;
        }) }
        ensures policy { IfOk result (λ plan. plan.policy ≡ policy) }
        ensures hosted { IfOk result (λ plan. plan.hosted ≡ zip parts.items targets.now) }
    {
        let hosted = hosted_partitions(alloc, parts, targets)?;
        let rows = controller_plan_rows_of(alloc, &hosted)?;
        let shared = Rc::new(
            alloc,
            PlanParts {
                policy,
                hosted,
                rows,
            },
        )?;
        Ok(Plan { shared })
    }

    /// The plan of the same partitions with these targets, in order. If each has a target, its
    /// tables still lead each header to the policy's first match.
    ///
    /// # Errors
    /// Only out of memory.
    pub fn with_targets(self, alloc: Global, targets: Vec<Targets>) -> Result<Plan, AllocError>
        requires { length targets.items ≡ length self.hosted }
        ensures policy { IfOk result (λ plan. plan.policy ≡ self.policy) }
        ensures hosted { IfOk result (λ plan.
            plan.hosted ≡ zip (map switch_table_part_of self.hosted) targets.items) }
        ensures leads { All (λ switches. 0 < length switches) targets.items
            → IfOk result (λ plan. ControllerPlanLeadsEveryHeader self.policy plan.hosted) }
    {
        let parts = parts_of(alloc, self.hosted())?;
        let policy = self.policy().clone()?;
        let plan = Plan::new(alloc, policy, parts, &targets)?;
        Ok(plan)
    }

    /// The policy.
    pub fn policy(&self) -> &Policy
        ensures { result.now ≡ self.now.policy }
    {
        &self.shared.policy
    }

    /// The partitions, by their numbers, each with its targets.
    pub fn hosted(&self) -> &[(Partition, Targets)]
        ensures hosted { result.now ≡ self.now.hosted }
        ensures sound { IsSoundControllerPlan self.now }
    {
        &self.shared.hosted
    }

    /// The regions with their targets, by the numbers of the partitions.
    pub fn rows(&self) -> &PartRows
        ensures { result.now ≡ map switch_table_row_of_hosted self.now.hosted }
    {
        &self.shared.rows
    }
}

impl Clone for Plan {
    ghost is_clone = { λ plan copy. copy ≡ plan };

    fn clone(&self) -> Result<Plan, AllocError> {
        let shared = self.shared.clone()?;
        Ok(Plan { shared })
    }
}

// The partitions with their targets.
fn hosted_partitions(
    alloc: Global,
    parts: Vec<Partition>,
    targets: &[Targets],
) -> Result<Vec<(Partition, Targets)>, AllocError>
    ensures { IfOk result (λ hosted. hosted.items ≡ zip parts.items targets.now) }
{
    let targets = targets.iter().copied();
    parts.into_iter().zip(targets).collect(alloc)
}

/// The partitions without their targets: each shares its rules.
///
/// # Errors
/// Only out of memory.
pub fn parts_of(
    alloc: Global,
    hosted: &[(Partition, Targets)],
) -> Result<Vec<Partition>, AllocError>
    ensures { IfOk result (λ parts. parts.items ≡ map switch_table_part_of hosted.now) }
{
    let mut parts = Vec::with_capacity(alloc, hosted.len())?;
    for (part, _) in hosted {
        parts.push(part.clone()?)?;
    }
    Ok(parts)
}

// The regions with their targets.
fn controller_plan_rows_of(
    alloc: Global,
    hosted: &[(Partition, Targets)],
) -> Result<PartRows, AllocError>
    ensures { IfOk result (λ rows. rows ≡ map switch_table_row_of_hosted hosted.now) }
{
    let mut rows = Vec::with_capacity(alloc, hosted.len())?;
    for (part, targets) in hosted {
        rows.push(PartRow {
            region: part.region,
            targets: *targets,
        })?;
    }
    PartRows::new(rows)
}
