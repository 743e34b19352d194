ghost use Rattle.partition.specs.Plan.{PartitionPlanLaws};

/// What is true of each plan of a policy on a network: a law about the definitions only.
pub fn partition_plan_laws()
    ensures { PartitionPlanLaws }
{}
