ghost use Rattle.partition.specs.Laws.{PartitionLaws};

/// Each header lies in exactly one of the partitions of a list of rules, whose rules decide it as
/// the whole list does. The last rule of each partition of a policy covers its region. A law about
/// the definitions only.
pub fn partition_laws()
    ensures { PartitionLaws }
{}
