use base::SharedList;
use policy_rules::{Partition, Targets};
use ternary::Word;

/// A partition rule: a switch sends the headers of the region to one of the targets.
#[derive(Clone, Copy, Debug, PartialEq, Eq)]
pub struct PartRow {
    pub region: Word,
    pub targets: Targets,
}

/// The partition rules of one version, in the order of the partitions' numbers. Clones share them.
pub type PartRows = SharedList<PartRow>;

/// The partitions of which a switch is a target, in the order of their numbers. Clones share them.
pub type Partitions = SharedList<Partition>;

/// What a switch knows about one version: the partition rules, and the authority rules of its own
/// partitions.
#[derive(Debug, Drop)]
pub struct Tables {
    pub version: u32,
    pub parts: PartRows,
    pub auth: Partitions,
}
