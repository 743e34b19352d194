//! What a play prints.

/// What a play prints.
#[derive(Clone, Copy)]
pub enum Report {
    /// The lines of its journal and those of the meters, and whether the network is quiet if the
    /// command has `--quiet`.
    Lines { quiet: bool },
    /// How many packets of each header left by each port, as the meters recorded them.
    Flows,
    /// A placement of the partitions with a lower peak, if one is found.
    Placement,
    /// How many packets, decisions by cached rules and messages there were, and how packets ended.
    Summary,
}
