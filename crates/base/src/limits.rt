//! Limits of a network that several crates use.

/// The most switches that a network has; their numbers are below this.
pub const MAX_SWITCHES: u32 = 64;

/// The most versions of the policy in one run.
pub const MAX_VERSIONS: u32 = 64;
