//! Partitions: the leaves of a cut tree, each a region of the header space with the rules that
//! decide its headers.
//!
//! The partitions of the rules of a policy are sound for it: each header lies in exactly one
//! region, and the first rule there that holds it has the rule and the action of the policy's first
//! match. `list` ensures this of what it returns, and `partition_laws` of the definitions only, so
//! that no crate above reasons about trees.
//!
//! ```text
//! let tree = build(alloc, &rules, 32)?;
//! let parts = list(alloc, &tree)?;
//! let number = find(&parts, &header);
//! ```
#![tactic(auto)]

mod laws;
mod parts;
mod plan;

pub use laws::partition_laws;
pub use parts::{find, list};
pub use plan::partition_plan_laws;
