//! A better placement of partitions, computed from how often the authorities of each one decided a
//! packet in a play.
//!
//! A partition's weight is how often its authorities decided a packet by the version that is
//! current at the end. Packets go to the first of its targets, so a switch's traffic is the sum of
//! the weights of the partitions whose first target it is, and the peak of a placement is the
//! greatest traffic. `spread` returns the defined spread: partitions by falling weight, each on the
//! switches of least traffic that have room. `rebalance_spread_laws` says that it fits, that there
//! is at most one, that no placement that fits has a peak below `bound`, and that a proposal is
//! never higher than the old placement. `rebalance_proposal_text` is the text of the proposal for a
//! plan: all this is true of it, and with the new targets too the tables lead each header to its
//! first match.
//!
//! ```text
//! let weights = weights(alloc, &journal, 3)?;          // 1, 0, 2
//! let targets = spread(alloc, &sizes, &weights, &rooms, 0)?;
//! peak(&weights, &old)     // 3
//! peak(&weights, &targets) // 2
//! bound(&weights, &rooms)  // 2
//! ```
#![tactic(auto)]

mod laws;
mod peaks;
mod plan_proposal;
mod proposing;
mod spreading;
mod weighing;

pub use laws::rebalance_spread_laws;
pub use peaks::{bound, peak};
pub use placement::NoRoom;
pub use plan_proposal::rebalance_proposal_text;
pub use proposing::proposed;
pub use spreading::spread;
pub use weighing::weights;
