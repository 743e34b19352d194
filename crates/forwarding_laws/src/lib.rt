//! What is true of a network that is quiet or has recovered, and what a rollout drops: laws over
//! journals, proved from those of networks that have converged and of packets on their way.
//!
//! No code: each function is the law that it ensures.
#![tactic(auto)]

mod laws;
mod recovery;
mod rollout;
mod working;

pub use laws::{
    converged_networks_forward, quiet_forwarding_comes_to_rest, quiet_networks_forward,
};
pub use recovery::{
    forwarding_flushes_deliver_all, networks_recover, recovered_caches_are_new,
    recovered_neighbours_agree, recovered_networks_are_updated, recovered_networks_have_converged,
    recovery_leaves_nothing_old,
};
pub use rollout::{
    connected_rollouts_leave_none_stuck, drained_rollouts_account_for_all,
    drained_rollouts_account_or_cut_off, rollouts_drop_nothing,
};
pub use working::plays_keep_working;
