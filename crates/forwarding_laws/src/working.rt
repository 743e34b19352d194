//! The law that each play keeps its network forwarding.
ghost use Rattle.forwarding_laws.specs.Exports.{PlaysKeepForwarding};

use crate::recovery::{networks_recover, recovery_leaves_nothing_old};
use crate::rollout::{
    connected_rollouts_leave_none_stuck, drained_rollouts_account_for_all,
    drained_rollouts_account_or_cut_off, rollouts_drop_nothing,
};

/// A play keeps its network forwarding. If its schedule ends in recovery, the network has
/// recovered, and after a second round nothing old is left. If nothing fails, no packet is lost
/// except by its own row, or stuck unless it is cut off. This is also true of a play that stopped
/// full.
pub fn plays_keep_working()
    ensures { PlaysKeepForwarding }
{
    networks_recover();
    recovery_leaves_nothing_old();
    rollouts_drop_nothing();
    connected_rollouts_leave_none_stuck();
    drained_rollouts_account_or_cut_off();
    drained_rollouts_account_for_all();
}
