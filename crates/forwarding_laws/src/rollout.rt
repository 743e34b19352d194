//! Laws of rollouts in which nothing fails.
ghost use Rattle.std.specs.Prelude.{◌∷◌, ◌++◌, [], List};
ghost use Rattle.steps.specs.declared.step.Event.TheVariants.{Drain};
ghost use Rattle.update_machine.specs.Exports.{Answers, JournalBeginsAnswer, Event, JournalItemsHaveCauses, IsMachineSetting, Item, Setting};
ghost use Rattle.control_laws.specs.Always.{AreControlNetworkEvents};
ghost use Rattle.forwarding_laws.specs.Rollout.{RolloutAccountsForAll, RolloutAccountedOrCutOff, ForwardingDropsNothing, IsConnectedForwardingNetwork, NoneIsStuck, NothingFailsInRollout};

use packet_laws::{ends_have_causes, packet_items_have_causes};
use update_machine::machine_answers_are_numbered;

/// If no switch crashes and no link fails, this is true of every packet, however many updates run,
/// and however messages are lost, repeated or reordered. It is stuck only if the network's links
/// lead from where it is to no target of its leg. It is lost only by its own row, finds no link
/// down, and isn't closed.
pub fn rollouts_drop_nothing()
    ensures { (setting : Setting) (events : List Event) (journal : List Item)
        → IsMachineSetting setting → AreControlNetworkEvents setting events → NothingFailsInRollout events
        → JournalBeginsAnswer setting events journal → JournalItemsHaveCauses (ForwardingDropsNothing setting) [] journal }
{
    ends_have_causes();
}

/// So in a connected network no packet is ever stuck.
pub fn connected_rollouts_leave_none_stuck()
    ensures { (setting : Setting) (events : List Event) (journal : List Item)
        → IsMachineSetting setting → AreControlNetworkEvents setting events → NothingFailsInRollout events
        → IsConnectedForwardingNetwork setting.net → JournalBeginsAnswer setting events journal → NoneIsStuck journal }
{
    rollouts_drop_nothing();
}

/// If nothing fails and the schedule ends with a drain, each packet that entered was dropped by its
/// decision, left by the port of its decision, or was lost by its own row. Or it is stuck because
/// the network's links lead from where it is to no target of its leg.
pub fn drained_rollouts_account_or_cut_off()
    ensures { (setting : Setting) (events : List Event) (journal : List Item)
        → IsMachineSetting setting → AreControlNetworkEvents setting (events ++ Drain ∷ [])
        → NothingFailsInRollout (events ++ Drain ∷ []) → Answers setting (events ++ Drain ∷ []) journal
        → RolloutAccountedOrCutOff setting journal }
{
    machine_answers_are_numbered();
    packet_items_have_causes();
    ends_have_causes();
    rollouts_drop_nothing();
}

/// In a connected network each was dropped by its decision, left by its decision's port, or was
/// lost by its own row.
pub fn drained_rollouts_account_for_all()
    ensures { (setting : Setting) (events : List Event) (journal : List Item)
        → IsMachineSetting setting → AreControlNetworkEvents setting (events ++ Drain ∷ [])
        → NothingFailsInRollout (events ++ Drain ∷ []) → IsConnectedForwardingNetwork setting.net
        → Answers setting (events ++ Drain ∷ []) journal → RolloutAccountsForAll setting journal }
{
    connected_rollouts_leave_none_stuck();
    drained_rollouts_account_or_cut_off();
}
