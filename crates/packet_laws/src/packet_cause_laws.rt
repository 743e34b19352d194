//! Laws about what is true on the way to a journal: at each moment, and after each step.
ghost use Rattle.std.specs.Prelude.{List, Option, ℕ};
ghost use Rattle.update_machine.specs.Exports.{Event, IsMachinePlay, IsMachineSetting, Item, Setting};
ghost use Rattle.control_laws.specs.Always.{AreControlNetworkEvents, ControlLawHoldsReached};
ghost use Rattle.packet_laws.specs.Exports.{PacketLawsHeldThroughout, PacketLawHoldsBetween, PacketLawsHoldSoFar, ArePacketsKeptBehind};

use crate::laws::{
    answers_are_runs, causes_are_strong, ends_have_causes, packets_keep_versions_whole,
    packets_take_few_hops, packets_take_few_routes, packets_travel,
};
use control_laws::marks_settle;

/// At each moment, within a step too, the journal is a run of the machine whose ends and items have
/// their causes, the versions are whole, and each packet took few routes and hops.
pub fn packet_journals_hold_so_far()
    ensures { ControlLawHoldsReached (λ setting journal. IsMachineSetting setting → PacketLawsHoldSoFar setting journal) }
{
    answers_are_runs();
    ends_have_causes();
    causes_are_strong();
    packets_keep_versions_whole();
    packets_take_few_routes();
    packets_take_few_hops();
}

/// After each step packets are on their way, and the marks are settled.
pub fn packet_steps_are_kept()
    ensures { PacketLawHoldsBetween (λ setting journal. IsMachineSetting setting → ArePacketsKeptBehind setting journal) }
{
    packets_travel();
    marks_settle();
}

/// The same was true on the way to the journal of each play of a network's events: at each moment,
/// and after each of its steps.
pub fn packet_plays_held_on_way()
    ensures { (setting : Setting) (events : List Event) (journal : List Item) (full : Option ℕ)
        → IsMachineSetting setting → AreControlNetworkEvents setting events → IsMachinePlay setting events journal full
        → PacketLawsHeldThroughout setting journal }
{
    packet_journals_hold_so_far();
    packet_steps_are_kept();
}
