//! Laws about networks that have converged or are quiet: they forward.
ghost use Rattle.update_machine.specs.Exports.{IsQuietMachineJournal, IsMachineSetting};
ghost use Rattle.convergence_laws.specs.Exports.{HasConverged, IsNetworkUpdated};
ghost use Rattle.packet_laws.specs.Exports.{PacketLawHoldsBetween};
ghost use Rattle.forwarding_laws.specs.Exports.{HasNetworkComeToRest, NetworkForwards};

use convergence_laws::{
    quiet_networks_are_updated, quiet_networks_have_converged, stuck_apart_when_neighbours_agree,
};

/// A network that has converged and is updated forwards. A packet that enters at a switch that
/// is up, and is drained with no other event between, is decided by the newest version, and is
/// dropped or leaves by its port. It is stuck only if usable links lead to no target of its
/// partition, or not to its port's switch.
pub fn converged_networks_forward()
    ensures { PacketLawHoldsBetween (λ setting journal. IsMachineSetting setting → HasConverged setting journal
        → IsNetworkUpdated setting journal → NetworkForwards setting journal) }
{}

/// A quiet network forwards in the same way.
pub fn quiet_networks_forward()
    ensures { PacketLawHoldsBetween (λ setting journal.
        IsMachineSetting setting → IsQuietMachineJournal setting journal → NetworkForwards setting journal) }
{
    quiet_networks_have_converged();
    quiet_networks_are_updated();
    converged_networks_forward();
}

/// So a quiet network has come to rest: it has converged and is updated, and it forwards.
pub fn quiet_forwarding_comes_to_rest()
    ensures { PacketLawHoldsBetween (λ setting journal.
        IsMachineSetting setting → IsQuietMachineJournal setting journal → HasNetworkComeToRest setting journal) }
{
    quiet_networks_have_converged();
    stuck_apart_when_neighbours_agree();
    quiet_networks_are_updated();
    quiet_networks_forward();
}
