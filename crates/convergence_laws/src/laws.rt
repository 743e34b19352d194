//! Laws about quiet networks, and about networks whose neighbours agree.
ghost use Rattle.std.specs.Prelude.{List};
ghost use Rattle.net_file.specs.Net.{IsNet};
ghost use Rattle.update_machine.specs.Exports.{Event, IsQuietMachineJournal, Item, Setting};
ghost use Rattle.control_laws.specs.Always.{ControlLawHoldsAtEnds, ControlLawHoldsBehindItems};
ghost use Rattle.convergence_laws.specs.Exports.{EndsInFinishedConvergenceNetwork, ConvergedGetStuckApart, HasConverged, IsConvergenceNetworkFinished, IsNetworkUpdated, ConvergenceNeighboursAgree, ConvergenceNewsSpreads};

/// Over each usable link, each end holds adverts at least as new as those of the other end, or
/// such an advert was sent to it in its present boot. This is true at the end of each step, in a
/// quiet network or not.
pub fn news_spreads()
    ensures { ControlLawHoldsAtEnds (λ setting journal. IsNet setting.net → ConvergenceNewsSpreads setting journal) }
{}

/// In a quiet network neighbours agree: over each usable link, each end has adverts at least as
/// new as those of the other end.
pub fn quiet_neighbours_agree()
    ensures { ControlLawHoldsAtEnds (λ setting journal.
        IsNet setting.net → IsQuietMachineJournal setting journal → ConvergenceNeighboursAgree setting journal) }
{}

/// If neighbours agree, the network has converged: each switch has the own advert of each switch
/// that it reaches over usable links. So of the links that end at a reachable switch it knows
/// exactly the usable ones, and it finds no route only if no target is reachable.
pub fn agreeing_networks_have_converged()
    ensures { ControlLawHoldsAtEnds (λ setting journal.
        IsNet setting.net → ConvergenceNeighboursAgree setting journal → HasConverged setting journal) }
{}

/// In a quiet network each switch has the own advert of each switch that it reaches over usable
/// links. So of the links that end at a reachable switch it knows exactly the usable ones, and it
/// finds no route only if no target is reachable.
pub fn quiet_networks_have_converged()
    ensures { ControlLawHoldsAtEnds (λ setting journal.
        IsNet setting.net → IsQuietMachineJournal setting journal → HasConverged setting journal) }
{}

/// If neighbours agree, as in a quiet network, a packet that had found no link down gets stuck in
/// the next step only if no target of its leg is reachable over usable links.
pub fn stuck_apart_when_neighbours_agree()
    ensures agreed { ControlLawHoldsAtEnds (λ setting journal.
        IsNet setting.net → ConvergenceNeighboursAgree setting journal → ConvergedGetStuckApart setting journal) }
    ensures quiet { ControlLawHoldsAtEnds (λ setting journal.
        IsNet setting.net → IsQuietMachineJournal setting journal → ConvergedGetStuckApart setting journal) }
{}

/// In a quiet network every switch that is up serves and stamps with the newest version, which is
/// the current one, and each version before it is retired.
pub fn quiet_networks_are_updated()
    ensures { ControlLawHoldsAtEnds (λ setting journal. IsQuietMachineJournal setting journal → IsNetworkUpdated setting journal) }
{}

/// A network is quiet if no message waits, none was forgotten, and each switch is up or the
/// controller doesn't wait for it.
pub fn convergence_finished_networks_are_quiet()
    ensures { ControlLawHoldsBehindItems (λ setting journal.
        IsConvergenceNetworkFinished setting journal → IsQuietMachineJournal setting journal) }
{}

/// A schedule that ends with a flush leaves no message waiting. So if none was forgotten, and each
/// switch that went down came up again or was confirmed, its network is quiet: it has converged,
/// and every switch that is up stamps with the newest version.
pub fn flushed_networks_have_converged()
    ensures quiet { (setting : Setting) (events : List Event) (journal : List Item)
        → EndsInFinishedConvergenceNetwork setting events journal → IsQuietMachineJournal setting journal }
    ensures converged { (setting : Setting) (events : List Event) (journal : List Item)
        → IsNet setting.net → EndsInFinishedConvergenceNetwork setting events journal
        → HasConverged setting journal }
    ensures updated { (setting : Setting) (events : List Event) (journal : List Item)
        → EndsInFinishedConvergenceNetwork setting events journal → IsNetworkUpdated setting journal }
{}
