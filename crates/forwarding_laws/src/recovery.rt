//! Laws of networks that have recovered.
ghost use Rattle.std.specs.Prelude.{◌∷◌, ◌++◌, [], List};
ghost use Rattle.net_file.specs.Net.{IsNet};
ghost use Rattle.update_machine.specs.Exports.{Answers, Event, IsMachineSetting, Item, Setting};
ghost use Rattle.steps.specs.declared.step.Event.TheVariants.{Flush};
ghost use Rattle.control_laws.specs.Always.{AreControlNetworkEvents};
ghost use Rattle.convergence_laws.specs.Exports.{HasConverged, IsNetworkUpdated, ConvergenceNeighboursAgree};
ghost use Rattle.forwarding_laws.specs.NothingOld.{ForwardingCachesNewestAlone, EndsInTwoRecoveryRounds, RecoveryLeavesNothingOld};
ghost use Rattle.forwarding_laws.specs.Recovered.{AllForwardingMessagesDelivered, HasRecovered};
ghost use Rattle.forwarding_laws.specs.Recovery.{EndsInRecovery};

use crate::laws::converged_networks_forward;
use convergence_laws::{agreeing_networks_have_converged, stuck_apart_when_neighbours_agree};
use packet_laws::cache_rules_are_right;

/// After a flush each message that was sent was delivered or forgotten.
pub fn forwarding_flushes_deliver_all()
    ensures { (setting : Setting) (events : List Event) (journal : List Item)
        → Answers setting (events ++ Flush ∷ []) journal → AllForwardingMessagesDelivered journal }
{}

/// After recovery neighbours agree: over each usable link, each end has adverts at least as new as
/// those of the other end.
pub fn recovered_neighbours_agree()
    ensures { (setting : Setting) (events : List Event) (journal : List Item)
        → IsNet setting.net → EndsInRecovery setting.net events
        → Answers setting events journal → ConvergenceNeighboursAgree setting journal }
{}

/// So after recovery the network has converged on the usable links.
pub fn recovered_networks_have_converged()
    ensures { (setting : Setting) (events : List Event) (journal : List Item)
        → IsNet setting.net → EndsInRecovery setting.net events
        → Answers setting events journal → HasConverged setting journal }
{
    agreeing_networks_have_converged();
    recovered_neighbours_agree();
}

/// After recovery every switch that is up serves and stamps with the newest version, which is the
/// current one, and each version before it is retired.
pub fn recovered_networks_are_updated()
    ensures { (setting : Setting) (events : List Event) (journal : List Item)
        → EndsInRecovery setting.net events → Answers setting events journal
        → IsNetworkUpdated setting journal }
{}

/// Suppose a schedule ends with the confirmation of each switch, a resend to each switch and a
/// flush. Then, whatever was lost, repeated or reordered, and whatever failed, the network has
/// converged on the usable links and on the newest version, and forwards.
pub fn networks_recover()
    ensures { (setting : Setting) (events : List Event) (journal : List Item)
        → IsMachineSetting setting → AreControlNetworkEvents setting events → EndsInRecovery setting.net events
        → Answers setting events journal → HasRecovered setting journal }
{
    agreeing_networks_have_converged();
    stuck_apart_when_neighbours_agree();
    converged_networks_forward();
}

/// After recovery the switches that are up cache only rules of the newest version.
pub fn recovered_caches_are_new()
    ensures { (setting : Setting) (events : List Event) (journal : List Item)
        → IsMachineSetting setting → AreControlNetworkEvents setting events → EndsInRecovery setting.net events
        → Answers setting events journal → ForwardingCachesNewestAlone setting journal }
{
    cache_rules_are_right();
}

/// After recovery, one more resend to each switch and a flush, nothing old is left: the switches
/// that are up have the tables of the newest version and of no other, and cache only its rules.
pub fn recovery_leaves_nothing_old()
    ensures { (setting : Setting) (events : List Event) (journal : List Item)
        → IsMachineSetting setting → AreControlNetworkEvents setting events → EndsInTwoRecoveryRounds setting.net events
        → Answers setting events journal → RecoveryLeavesNothingOld setting journal }
{
    agreeing_networks_have_converged();
    stuck_apart_when_neighbours_agree();
    converged_networks_forward();
    cache_rules_are_right();
}
