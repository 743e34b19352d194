ghost use Rattle.std.specs.Prelude.{ℕ, List, ◌≡◌, ◌<◌, ◌^◌, length, sum, IfSome, IfNone};
ghost use Rattle.rebalance.specs.Spread.{RebalanceSpreadFindsFewer, IsRebalanceProposal, IsRebalanceSpread};

use crate::peaks::peak;
use policy_rules::Targets;

/// The placement that is proposed to replace the old one: the spread of these weights if there is
/// one and its peak is lower, otherwise the old one. Allocates nothing.
pub fn proposed(weights: &[u64], spread: Option<Vec<Targets>>, old: Vec<Targets>) -> Vec<Targets>
    requires old { length old.items ≡ length weights.now }
    requires new { IfSome spread (λ new. length new.items ≡ length weights.now) }
    requires small { sum weights.now < 2 ^ 64 }
    ensures { (sizes rooms : List ℕ) (backups : ℕ)
        → IfSome spread (λ new. IsRebalanceSpread sizes weights.now rooms backups new.items)
        → IfNone spread ((refused : ℕ) × RebalanceSpreadFindsFewer sizes weights.now rooms backups refused)
        → IsRebalanceProposal sizes weights.now rooms backups old.items result.items }
{
    let Some(new) = spread else {
        return old;
    };
    if peak(weights, &new) < peak(weights, &old) {
        return new;
    }
    old
}
