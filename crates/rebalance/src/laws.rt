ghost use Rattle.std.specs.Prelude.{ℕ, List};
ghost use Rattle.rebalance.specs.Spread.{AreRebalancePartitionsWeighed, RebalanceSpreadLaws};

/// A spread fits; there is at most one, and none if a partition is refused; no placement that fits
/// has a peak below the bound; a proposal fits if the old placement does, and its peak is never
/// higher. A law about the definitions only.
pub fn rebalance_spread_laws()
    ensures { (sizes weights rooms : List ℕ) (backups : ℕ) → AreRebalancePartitionsWeighed sizes weights rooms
        → RebalanceSpreadLaws sizes weights rooms backups }
{}
