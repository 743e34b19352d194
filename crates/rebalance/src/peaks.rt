ghost use Rattle.std.specs.Prelude.{ℕ, ◌≡◌, ◌+◌, ◌<◌, ◌^◌, length, slice_index, sum, take, All, if◌then◌else◌, nat_eq};
ghost use Rattle.std.specs.List.{list_any};
ghost use Rattle.rebalance.specs.Loads.{bound, rebalance_greatest, peak, rebalance_traffic, rebalance_usable_rooms};

use base::MAX_SWITCHES;
use policy_rules::Targets;

/// The greatest traffic of any switch, if the partitions with these weights have these targets.
/// Allocates nothing.
pub fn peak(weights: &[u64], targets: &[Targets]) -> u64
    requires each { length targets.now ≡ length weights.now }
    requires small { sum weights.now < 2 ^ 64 }
    ensures { result ≡ peak weights.now targets.now }
{
    let mut carried = [0; MAX_SWITCHES as usize];
    carry(&mut carried, weights, targets);
    greatest(&carried)
}

/// A lower bound of the peak of each placement that fits these rooms: the greatest weight or, if
/// greater, an even share of all weights for each switch that has any room; 0 if none has.
/// Allocates nothing.
#[tactic(auto, unfolding(crate::specs::Loads::bound))]
pub fn bound(weights: &[u64], rooms: &[u32]) -> u64
    requires { sum weights.now < 2 ^ 64 }
    ensures { result ≡ bound weights.now rooms.now }
{
    let usable = rebalance_usable_rooms(rooms) as u64;
    if usable == 0 {
        return 0;
    }
    greatest(weights).max(sum_of_weights(weights).div_ceil(usable))
}

// Adds the weight of each partition to the traffic of its first target.
fn carry(carried: &mut [u64], weights: &[u64], targets: &[Targets])
    requires none { (s : ℕ) → slice_index carried.old s ≡ 0 }
    requires each { length targets.now ≡ length weights.now }
    requires small { sum weights.now < 2 ^ 64 }
    ensures { (s : ℕ) → s < length carried.old
        → slice_index carried.new s ≡ rebalance_traffic weights.now targets.now s }
{
    for (partition, weight) in weights.iter().enumerate() {
        add_first_weight(carried, &targets[partition], *weight);
    }
}

// Adds the weight to the traffic of the first of the targets.
fn add_first_weight(carried: &mut [u64], targets: &Targets, weight: u64)
    requires { All (λ load. load + weight < 2 ^ 64) carried.old }
    ensures { (s : ℕ) → s < length carried.old → slice_index carried.new s
        ≡ slice_index carried.old s
        + (if list_any (nat_eq s) (take 1 targets.now) then weight else 0) }
{
    let first = targets.items()[0] as usize;
    if first >= carried.len() {
        return;
    }
    carried[first] += weight;
}

// The greatest of numbers; 0 for none.
fn greatest(numbers: &[u64]) -> u64
    ensures { result ≡ rebalance_greatest numbers.now }
{
    numbers.iter().fold(0, |most, number| most.max(*number))
}

fn sum_of_weights(numbers: &[u64]) -> u64
    requires { sum numbers.now < 2 ^ 64 }
    ensures { result ≡ sum numbers.now }
{
    numbers.iter().sum()
}

// How many of these rooms have space for a rule.
fn rebalance_usable_rooms(rooms: &[u32]) -> usize
    ensures { result ≡ rebalance_usable_rooms rooms.now }
{
    rooms.iter().filter(|room| **room != 0).count()
}
