ghost use Rattle.std.specs.Prelude.{ℕ, ◌≡◌, ◌+◌, ◌<◌, ◌≤◌, ◌^◌, length, slice_index, sum, take, All, AllPairs, MatchOption, IfOk, IfErr, IfSome, if◌then◌else◌, nat_eq};
ghost use Rattle.std.specs.List.{list_any, range_with_len};
ghost use Rattle.base.specs.Refusals.{IfRefused};
ghost use Rattle.placement.specs.Order.{in_placement_order};
ghost use Rattle.placement.specs.Placement.{PlacementHasTargets, IsPlacementRefused, MayTakePlacementTurns, is_earlier_in_placement, is_lighter_placement_switch, placement_has_room, placement_loaded_by, placement_turn_rule, placement_with_room};

use crate::NoRoom;
use base::Failure;
use policy_rules::Targets;
use std::alloc::{AllocError, Global};
use std::cmp::Reverse;

/// Which of its targets a partition loads with its key: all, or only the first.
#[derive(Clone, Copy)]
pub enum Load {
    OnAll,
    OnFirst,
}

impl Load {
    /// The targets of partitions of these `keys` and `sizes` on switches of these `rooms`, both in
    /// rules: for each partition an authority switch and this many backups.
    ///
    /// Partitions come by falling key, then by number. Each is put on the switches of least load,
    /// and then of least number, among those that have room for it besides their partitions.
    ///
    /// # Errors
    /// `NoRoom` with the first partition, by falling key and then by number, that finds fewer
    /// switches than it needs; or out of memory.
    pub fn take_turns(
        self,
        alloc: Global,
        keys: &[u64],
        sizes: &[u64],
        rooms: &[u32],
        backups: u32,
    ) -> Result<Vec<Targets>, Failure<NoRoom>>
        requires { MayTakePlacementTurns keys.now rooms.now backups }
        ensures hosted { IfOk result (λ targets.
            PlacementHasTargets (placement_turn_rule self keys.now sizes.now rooms.now backups) targets.items) }
        ensures refused { IfErr result (IfRefused (λ lack.
            IsPlacementRefused (placement_turn_rule self keys.now sizes.now rooms.now backups) lack.partition)) }
    {
        let none_yet = Targets::new(&[0]).unwrap();
        let mut placement = vec![in alloc; none_yet; keys.len()]?;
        let mut held = vec![in alloc; 0; rooms.len()]?;
        let mut loads = vec![in alloc; 0; rooms.len()]?;
        let order = by_falling_key(alloc, keys)?;
        for partition in &order {
            let size = placement_number_at(sizes, *partition);
            let key = placement_number_at(keys, *partition);
            let switches = by_switch_load(alloc, &held, &loads, rooms, size)?;
            let Some(targets) = front(&switches, backups) else {
                return Err(Failure::Refused(NoRoom {
                    partition: *partition,
                }));
            };
            add_switch_load(&mut held, targets.items(), size);
            add_switch_load(&mut loads, self.loaded(&targets), key);
            placement[*partition as usize] = targets;
        }
        Ok(placement)
    }

    // The targets that a partition loads.
    fn loaded(self, targets: &Targets) -> &[u32]
        ensures { result.now ≡ placement_loaded_by self targets.now }
    {
        match self {
            Load::OnAll => targets.items(),
            Load::OnFirst => &targets.items()[..1],
        }
    }
}

// The places of these numbers, by falling number and then by place.
fn by_falling_key(alloc: Global, numbers: &[u64]) -> Result<Vec<u32>, AllocError>
    requires { length numbers.now < 2 ^ 32 }
    ensures { IfOk result (λ order.
        order.items ≡ in_placement_order (is_earlier_in_placement numbers.now) (range_with_len 0 (length numbers.now))) }
{
    let mut order = placement_numbers_below(alloc, numbers.len() as u32)?;
    order.sort_unstable_by_key(|place| (Reverse(placement_number_at(numbers, *place)), *place));
    Ok(order)
}

// The switches that have room for this many more rules, by load and then by number.
fn by_switch_load(
    alloc: Global,
    held: &[u64],
    loads: &[u64],
    rooms: &[u32],
    size: u64,
) -> Result<Vec<u32>, AllocError>
    requires { length rooms.now ≤ 64 }
    ensures { IfOk result (λ switches. let load = slice_index loads.now in
        switches.items
        ≡ in_placement_order (is_lighter_placement_switch load) (placement_with_room (slice_index held.now) rooms.now size)) }
{
    let mut switches = placement_numbers_below(alloc, rooms.len() as u32)?;
    switches.retain(|switch| has_room(held, rooms, size, *switch));
    switches.sort_unstable_by_key(|switch| (placement_number_at(loads, *switch), *switch));
    Ok(switches)
}

// The first of these switches, one and this many backups; `None` exactly if there are fewer.
fn front(switches: &[u32], backups: u32) -> Option<Targets>
    requires { backups ≤ 3 }
    ensures targets { IfSome result (λ targets. targets ≡ take (1 + backups) switches.now) }
    ensures enough { MatchOption result (length switches.now < 1 + backups)
        (λ targets. 1 + backups ≤ length switches.now) }
{
    let count = 1 + backups as usize;
    if switches.len() < count {
        return None;
    }
    Targets::new(&switches[..count])
}

// Adds this much to the loads of these switches.
fn add_switch_load(loads: &mut [u64], targets: &[u32], more: u64)
    requires there { All (λ s. s < length loads.old) targets.now }
    requires fits { All (λ s. slice_index loads.old s + more < 2 ^ 64) targets.now }
    requires distinct { AllPairs (λ a b. a ≡ b → ⊥) targets.now }
    ensures { (s : ℕ) → slice_index loads.new s
        ≡ slice_index loads.old s + (if list_any (nat_eq s) targets.now then more else 0) }
{
    for switch in targets {
        loads[*switch as usize] += more;
    }
}

// The number at this place, or 0 beyond the end.
fn placement_number_at(numbers: &[u64], place: u32) -> u64
    ensures { result ≡ slice_index numbers.now place }
{
    numbers.get(place as usize).copied().unwrap_or(0)
}

/// The same numbers in 64 bits.
///
/// # Errors
/// Only out of memory.
pub fn widened(alloc: Global, numbers: &[u32]) -> Result<Vec<u64>, AllocError>
    ensures { IfOk result (λ wide. wide.items ≡ numbers.now) }
{
    numbers
        .iter()
        .map(|number| u64::from(*number))
        .collect(alloc)
}

#[tactic(auto, using(crate::proofs::PlacementFirsts::capped_within), unfolding(crate::specs::Placement::placement_has_room))]
fn has_room(held: &[u64], rooms: &[u32], size: u64, switch: u32) -> bool
    ensures { result ≡ placement_has_room (slice_index held.now) rooms.now size switch }
{
    let taken = placement_number_at(held, switch).saturating_add(size);
    let room = rooms.get(switch as usize).copied().unwrap_or(0);
    (switch as usize) < rooms.len() && taken <= u64::from(room)
}

// The first `count` numbers, from 0.
fn placement_numbers_below(alloc: Global, count: u32) -> Result<Vec<u32>, AllocError>
    ensures { IfOk result (λ numbers. numbers.items ≡ range_with_len 0 count) }
{
    (0..count).collect(alloc)
}
