ghost use Rattle.std.specs.Prelude.{ℕ, ◌≡◌, ◌+◌, ◌<◌, ◌^◌, length, slice_index, count_by, sum, IfOk, nat_eq, option_to_list, unwrap_or, All};
ghost use Rattle.rebalance.specs.Loads.{rebalance_weighed_partition_in, rebalance_weighed_partition, rebalance_weights_of};
ghost use Rattle.update_machine.specs.Marks.{journal_current_mark, machine_item_gives_current};

use journal::{How, Item, Journal};
use std::alloc::{AllocError, Global};

/// The weights of this many partitions, by their numbers: how often their authorities decided by
/// the version that is current at the end of the journal. Decisions by cached rules and by other
/// versions don't count.
///
/// # Errors
/// Only out of memory.
pub fn weights(alloc: Global, journal: &Journal, parts: u32) -> Result<Vec<u64>, AllocError>
    ensures weights { IfOk result (λ weights. weights.items ≡ rebalance_weights_of journal.now parts) }
    ensures small { IfOk result (λ weights. sum weights.items < 2 ^ 64) }
{
    let items = journal.items();
    let current = rebalance_version_at_end(items);
    let mut weights = vec![in alloc; 0; parts as usize]?;
    for item in items {
        add_one_weight(&mut weights, weighed_partition_in(item, current));
    }
    Ok(weights)
}

// The version that is current after the items.
fn rebalance_version_at_end(items: &[Item]) -> u32
    ensures { result ≡ journal_current_mark items.now }
{
    let mut current = 1;
    for item in items {
        current = weighed_version_behind(item, current);
    }
    current
}

// The version that is current after the item.
fn weighed_version_behind(item: &Item, current: u32) -> u32
    ensures { result ≡ unwrap_or (machine_item_gives_current item.now) current }
{
    match item {
        Item::Current { version } => *version,
        _ => current,
    }
}

// The partition whose authority decided a packet by this version, if the item says so.
fn weighed_partition_in(item: &Item, version: u32) -> Option<u32>
    ensures { result ≡ rebalance_weighed_partition_in version item.now }
{
    match item {
        Item::Decided {
            version: used,
            how,
            ..
        } => {
            if *used == version {
                weighed_partition(how)
            } else {
                None
            }
        }
        _ => None,
    }
}

fn weighed_partition(how: &How) -> Option<u32>
    ensures { result ≡ rebalance_weighed_partition how.now }
{
    match how {
        How::Authority { partition, .. } => Some(*partition),
        How::Cached { .. } => None,
    }
}

// Adds one to the number at this place, if a place is given and exists.
fn add_one_weight(numbers: &mut [u64], place: Option<u32>)
    requires { All (λ number. number + 1 < 2 ^ 64) numbers.old }
    ensures { (k : ℕ) → k < length numbers.old → slice_index numbers.new k
        ≡ slice_index numbers.old k + count_by (nat_eq k) (option_to_list place) }
{
    let Some(place) = place else {
        return;
    };
    let place = place as usize;
    if place < numbers.len() {
        numbers[place] += 1;
    }
}
