ghost use Rattle.std.specs.Prelude.{◌≡◌};
ghost use Rattle.switch_table.specs.Keys.{kept_cache_entries};
ghost use Rattle.switch_table.specs.Pairs.{CacheKeysHaveVersions};
ghost use Rattle.switch_table.specs.Slots.{live_cache_pairs};

use crate::cache::CacheEntry;
use crate::key::{CacheKey, LearntEntry, Slot};
use indexmap::map::Iter;
use std::marker::Model;

/// An iterator over copies of the live slots of a map, in order. Contracts see those that are left.
#[derive(Drop)]
pub struct SlotItems<'a> {
    slots: Iter<'a, CacheKey, Slot>,
}

impl<'a> Model for SlotItems<'a> {
    ghost use Rattle.std.specs.Prelude.{List};
    ghost use Rattle.switch_table.specs.Keys.{KeyedCacheEntry};
    ghost use Rattle.switch_table.specs.Slots.{live_cache_pairs};

    ghost Value = { List KeyedCacheEntry };

    ghost view = { λ i. live_cache_pairs i.slots };
}

impl<'a> SlotItems<'a> {
    pub fn new(slots: Iter<'a, CacheKey, Slot>) -> SlotItems<'a>
        ensures { result ≡ live_cache_pairs slots.entry }
    {
        SlotItems { slots }
    }
}

impl Iterator for SlotItems<'_> {
    ghost use Rattle.std.specs.Iterator.{YieldsFirst, item_count};

    type Item = (CacheKey, LearntEntry);

    ghost next_gives = { YieldsFirst (λ s. s) };

    ghost remaining = { item_count (λ s. s) };

    fn next(&mut self) -> Option<(CacheKey, LearntEntry)> {
        while let Some((key, slot)) = self.slots.next() {
            if slot.is_live {
                return Some((*key, slot.learnt));
            }
        }
        None
    }
}

/// An iterator over copies of a cache's entries, in order. Contracts see those that are left.
#[derive(Drop)]
pub struct CacheItems<'a> {
    slots: SlotItems<'a>,
    shift: u64,
}

impl<'a> Model for CacheItems<'a> {
    ghost use Rattle.std.specs.Prelude.{List};
    ghost use Rattle.switch_table.specs.Keys.{kept_cache_entries};
    ghost use Rattle.switch_table.specs.Pairs.{CacheKeysHaveVersions};
    ghost use Rattle.switch_table.specs.declared.cache.CacheEntry.{CacheEntry};

    ghost Value = { List CacheEntry };

    ghost view = { λ i. kept_cache_entries i.shift i.slots };

    ghost invariant = { λ i. CacheKeysHaveVersions i.shift i.slots };
}

impl<'a> CacheItems<'a> {
    /// The entries of these slots, whose keys have this shift added to the versions.
    pub(crate) fn new(slots: SlotItems<'a>, shift: u64) -> CacheItems<'a>
        requires { CacheKeysHaveVersions shift slots }
        ensures { result ≡ kept_cache_entries shift slots.entry }
    {
        CacheItems { slots, shift }
    }
}

impl Iterator for CacheItems<'_> {
    ghost use Rattle.std.specs.Iterator.{YieldsFirst, item_count};

    type Item = CacheEntry;

    ghost next_gives = { YieldsFirst (λ s. s) };

    ghost remaining = { item_count (λ s. s) };

    fn next(&mut self) -> Option<CacheEntry> {
        let (key, learnt) = self.slots.next()?;
        Some(CacheEntry::of(&key, &learnt, self.shift))
    }
}
