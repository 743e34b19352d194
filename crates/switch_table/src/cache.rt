ghost use Rattle.std.specs.Prelude.{◌≡◌, ◌≤◌, ◌<◌, ◌+◌, ◌^◌, [], filter_map, map, slice_get, option_map, IfOk, OnOk, OnErr};
ghost use Rattle.std.specs.List.{list_any};
ghost use Rattle.switch_table.specs.Cache.{IsCache, cache_after_accept, cache_after_expire, cache_after_raise, cache_after_clear, first_cache_entry, same_cache_key};
ghost use Rattle.switch_table.specs.CacheLaws.{CacheLaws, CacheCarryLaws};
ghost use Rattle.switch_table.specs.Carried.{cache_after_carry, carried_cache_entry};
ghost use Rattle.switch_table.specs.Keys.{kept_cache_entry, cache_key_of, cache_learnt_of, keyed_cache_entry_of};

use crate::items::CacheItems;
use crate::key::{CacheKey, LearntEntry};
use crate::masks::CacheMasks;
use crate::slots::CacheSlots;
use crate::touched::Touched;
use policy_rules::Action;
use std::alloc::{AllocError, Global};
use std::marker::Model;
use ternary::Word;

/// A rule that a switch has learnt from an authority switch: what becomes of the headers of a
/// word, by one version.
#[derive(Clone, Copy, Debug, PartialEq, Eq)]
pub struct CacheEntry {
    pub version: u32,
    pub word: Word,
    /// The priority of the row, or `None` for the default.
    pub rule: Option<u32>,
    pub action: Action,
    /// The number of the message that brought the entry.
    pub message: u32,
}

impl CacheEntry {
    /// The entry's key in a cache that adds this shift to versions.
    pub(crate) fn key(&self, shift: u64) -> CacheKey
        requires { shift ≤ 2 ^ 32 }
        ensures key { result ≡ cache_key_of shift self.now }
        ensures fits { result.number < 2 ^ 33 }
    {
        CacheKey {
            number: u64::from(self.version) + shift,
            word: self.word,
        }
    }

    /// What it says besides its key.
    pub(crate) fn learnt(&self) -> LearntEntry
        ensures { result ≡ cache_learnt_of self.now }
    {
        LearntEntry {
            rule: self.rule,
            action: self.action,
            message: self.message,
        }
    }

    /// The entry of this key in a cache that adds this shift to versions.
    pub(crate) fn of(key: &CacheKey, learnt: &LearntEntry, shift: u64) -> CacheEntry
        requires { (shift ≤ key.now.number) × (key.now.number < shift + 2 ^ 32) }
        ensures { result ≡ kept_cache_entry shift (key.now, learnt.now) }
    {
        CacheEntry {
            version: (key.number - shift) as u32,
            word: key.word,
            rule: learnt.rule,
            action: learnt.action,
            message: learnt.message,
        }
    }
}

/// The rules that a switch has learnt: at most as many as its capacity, no two of one version and
/// word, in the order in which they came. Contracts see the list and the capacity.
// An entry's key has the sum of its version and the shift. So when entries are carried to the next
// version, the shift falls by one, and no entry is written. No entry is of a later version than
// `newest`, so that a carry need not look at all of them to know that none is of its version.
#[derive(Drop)]
pub struct Cache {
    slots: CacheSlots,
    shift: u64,
    newest: u32,
    masks: CacheMasks,
    capacity: u32,
}

// The shift of a cache at first.
const MAX_SHIFT: u64 = 1 << 32;

impl Model for Cache {
    ghost use Rattle.switch_table.specs.Cache.{CacheValue};
    ghost use Rattle.switch_table.specs.Keys.{kept_cache_entries};
    ghost use Rattle.switch_table.specs.Pairs.{CacheHoldsEntries};

    ghost Value = { CacheValue };

    ghost view = { λ c. record { entries = kept_cache_entries c.shift c.slots; capacity = c.capacity } };

    ghost invariant = { λ c. CacheHoldsEntries c.masks c.shift c.newest c.capacity c.slots };
}

impl Cache {
    /// An empty cache, for at most this many entries.
    pub fn new(alloc: Global, capacity: u32) -> Cache
        ensures { result ≡ record { entries = []; capacity = capacity } }
    {
        Cache {
            slots: CacheSlots::new(alloc),
            shift: MAX_SHIFT,
            newest: 0,
            masks: CacheMasks::new(alloc),
            capacity,
        }
    }

    /// A copy of each entry, in order.
    pub fn entries(&self) -> CacheItems<'_>
        ensures entries { result ≡ self.now.entries }
        ensures cache { IsCache self.now }
    {
        CacheItems::new(self.slots.iter(), self.shift)
    }

    /// Adds an entry as the last one; if there are then more than the capacity, the first one is
    /// evicted. Nothing changes if its version is below the stamp, or if there is an entry of its
    /// version and word.
    ///
    /// # Errors
    /// Only out of memory; then nothing changes.
    #[tactic(auto, using(crate::proofs::CachePairs::has_key_of_entry))]
    pub fn accept(&mut self, stamp: u32, entry: CacheEntry) -> Result<(), AllocError>
        ensures ok { OnOk result (self.new ≡ cache_after_accept stamp entry self.old) }
        ensures err { OnErr result (self.new ≡ self.old) }
    {
        if self.capacity == 0 || entry.version < stamp || self.has_key_of(&entry) {
            return Ok(());
        }
        self.gather_masks()?;
        self.masks.add(&entry.word, self.slots.len())?;
        self.slots.push(entry.key(self.shift), entry.learnt())?;
        self.newest = self.newest.max(entry.version);
        if self.slots.len() > self.capacity as usize {
            self.slots.remove(0);
        }
        Ok(())
    }

    /// Removes the entry at this place, from 0, and returns the number of its message; `None` if
    /// there is none.
    #[tactic(auto, using(crate::proofs::CachePairs::entries_removed))]
    pub fn expire(&mut self, k: u32) -> Option<u32>
        ensures message { result
            ≡ option_map (λ entry. entry.message) (slice_get self.old.entries k) }
        ensures after { self.new ≡ cache_after_expire k self.old }
    {
        let (_, learnt) = self.slots.remove(k as usize)?;
        Some(learnt.message)
    }

    /// Removes the entries of versions below the stamp.
    pub fn raise(&mut self, stamp: u32)
        ensures { self.new ≡ cache_after_raise stamp self.old }
    {
        self.slots.keep_from(u64::from(stamp) + self.shift);
        self.masks.wait_for(self.slots.len());
    }

    /// Carries the entries to a version: those of the version before become entries of it if their
    /// words overlap none of the touched ones, and keep their places in the order. The others of
    /// that version and all of earlier ones are removed, and so is one whose word an entry of the
    /// version has.
    ///
    /// If no entry came with or was carried to this version or a later one, this allocates nothing.
    /// Otherwise what is left is written to a new cache, which then replaces this one.
    ///
    /// # Errors
    /// Only out of memory; then nothing changes.
    pub fn carry(&mut self, version: u32, touched: &Touched) -> Result<(), AllocError>
        ensures ok { OnOk result (self.new ≡ cache_after_carry version touched.now self.old) }
        ensures err { OnErr result (self.new ≡ self.old) }
    {
        if self.newest < version {
            self.shift -= 1;
            self.slots
                .keep_carried(u64::from(version) + self.shift, touched);
            self.masks.wait_for(self.slots.len());
            self.newest = version;
            return Ok(());
        }
        *self = self.carried(version, touched)?;
        Ok(())
    }

    /// Removes all entries, and frees their memory.
    pub fn clear(&mut self)
        ensures { self.new ≡ cache_after_clear self.old }
    {
        *self = Cache::new(self.slots.allocator(), self.capacity);
    }

    /// The first entry of this version whose word holds the header number.
    // If there are few masks, it looks up one key for each of them.
    pub fn first_entry(&self, version: u32, number: u128) -> Option<CacheEntry>
        ensures { result ≡ first_cache_entry version number self.now.entries }
    {
        match self.masks.few(self.slots.len()) {
            Some(masks) => {
                let shifted = u64::from(version) + self.shift;
                let (key, learnt) = self.slots.first_hit(shifted, number, masks)?;
                Some(CacheEntry::of(&key, &learnt, self.shift))
            }
            None => self.entries().find(|entry| entry.version == version
                && entry.word.holds(number)),
        }
    }

    // Whether there is an entry with the same version and word.
    fn has_key_of(&self, entry: &CacheEntry) -> bool
        ensures { result ≡ list_any (same_cache_key entry.now) self.now.entries }
    {
        self.slots.contains(&entry.key(self.shift))
    }

    // Collects the masks, if it is time to.
    fn gather_masks(&mut self) -> Result<(), AllocError>
        ensures { self.new ≡ self.old }
    {
        if self.masks.are_due() {
            self.masks = CacheMasks::gather(
                self.slots.allocator(),
                self.entries(),
                self.slots.len(),
            )?;
        }
        Ok(())
    }

    // A new cache of what is left of the entries, in order.
    fn carried(&self, version: u32, touched: &Touched) -> Result<Cache, AllocError>
        ensures { IfOk result (λ cache. cache ≡ cache_after_carry version touched.now self.now) }
    {
        let mut cache = Cache::new(self.slots.allocator(), self.capacity);
        for entry in self.entries() {
            if let Some(left) = self.carried_entry(version, touched, &entry) {
                cache.accept(0, left)?;
            }
        }
        Ok(cache)
    }

    // The entry after the carry; `None` if it is removed.
    fn carried_entry(
        &self,
        version: u32,
        touched: &Touched,
        entry: &CacheEntry,
    ) -> Option<CacheEntry>
        ensures { result ≡ carried_cache_entry version touched.now self.now.entries entry.now }
    {
        if version <= entry.version {
            return Some(*entry);
        }
        let over = CacheEntry { version, ..*entry };
        let stays = entry.version + 1 == version
            && !touched.meets(&entry.word)
            && !self.has_key_of(&over);
        if stays { Some(over) } else { None }
    }
}

/// No call leaves a cache with two entries of one version and word, or with more entries than its
/// capacity: a law about the definitions only.
pub fn learnt_cache_laws()
    ensures { CacheLaws }
{}

/// What is carried to a version: no rule of the version before is lost that the change doesn't
/// touch; each carried rule was in the cache, untouched. A law about the definitions only.
pub fn learnt_cache_carry_laws()
    ensures { CacheCarryLaws }
{}
