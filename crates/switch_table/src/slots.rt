ghost use Rattle.std.specs.Prelude.{ℕ, ◌≡◌, ◌<◌, ◌≤◌, ◌^◌, ◌++◌, ◌∷◌, ◌&&◌, [], false, List, None, Some, OnOk, OnErr, IsFalse, drop, length, find, filter, map, option_map, set, remove, nat_le, slice_get};
ghost use Rattle.indexmap.specs.IndexMap.{IsUnique, get};
ghost use Rattle.std.specs.List.{position_or_len};
ghost use Rattle.switch_table.specs.Keys.{HaveOwnCacheKeys, equal_cache_keys, cache_has_key, is_cache_key_hit, is_carried_cache_key, cache_key_under};
ghost use Rattle.switch_table.specs.declared.live.LiveCacheCounts.{LiveCacheCounts};
ghost use Rattle.switch_table.specs.Live.{AreCacheLiveCounts, IsNthLiveCacheFlag, cache_live_count_set};
ghost use Rattle.switch_table.specs.Slots.{AreCacheSlotsNamed, AreCacheSlots, SlotPair, cache_live_flags_of, is_live_cache_slot, killed_cache_slot, live_cache_pairs};

use crate::items::SlotItems;
use crate::key::{CacheKey, LearntEntry, Slot};
use crate::live::{BLOCK, LiveCacheCounts};
use crate::touched::Touched;
use indexmap::IndexMap;
use indexmap::map::Slice;
use std::alloc::{AllocError, Global};
use std::marker::Model;
use ternary::Word;

/// What was learnt, each under its own key, in the order in which it came. Contracts see the list.
///
/// A map keeps it in this order. A removed slot stays as a dead one, so that none moves, until
/// there are 64 more dead ones than live ones. The counts of live ones lead to the n-th live one.
/// So each call takes constant amortized time, except those that go over all slots, and `remove`,
/// which goes over the counts.
#[derive(Drop)]
pub struct CacheSlots {
    map: IndexMap<CacheKey, Slot>,
    live: LiveCacheCounts,
    // All slots before this one are dead.
    first: usize,
}

// There may be this many more dead than live slots.
const MAX_DEAD: usize = 64;

impl Model for CacheSlots {
    ghost use Rattle.std.specs.Prelude.{List};
    ghost use Rattle.switch_table.specs.Keys.{KeyedCacheEntry};
    ghost use Rattle.switch_table.specs.Slots.{AreCacheSlots, live_cache_pairs};

    ghost Value = { List KeyedCacheEntry };

    ghost view = { λ s. live_cache_pairs s.map.entries };

    ghost invariant = { λ s. AreCacheSlots s.live s.first s.map.entries };
}

impl CacheSlots {
    #[tactic(auto, unfolding(crate::specs::Slots::AreCacheSlotsNamed))]
    pub fn new(alloc: Global) -> CacheSlots
        ensures { result ≡ [] }
    {
        CacheSlots {
            map: IndexMap::new(alloc),
            live: LiveCacheCounts::new(alloc),
            first: 0,
        }
    }

    pub fn allocator(&self) -> Global {
        *self.map.allocator()
    }

    pub fn len(&self) -> usize
        ensures len { result ≡ length self.now }
        ensures distinct { HaveOwnCacheKeys self.now }
    {
        // For the proof: the contract of the map's `len` says that its keys are distinct.
        let slots = self.map.len();
        self.live.all().min(slots)
    }

    /// Whether a live slot has this key.
    pub fn contains(&self, key: &CacheKey) -> bool
        ensures { result ≡ cache_has_key key.now self.now }
    {
        match self.map.get_index_of(key) {
            Some(place) => self.map[place].is_live,
            None => false,
        }
    }

    /// Appends this under a new key.
    ///
    /// # Errors
    /// Only out of memory; then nothing changes.
    pub fn push(&mut self, key: CacheKey, learnt: LearntEntry) -> Result<(), AllocError>
        requires fits { key.number < 2 ^ 33 }
        requires absent { IsFalse (cache_has_key key self.old) }
        ensures ok { OnOk result (self.new ≡ self.old ++ (key, learnt) ∷ []) }
        ensures err { OnErr result (self.new ≡ self.old) }
    {
        let place = self.map.len();
        release_switch_cache_key(&mut self.map, &key)?;
        self.live.make_room(place + 1)?;
        let slot = Slot {
            learnt,
            is_live: true,
        };
        self.map.insert(key, slot)?;
        self.live.add(place);
        Ok(())
    }

    /// Removes the pair at this place and returns it; `None` if there is none.
    pub fn remove(&mut self, place: usize) -> Option<(CacheKey, LearntEntry)>
        ensures pair { result ≡ slice_get self.old place }
        ensures rest { self.new ≡ remove self.old place }
    {
        if place >= self.len() {
            return None;
        }
        let at = live_cache_slot_place(&self.map, &self.live, self.first, place);
        let pair = switch_cache_pair_at(&self.map, at);
        kill_switch_cache_slot(&mut self.map, at);
        self.live.take(at);
        if place == 0 {
            self.first = at;
        }
        if self.map.len() - self.live.all() > self.live.all() + MAX_DEAD {
            self.first = 0;
            sweep_dead_cache_slots(&mut self.map, &mut self.live);
        }
        pair
    }

    /// Keeps only the pairs of this number or a higher one.
    pub fn keep_from(&mut self, number: u64)
        ensures { self.new ≡ filter (λ pair. nat_le number pair.0.number) self.old }
    {
        self.map
            .retain(|key, slot| slot.is_live && number <= key.number);
        self.live.fill_cache_blocks(self.map.len());
        self.first = 0;
    }

    /// Keeps only the pairs of this number whose words overlap none of the touched ones.
    pub fn keep_carried(&mut self, number: u64, touched: &Touched)
        ensures { self.new ≡ filter (λ pair. is_carried_cache_key number touched.now pair.0) self.old }
    {
        self.map.retain(|key, slot| {
            slot.is_live && key.number == number && !touched.meets(&key.word)
        });
        self.live.fill_cache_blocks(self.map.len());
        self.first = 0;
    }

    /// An iterator over copies of the pairs, in order.
    pub fn iter(&self) -> SlotItems<'_>
        ensures pairs { result ≡ self.now }
        ensures distinct { HaveOwnCacheKeys self.now }
    {
        SlotItems::new(switch_cache_slots_from(&self.map, self.first).iter())
    }

    /// The first pair whose key has this number and, under one of the masks, the header's bits.
    pub fn first_hit(
        &self,
        number: u64,
        header: u128,
        masks: &[Word],
    ) -> Option<(CacheKey, LearntEntry)>
        ensures { result ≡ find (λ pair. is_cache_key_hit number header masks.now pair.0) self.now }
    {
        let mut least = self.map.len();
        for mask in masks {
            least = least.min(cache_slot_place_under(&self.map, number, header, mask));
        }
        switch_cache_pair_at(&self.map, least)
    }
}

// The slots from this place on. For the proof: the contract of `len` is about the keys.
fn switch_cache_slots_from(
    map: &IndexMap<CacheKey, Slot>,
    first: usize,
) -> Slice<'_, CacheKey, Slot>
    requires { first ≤ length map.now.entries }
    ensures slots { result ≡ drop first map.now.entries }
    ensures unique { IsUnique equal_cache_keys map.now }
{
    let (_, rest) = map.as_slice().split_at(first.min(map.len()));
    rest
}

// The key of the slot at this place, and what is in it.
fn switch_cache_pair_at(
    map: &IndexMap<CacheKey, Slot>,
    place: usize,
) -> Option<(CacheKey, LearntEntry)>
    ensures { result ≡ option_map (λ slot. (slot.0, slot.1.learnt))
        (slice_get map.now.entries place) }
{
    let (key, slot) = map.get_index(place)?;
    Some((*key, slot.learnt))
}

// The place of the live slot whose key has this number and the bits of the header under this mask,
// or the number of slots.
fn cache_slot_place_under(
    map: &IndexMap<CacheKey, Slot>,
    number: u64,
    header: u128,
    mask: &Word,
) -> usize
    ensures { result ≡ position_or_len (λ slot. equal_cache_keys (cache_key_under number header mask.now) slot.0
        && is_live_cache_slot slot) map.now.entries }
{
    let bits = mask.mask();
    let word = Word::new(header & bits, bits).unwrap();
    let key = CacheKey { number, word };
    match map.get_full(&key) {
        Some((place, _, slot)) => { if slot.is_live { place } else { map.len() } }
        None => map.len(),
    }
}

// The place of the live slot with this many live ones before it. All slots before `first` are dead.
fn live_cache_slot_place(
    map: &IndexMap<CacheKey, Slot>,
    live: &LiveCacheCounts,
    first: usize,
    before: usize,
) -> usize
    requires slots { AreCacheSlots live.now first map.now.entries }
    requires some { before < cache_live_count_set (cache_live_flags_of map.now.entries) }
    ensures { IsNthLiveCacheFlag before result (cache_live_flags_of map.now.entries) }
{
    let slots = map.as_slice();
    let (start, left) = if before == 0 {
        (first, 0)
    } else {
        let (block, left) = live.block_of(before);
        (block * BLOCK, left)
    };
    let (_, rest) = slots.split_at(start);
    start + nth_live_cache_slot(rest.values().as_slice(), left)
}

// The same in a list of slots; the length of the list if there is none.
fn nth_live_cache_slot(slots: &[Slot], before: usize) -> usize
    ensures within { result ≤ length slots.now }
    ensures found { let flags = map (λ slot. slot.is_live) slots.now in
        before < cache_live_count_set flags → IsNthLiveCacheFlag before result flags }
{
    let mut left = before;
    for (place, slot) in slots.iter().enumerate() {
        if slot.is_live {
            if left == 0 {
                return place;
            }
            left -= 1;
        }
    }
    slots.len()
}

// Makes the slot at this place dead.
fn kill_switch_cache_slot(map: &mut IndexMap<CacheKey, Slot>, place: usize)
    ensures { (slot : SlotPair) → slice_get map.old.entries place ≡ Some slot →
        map.new.entries ≡ set map.old.entries place (killed_cache_slot slot) }
{
    if let Some(slot) = map.get_index_mut(place) {
        slot.is_live = false;
    }
}

// Makes sure that no slot has this key, which no live one has.
fn release_switch_cache_key(
    map: &mut IndexMap<CacheKey, Slot>,
    key: &CacheKey,
) -> Result<(), AllocError>
    requires named { AreCacheSlotsNamed 0 map.old.entries }
    requires few { length map.old.entries < 2 ^ 63 }
    requires fits { key.now.number < 2 ^ 33 }
    requires absent { IsFalse (cache_has_key key.now (live_cache_pairs map.old.entries)) }
    ensures slots { (live : LiveCacheCounts) (first : ℕ) → AreCacheSlots live first map.old.entries →
        AreCacheSlots live first map.new.entries }
    ensures pairs { live_cache_pairs map.new.entries ≡ live_cache_pairs map.old.entries }
    ensures flags { cache_live_flags_of map.new.entries ≡ cache_live_flags_of map.old.entries }
    ensures gone { OnOk result (get equal_cache_keys map.new key.now ≡ None) }
{
    let Some(dead) = map.get_index_of(key) else {
        return Ok(());
    };
    vacate_cache_slot(map, dead)
}

// Gives the dead slot at this place a key made of the place, which no version and shift make.
fn vacate_cache_slot(map: &mut IndexMap<CacheKey, Slot>, place: usize) -> Result<(), AllocError>
    requires dead { slice_get (cache_live_flags_of map.old.entries) place ≡ Some false }
    requires named { AreCacheSlotsNamed 0 map.old.entries }
    requires few { length map.old.entries < 2 ^ 63 }
    requires old { (pair : SlotPair) → slice_get map.old.entries place ≡ Some pair →
        pair.0.number < 2 ^ 33 }
    ensures pairs { live_cache_pairs map.new.entries ≡ live_cache_pairs map.old.entries }
    ensures flags { cache_live_flags_of map.new.entries ≡ cache_live_flags_of map.old.entries }
    ensures named { AreCacheSlotsNamed 0 map.new.entries }
    ensures gone { OnOk result ((pair : SlotPair) →
        slice_get map.old.entries place ≡ Some pair → get equal_cache_keys map.new pair.0 ≡ None) }
{
    let key = CacheKey {
        number: u64::MAX - place as u64,
        word: Word::any(),
    };
    let slot = map[place];
    map.insert(key, slot)?;
    map.swap_remove_index(place);
    Ok(())
}

// Removes the dead slots.
fn sweep_dead_cache_slots(map: &mut IndexMap<CacheKey, Slot>, live: &mut LiveCacheCounts)
    requires { AreCacheLiveCounts live.old (cache_live_flags_of map.old.entries) }
    ensures slots { map.new.entries ≡ filter is_live_cache_slot map.old.entries }
    ensures counts { AreCacheLiveCounts live.new (cache_live_flags_of map.new.entries) }
{
    map.retain(|_, slot| slot.is_live);
    live.fill_cache_blocks(map.len());
}
