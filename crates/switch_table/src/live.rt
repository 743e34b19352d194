ghost use Rattle.std.specs.Prelude.{ℕ, ◌≡◌, ◌<◌, ◌≤◌, ◌+◌, ◌*◌, ◌^◌, ◌++◌, ◌∷◌, [], true, false, Bool, List, Some, OnOk, length, take, drop, set, replicate, slice_get, slice_index, sum};
ghost use Rattle.switch_table.specs.Live.{AreCacheLiveBlocks, AreCacheLiveCounts, CountLiveCachePlaces, cache_live_count_set};

use std::alloc::{AllocError, Global};

/// How many places a block has.
pub const BLOCK: usize = 64;

/// How many places of a list are live: in all, and of each block.
///
/// Contracts are about the flags of the places: `AreCacheLiveCounts` says that these are their
/// counts.
#[derive(Drop)]
pub struct LiveCacheCounts {
    all: usize,
    blocks: Vec<u32>,
}

impl LiveCacheCounts {
    /// The counts of no places.
    pub fn new(alloc: Global) -> LiveCacheCounts
        ensures { AreCacheLiveCounts result [] }
    {
        LiveCacheCounts {
            all: 0,
            blocks: Vec::new(alloc),
        }
    }

    /// How many are live in all.
    pub fn all(&self) -> usize
        ensures { result ≡ self.now.all }
    {
        self.all
    }

    /// Makes room for this many places.
    ///
    /// # Errors
    /// Only out of memory; then the counts are those of the same places.
    pub fn make_room(&mut self, places: usize) -> Result<(), AllocError>
        ensures kept { (flags : List Bool) → AreCacheLiveCounts self.old flags → AreCacheLiveCounts self.new flags }
        ensures room { OnOk result (CountLiveCachePlaces self.new places) }
    {
        reach(&mut self.blocks, places.div_ceil(BLOCK))
    }

    /// Adds a live place after the first `place` places.
    pub fn add(&mut self, place: usize)
        requires room { CountLiveCachePlaces self.old (place + 1) }
        requires fits { place < 2 ^ 63 }
        ensures { (flags : List Bool) → AreCacheLiveCounts self.old flags → length flags ≡ place →
            AreCacheLiveCounts self.new (flags ++ true ∷ []) }
    {
        let block = &mut self.blocks[place / BLOCK];
        *block = block.wrapping_add(1);
        self.all = self.all.wrapping_add(1);
    }

    /// Makes this live place dead.
    pub fn take(&mut self, place: usize)
        requires { CountLiveCachePlaces self.old (place + 1) }
        ensures { (flags : List Bool) → AreCacheLiveCounts self.old flags →
            slice_get flags place ≡ Some true → AreCacheLiveCounts self.new (set flags place false) }
    {
        let block = &mut self.blocks[place / BLOCK];
        *block = block.wrapping_sub(1);
        self.all = self.all.wrapping_sub(1);
    }

    /// Sets the counts to those of this many places, all of them live.
    pub fn fill_cache_blocks(&mut self, places: usize)
        requires { CountLiveCachePlaces self.old places }
        ensures { AreCacheLiveCounts self.new (replicate places true) }
    {
        fill_cache_blocks(&mut self.blocks, places);
        self.all = places;
    }

    /// The block of the live place that has this many live ones before it, and how many of these
    /// are in that block.
    pub fn block_of(&self, before: usize) -> (usize, usize)
        ensures { (flags : List Bool) → AreCacheLiveCounts self.now flags → before < cache_live_count_set flags →
            (cache_live_count_set (take (64 * result.0) flags) + result.1 ≡ before)
            × (result.1 < cache_live_count_set (take 64 (drop (64 * result.0) flags))) }
    {
        switch_cache_block_at(&self.blocks, before)
    }
}

// Adds counts of 0 until there are this many.
fn reach(counts: &mut Vec<u32>, len: usize) -> Result<(), AllocError>
    ensures kept { (flags : List Bool) → AreCacheLiveBlocks counts.old.items flags →
        AreCacheLiveBlocks counts.new.items flags }
    ensures room { OnOk result (len ≤ length counts.new.items) }
{
    while counts.len() < len {
        counts.push(0)?;
    }
    Ok(())
}

// Sets the counts to those of this many live places.
fn fill_cache_blocks(counts: &mut [u32], places: usize)
    requires { places ≤ 64 * length counts.old }
    ensures { AreCacheLiveBlocks counts.new (replicate places true) }
{
    let mut left = places;
    for count in counts {
        let here = left.min(BLOCK);
        *count = here as u32;
        left -= here;
    }
}

// The first place where the sum of the counts exceeds `before`, and how many are left there.
fn switch_cache_block_at(counts: &[u32], before: usize) -> (usize, usize)
    ensures within { result.0 ≤ length counts.now }
    ensures before { sum (take result.0 counts.now) + result.1 ≡ before }
    ensures found { result.0 < length counts.now → result.1 < slice_index counts.now result.0 }
{
    let mut left = before;
    let mut block = 0;
    for count in counts {
        let here = *count as usize;
        if left < here {
            break;
        }
        left -= here;
        block += 1;
    }
    (block, left)
}
