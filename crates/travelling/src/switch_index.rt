//! Where packets are: a bit for each packet and each switch.
//!
//! The bits of a block of 64 packets are in one mask for each switch. A second level of such masks
//! says which masks of the first have a bit, and a third level which masks of the second have one.
//! So a search for the packets at a switch reads no packet, and skips 262,144 of them by one mask
//! if none is there.
ghost use Rattle.std.specs.Prelude.{◌≡◌, ◌+◌, ◌*◌, ◌/◌, ◌<◌, ◌≤◌, ◌==◌, ◌&&◌, ℕ, [], false, true, length, max, slice_index_or, OnOk};
ghost use Rattle.travelling.specs.SwitchIndex.{AreTravellerBlockMarks, IsLeastTravellerMarked, IsNextTravellerInBlock, IsNextTravellerMarked, traveller_mark_flipped_if, has_traveller_marks, is_traveller_marked};
ghost use Rattle.travelling.specs.Travelling.{travelling_stands_at};

use crate::held_flight::HeldFlight;
use base::only_if;
use std::alloc::{AllocError, Global};
use std::marker::Model;

/// The marks of where packets are. Contracts see the first level.
#[derive(Drop)]
pub struct TravellerSwitchIndex {
    packets: Vec<u64>,
    // Which blocks of packets have marks.
    blocks: Vec<u64>,
    // Which blocks of these have marks.
    groups: Vec<u64>,
}

impl Model for TravellerSwitchIndex {
    ghost use Rattle.std.specs.Prelude.{List, ℕ};
    ghost use Rattle.travelling.specs.SwitchIndex.{AreTravellerMarkLevels};

    ghost Value = { List ℕ };

    ghost view = { λ m. m.packets.items };

    ghost invariant = { λ m. AreTravellerMarkLevels m.packets.items m.blocks.items m.groups.items };
}

impl TravellerSwitchIndex {
    /// An index without marks; it allocates nothing yet.
    pub fn new(alloc: Global) -> TravellerSwitchIndex
        ensures { result ≡ [] }
    {
        TravellerSwitchIndex {
            packets: Vec::new(alloc),
            blocks: Vec::new(alloc),
            groups: Vec::new(alloc),
        }
    }

    /// Makes sure that there is a bit for the packet of this number. Each new mask is pushed, so
    /// that n packets take O(n) in all.
    ///
    /// # Errors
    /// Only out of memory.
    pub fn make_bits(&mut self, number: usize) -> Result<(), AllocError>
        requires { number < 4_294_967_296 }
        ensures room { OnOk result (number + 64 ≤ length self.new) }
        ensures grown { length self.old ≤ length self.new }
        ensures same { (j : ℕ) → slice_index_or self.new j 0 ≡ slice_index_or self.old j 0 }
    {
        make_traveller_masks(&mut self.groups, number / 64 / 64)?;
        make_traveller_masks(&mut self.blocks, number / 64)?;
        make_traveller_masks(&mut self.packets, number)
    }

    /// Flips the mark of the slot's packet at the switch where it is.
    pub fn mark_slot(&mut self, number: usize, slot: &Option<HeldFlight>)
        requires { number + 64 ≤ length self.old }
        ensures room { length self.new ≡ length self.old }
        ensures marks { (i s : ℕ) → s < 64 → is_traveller_marked self.new i s
            ≡ traveller_mark_flipped_if (i == number && travelling_stands_at s slot.now) (is_traveller_marked self.old i s) }
        ensures below { (s : ℕ) → 64 ≤ s → travelling_stands_at s slot.now ≡ false }
    {
        if let Some(held) = slot {
            self.flip(number, held.get().here());
        }
    }

    // Flips the mark of the packet at the switch, and its block's if it is the only one there.
    fn flip(&mut self, number: usize, switch: u32)
        requires room { number + 64 ≤ length self.old }
        requires switch { switch < 64 }
        ensures room { length self.new ≡ length self.old }
        ensures marks { (i s : ℕ) → s < 64 → is_traveller_marked self.new i s
            ≡ traveller_mark_flipped_if (i == number && switch == s) (is_traveller_marked self.old i s) }
    {
        if !turn(&mut self.packets, number, switch) {
            return;
        }
        if !turn(&mut self.blocks, number / 64, switch) {
            return;
        }
        let _ = turn(&mut self.groups, number / 64 / 64, switch);
    }

    /// The least number, `from` or above, of a packet that is marked at the switch, if any.
    pub fn next(&self, from: usize, switch: u32) -> Option<usize>
        requires { switch < 64 }
        ensures { IsNextTravellerMarked self.now switch from result }
    {
        if let Some(packet) = next_traveller_mark_in_block(&self.packets, from, switch) {
            return Some(packet);
        }
        match next_traveller_by_blocks(&self.blocks, &self.groups, from / 64 + 1, switch) {
            Some(block) => Some(first_traveller_of_block(&self.packets, block, switch)),
            None => None,
        }
    }
}

// Makes sure that there is a mask for this number at each switch.
fn make_traveller_masks(masks: &mut Vec<u64>, number: usize) -> Result<(), AllocError>
    requires { number < 4_294_967_296 }
    ensures room { OnOk result (number + 64 ≤ length masks.new.items) }
    ensures grown { length masks.old.items ≤ length masks.new.items }
    ensures few { length masks.new.items ≤ max (length masks.old.items) (number + 64) }
    ensures same { (j : ℕ) → slice_index_or masks.new.items j 0
        ≡ slice_index_or masks.old.items j 0 }
{
    while masks.len() < number + 64 {
        masks.push(0)?;
    }
    Ok(())
}

// Flips the mark of the number at the switch. Returns whether its block has marks there and had
// none, or has none and had one.
fn turn(masks: &mut Vec<u64>, number: usize, switch: u32) -> bool
    requires room { number + 64 ≤ length masks.old.items }
    requires switch { switch < 64 }
    ensures room { length masks.new.items ≡ length masks.old.items }
    ensures marks { (i s : ℕ) → s < 64 → is_traveller_marked masks.new.items i s
        ≡ traveller_mark_flipped_if (i == number && switch == s) (is_traveller_marked masks.old.items i s) }
    ensures blocks { (block s : ℕ) → s < 64 → has_traveller_marks masks.new.items block s
        ≡ traveller_mark_flipped_if (result && (block == number / 64 && switch == s))
        (has_traveller_marks masks.old.items block s) }
{
    let place = number / 64 * 64 + switch as usize;
    let old = masks[place];
    let new = old ^ only_if(true, (number % 64) as u32);
    masks[place] = new;
    // Not both are: one of them has the mark.
    (old == 0) | (new == 0)
}

// The least number at or above `from` that is marked at the switch, if there is one, by the marks
// of the blocks. It looks at those of 64 blocks at once.
fn next_traveller_by_blocks(
    masks: &[u64],
    blocks: &[u64],
    from: usize,
    switch: u32,
) -> Option<usize>
    requires blocks { AreTravellerBlockMarks masks.now blocks.now }
    requires switch { switch < 64 }
    ensures { IsNextTravellerMarked masks.now switch from result }
{
    if let Some(number) = next_traveller_mark_in_block(masks, from, switch) {
        return Some(number);
    }
    match next_traveller_mark(blocks, from / 64 + 1, switch) {
        Some(block) => Some(first_traveller_of_block(masks, block, switch)),
        None => None,
    }
}

// The least number at or above `from` that is marked at the switch, if there is one. It looks at
// 64 at once.
fn next_traveller_mark(masks: &[u64], from: usize, switch: u32) -> Option<usize>
    requires { switch < 64 }
    ensures { IsNextTravellerMarked masks.now switch from result }
{
    let mut next = from;
    while next / 64 * 64 + (switch as usize) < masks.len() {
        if let Some(number) = next_traveller_mark_in_block(masks, next, switch) {
            return Some(number);
        }
        next = (next / 64 + 1) * 64;
    }
    None
}

// The same, if that number is in the block of `from`; otherwise `None`.
fn next_traveller_mark_in_block(masks: &[u64], from: usize, switch: u32) -> Option<usize>
    requires { switch < 64 }
    ensures { IsNextTravellerInBlock masks.now switch from result }
{
    let place = from / 64 * 64 + switch as usize;
    if place >= masks.len() {
        return None;
    }
    let rest = masks[place] >> (from % 64);
    if rest == 0 {
        return None;
    }
    Some(from + rest.trailing_zeros() as usize)
}

// The least number of the block that is marked at the switch.
fn first_traveller_of_block(masks: &[u64], block: usize, switch: u32) -> usize
    requires switch { switch < 64 }
    requires some { has_traveller_marks masks.now block switch ≡ true }
    ensures { IsLeastTravellerMarked masks.now switch (block * 64) result }
{
    block * 64 + masks[block * 64 + switch as usize].trailing_zeros() as usize
}
