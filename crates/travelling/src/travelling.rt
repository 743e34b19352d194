//! The packets on their way: a table by their numbers, which grows as the journal does.
//!
//! A slot has at most 16 bytes, and a packet takes it when it first travels: slots are pushed, so
//! n packets take O(n) in all. What is known of a packet is kept on the heap, and freed when the
//! packet no longer travels. Its route is that of the journal's item, and a hop writes only the
//! place on it, so a hop allocates nothing. The first number moves past the slots of packets that
//! ended, so that a drain after each of n packets passes each slot once, O(n) in all. Packets are
//! marked where they are, so that a search for those at a switch looks at no other packet's slot.
//! No slot is freed before the end, as in a journal.
ghost use Rattle.std.specs.Prelude.{◌≡◌, ◌+◌, ◌<◌, ◌≤◌, ℕ, max, [], Some, None, is_some, option_map, length, slice_set, IfOk, IsSome, OnOk};
ghost use Rattle.std.specs.Option.{IsSomeAnd, option_copied};
ghost use Rattle.travelling.specs.Travelling.{AreTravellersMarked, TravellingFlightHasPlace, IsNextTravellerAt, IsNextTravellerFrom, TravellingStandBelow, TravellingWithOne, travelling_flight_placed_at, flight, traveller_standing_kept};

use crate::held_flight::HeldFlight;
use crate::no_links::NoLinks;
use crate::standing::Standing;
use crate::stored_flight::StoredFlight;
use crate::switch_index::TravellerSwitchIndex;
use journal::SharedLinks;
use std::alloc::{AllocError, Global};
use std::marker::Model;

/// The packets on their way. Contracts see what is known of the packet of each number that travels.
#[derive(Drop)]
pub struct Travelling {
    slots: Vec<Option<HeldFlight>>,
    // No packet below it travels.
    first: usize,
    // Where packets are.
    by_switch: TravellerSwitchIndex,
    // The empty set, which all packets share that found no link down.
    no_links: NoLinks,
}

impl Model for Travelling {
    ghost use Rattle.travelling.specs.Travelling.{IsTravellingTable, TravellingFlights};

    ghost Value = { TravellingFlights };

    ghost view = { λ t. t.slots.items };

    ghost invariant = { λ t. IsTravellingTable t.slots.items t.first t.by_switch };
}

impl Travelling {
    /// A table without packets; it allocates nothing yet.
    pub fn new(alloc: Global) -> Travelling
        ensures { result ≡ [] }
    {
        Travelling {
            slots: Vec::new(alloc),
            first: 0,
            by_switch: TravellerSwitchIndex::new(alloc),
            no_links: NoLinks::new(),
        }
    }

    /// Whether the packet travels.
    pub fn has(&self, packet: u32) -> bool
        ensures { result ≡ is_some (flight self.now packet) }
    {
        matches!(self.slots.get(packet as usize), Some(Some(_)))
    }

    /// What is kept of the packet; `None` if it doesn't travel.
    pub fn look(&self, packet: u32) -> Option<&StoredFlight>
        ensures { option_copied result ≡ flight self.now packet }
    {
        match self.slots.get(packet as usize) {
            Some(Some(held)) => Some(held.get()),
            _ => None,
        }
    }

    /// Puts a packet on its way, with what is kept of it.
    ///
    /// # Errors
    /// Only out of memory.
    pub fn put(&mut self, packet: u32, kept: StoredFlight) -> Result<(), AllocError>
        ensures { OnOk result (TravellingWithOne self.old packet (Some kept) self.new) }
    {
        let number = packet as usize;
        let held = HeldFlight::new(*self.slots.allocator(), kept)?;
        let first = if self.first < self.slots.len() {
            self.first.min(number)
        } else {
            number
        };
        self.by_switch.make_bits(number)?;
        make_traveller_slot(&mut self.slots, number)?;
        set_packet_slot(&mut self.slots, &mut self.by_switch, number, Some(held));
        self.first = first;
        Ok(())
    }

    /// Moves the packet to this place of its route. Allocates nothing.
    pub fn move_to(&mut self, packet: u32, place: u32)
        requires { IsSomeAnd (flight self.old packet) (TravellingFlightHasPlace place) }
        ensures { TravellingWithOne self.old packet
            (option_map (travelling_flight_placed_at place) (flight self.old packet)) self.new }
    {
        move_packet_slot(&mut self.slots, &mut self.by_switch, packet as usize, place);
    }

    /// Removes the packet: it no longer travels. Returns whether it did.
    pub fn remove(&mut self, packet: u32) -> bool
        ensures was { result ≡ is_some (flight self.old packet) }
        ensures after { TravellingWithOne self.old packet None self.new }
    {
        if !self.has(packet) {
            return false;
        }
        set_packet_slot(&mut self.slots, &mut self.by_switch, packet as usize, None);
        self.first = first_held_packet(&self.slots, self.first);
        true
    }

    /// The set of the links that the packet found down, shared. All packets that found none down
    /// share one set.
    ///
    /// # Errors
    /// Only out of memory.
    pub fn links_of(&mut self, alloc: Global, at: Standing) -> Result<SharedLinks, AllocError>
        ensures links { IfOk result (λ links. links ≡ (traveller_standing_kept at).down) }
        ensures same { self.new ≡ self.old }
    {
        match at.down {
            None => self.no_links.share(alloc),
            Some(links) => Ok(links),
        }
    }

    /// The least number at or above `from` of a packet that travels; `None` if there is none.
    pub fn next(&self, from: u32) -> Option<u32>
        ensures { IsNextTravellerFrom self.now from result }
    {
        let number = first_held_packet(&self.slots, self.first.max(from as usize));
        if number < self.slots.len() {
            Some(number as u32)
        } else {
            None
        }
    }

    /// The least number at or above `from` of a packet at the switch; `None` if there is none.
    pub fn next_at(&self, from: usize, switch: u32) -> Option<u32>
        ensures { IsNextTravellerAt self.now switch from result }
    {
        let by_switch = &self.by_switch;
        if switch >= 64 {
            return None;
        }
        match by_switch.next(from, switch) {
            Some(number) => Some(number as u32),
            None => None,
        }
    }
}

// Makes sure that there is a slot of this number. Each new one is pushed, so that n of them take
// O(n) in all.
#[tactic(auto, using(crate::proofs::TravellingTable::pushed_same))]
fn make_traveller_slot(slots: &mut Vec<Option<HeldFlight>>, number: usize) -> Result<(), AllocError>
    ensures room { OnOk result (number < length slots.new.items) }
    ensures few { length slots.new.items ≤ max (length slots.old.items) (number + 1) }
    ensures same { (i : ℕ) → flight slots.new.items i ≡ flight slots.old.items i }
{
    while slots.len() <= number {
        slots.push(None)?;
    }
    Ok(())
}

// The least number at or above `from` of a slot that holds a packet; if there is none, a number
// beyond the slots.
fn first_held_packet(slots: &[Option<HeldFlight>], from: usize) -> usize
    ensures from { from ≤ result }
    ensures empty { (i : ℕ) → from ≤ i → i < result → flight slots.now i ≡ None }
    ensures held { result < length slots.now → IsSome (flight slots.now result) }
{
    let mut number = from;
    while number < slots.len() && slots[number].is_none() {
        number += 1;
    }
    number
}

// Replaces what the slot holds, and marks its packet where it is.
fn set_packet_slot(
    slots: &mut Vec<Option<HeldFlight>>,
    by_switch: &mut TravellerSwitchIndex,
    number: usize,
    slot: Option<HeldFlight>,
)
    requires within { number < length slots.old.items }
    requires room { number + 64 ≤ length by_switch.old }
    requires marked { AreTravellersMarked slots.old.items by_switch.old }
    requires below { TravellingStandBelow slots.old.items }
    ensures slots { slots.new.items ≡ slice_set slots.old.items number slot }
    ensures room { length by_switch.new ≡ length by_switch.old }
    ensures marked { AreTravellersMarked slots.new.items by_switch.new }
    ensures below { TravellingStandBelow slots.new.items }
{
    by_switch.mark_slot(number, &slots[number]);
    by_switch.mark_slot(number, &slot);
    slots[number] = slot;
}

// Moves the packet of the slot to this place of its route, and marks it there.
fn move_packet_slot(
    slots: &mut Vec<Option<HeldFlight>>,
    by_switch: &mut TravellerSwitchIndex,
    number: usize,
    place: u32,
)
    requires held { IsSomeAnd (flight slots.old.items number) (TravellingFlightHasPlace place) }
    requires room { number + 64 ≤ length by_switch.old }
    requires marked { AreTravellersMarked slots.old.items by_switch.old }
    requires below { TravellingStandBelow slots.old.items }
    ensures slots { slots.new.items ≡ slice_set slots.old.items number
        (option_map (travelling_flight_placed_at place) (flight slots.old.items number)) }
    ensures room { length by_switch.new ≡ length by_switch.old }
    ensures marked { AreTravellersMarked slots.new.items by_switch.new }
    ensures below { TravellingStandBelow slots.new.items }
{
    by_switch.mark_slot(number, &slots[number]);
    if let Some(held) = &mut slots[number] {
        held.move_to(place);
    }
    by_switch.mark_slot(number, &slots[number]);
}
