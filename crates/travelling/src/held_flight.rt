//! Packets that are kept on the heap, so that the slot of one that ended takes few bytes.
ghost use Rattle.std.specs.Prelude.{◌≡◌, IfOk};
ghost use Rattle.travelling.specs.Travelling.{TravellingFlightHasPlace, travelling_flight_placed_at};

use crate::stored_flight::StoredFlight;
use std::alloc::{AllocError, Global};
use std::marker::Model;

/// What the table keeps of a packet on its way, on the heap. Contracts see the packet in flight.
#[derive(Drop)]
pub struct HeldFlight {
    kept: Box<StoredFlight>,
}

const _: () = prove!(size_of::<Option<HeldFlight>>() <= 16);

impl Model for HeldFlight {
    ghost use Rattle.travelling.specs.Travelling.{TravellingFlight};

    ghost Value = { TravellingFlight };

    ghost view = { λ held. held.kept.value };
}

impl HeldFlight {
    /// What is kept of the packet, on the heap.
    ///
    /// # Errors
    /// Only out of memory.
    pub fn new(alloc: Global, kept: StoredFlight) -> Result<HeldFlight, AllocError>
        ensures { IfOk result (λ held. held ≡ kept) }
    {
        let kept = Box::new(alloc, kept)?;
        Ok(HeldFlight { kept })
    }

    /// What is kept of the packet.
    pub fn get(&self) -> &StoredFlight
        ensures { result.now ≡ self.now }
    {
        &self.kept
    }

    /// Moves the packet to this place of its route. Allocates nothing.
    pub fn move_to(&mut self, place: u32)
        requires { TravellingFlightHasPlace place self.old }
        ensures { self.new ≡ travelling_flight_placed_at place self.old }
    {
        self.kept.move_to(place);
    }
}
