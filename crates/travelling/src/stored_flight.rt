ghost use Rattle.std.specs.Prelude.{◌≡◌, ◌<◌, IfOk};
ghost use Rattle.tunnel.specs.Moves.{here, next};
ghost use Rattle.travelling.specs.Travelling.{TravellingFlightHasPlace, travelling_flight_begun_at, travelling_flight_placed_at, traveller_standing_at, traveller_standing_kept, travels_by};

use crate::standing::Standing;
use five_tuple::Header;
use journal::{SharedLinks, SharedRoute};
use policy_rules::{Leg, Targets};
use std::alloc::{AllocError, Global};
use std::marker::Model;
use tunnel::Route;

/// What the table keeps of a packet on its way: its route is the one that the journal's item has,
/// and there is a set of links only if the packet found one down. Contracts see its flight.
#[derive(Drop)]
pub struct StoredFlight {
    packet: u32,
    header: Header,
    ingress: u32,
    leg: Leg,
    targets: Targets,
    route: SharedRoute,
    place: u32,
    down: Option<SharedLinks>,
    version: u32,
    rule: Option<u32>,
}

const _: () = prove!(size_of::<StoredFlight>() <= 104);

impl Model for StoredFlight {
    ghost use Rattle.tunnel.specs.Tunnel.{IsTunnelPlaceOnRoute};
    ghost use Rattle.travelling.specs.Travelling.{TravellingFlight, travelling_flight_kept};

    ghost Value = { TravellingFlight };

    ghost view = { travelling_flight_kept };

    ghost invariant = { λ k. IsTunnelPlaceOnRoute k.route k.place };
}

impl StoredFlight {
    /// What is kept of a packet that begins this route on its leg to these targets. The route and
    /// the set of links stay shared, and it allocates nothing.
    pub fn begin(at: Standing, leg: Leg, targets: Targets, route: SharedRoute) -> StoredFlight
        ensures { result
            ≡ travels_by (travelling_flight_begun_at (traveller_standing_kept at) leg targets route) at.version at.rule }
    {
        let _items = route.get().items();
        StoredFlight {
            packet: at.packet,
            header: at.header,
            ingress: at.ingress,
            leg,
            targets,
            route,
            place: 0,
            down: at.down,
            version: at.version,
            rule: at.rule,
        }
    }

    /// The packet at the switch where it is; the set of links stays shared.
    ///
    /// # Errors
    /// Only out of memory.
    pub fn standing(&self, switch: u32) -> Result<Standing, AllocError>
        ensures at { IfOk result (λ at. traveller_standing_kept at ≡ traveller_standing_at switch self.now) }
        ensures version { IfOk result (λ at. at.version ≡ self.now.version) }
        ensures rule { IfOk result (λ at. at.rule ≡ self.now.rule) }
    {
        let down = match &self.down {
            None => None,
            Some(links) => Some(links.clone()?),
        };
        Ok(Standing {
            packet: self.packet,
            header: self.header,
            ingress: self.ingress,
            switch,
            down,
            version: self.version,
            rule: self.rule,
        })
    }

    /// Its number.
    pub fn packet(&self) -> u32
        ensures { result ≡ self.now.tunnel.packet }
    {
        self.packet
    }

    /// The leg that it is on.
    pub fn leg(&self) -> Leg
        ensures { result ≡ self.now.tunnel.leg }
    {
        self.leg
    }

    /// The targets of its leg, the primary first.
    pub fn targets(&self) -> &Targets
        ensures { result.now ≡ self.now.tunnel.targets }
    {
        &self.targets
    }

    /// The switch where it is.
    pub fn here(&self) -> u32
        ensures here { result ≡ here self.now.tunnel }
        ensures switch { result < 64 }
    {
        self.route.get().items()[self.place as usize]
    }

    /// Its route, which begins at the switch where the packet took it.
    pub fn route(&self) -> &Route
        ensures { result.now ≡ self.now.tunnel.route }
    {
        self.route.get()
    }

    /// The place on its route, from 0.
    pub fn place(&self) -> u32
        ensures place { result ≡ self.now.tunnel.place }
        ensures few { result < 64 }
    {
        self.place
    }

    /// The next switch on its route; `None` exactly at the route's end.
    pub fn next(&self) -> Option<u32>
        ensures { result ≡ next self.now.tunnel }
    {
        self.route
            .get()
            .items()
            .get(self.place as usize + 1)
            .copied()
    }

    /// Moves the packet to this place of its route. Allocates nothing.
    pub fn move_to(&mut self, place: u32)
        requires { TravellingFlightHasPlace place self.old }
        ensures { self.new ≡ travelling_flight_placed_at place self.old }
    {
        self.place = place;
    }
}
