ghost use Rattle.std.specs.Prelude.{◌≡◌, ◌≢◌, ◌<◌, ◌+◌, ◌↔◌, length, is_some, slice_get, IfSome, IsSome};
ghost use Rattle.tunnel.specs.Moves.{tunnel_begun, here, next, advanced_tunnel, tunnel_marked_down, tunnel_route_from_here, tunnel_put_on_route};

use failover::{Database, DownSet, Route};
use five_tuple::Header;
use policy_rules::{Leg, Targets};
use std::marker::Model;

/// A packet on its way along a route. Contracts see its fields, with a place within the route.
#[derive(Clone, Copy, Debug, PartialEq, Eq)]
pub struct Tunnel {
    /// The packet's number.
    pub packet: u32,
    pub header: Header,
    /// The switch where the packet entered.
    pub ingress: u32,
    pub leg: Leg,
    /// The targets of the leg, the primary first.
    pub targets: Targets,
    pub route: Route,
    /// The place on the route, from 0.
    pub place: u32,
    /// The links that the packet found down.
    pub down: DownSet,
}

const _: () = prove!(size_of::<Tunnel>() < 900);

impl Model for Tunnel {
    ghost use Rattle.tunnel.specs.Tunnel.{TunnelValue, IsTunnelPlaceOnRoute};

    ghost Value = { TunnelValue };

    ghost view = { λ t. t };

    ghost invariant = { λ t. IsTunnelPlaceOnRoute t.route t.place };

    ghost inverse = { λ t. t };
}

impl Tunnel {
    ghost use Rattle.tunnel.specs.Tunnel.{IsTunnelPlaceOnRoute};

    /// A packet at the beginning of its route.
    pub fn begin(
        packet: u32,
        header: Header,
        ingress: u32,
        leg: Leg,
        targets: Targets,
        route: Route,
        down: DownSet,
    ) -> Tunnel
        ensures { result ≡ tunnel_begun packet header ingress leg targets route down }
    {
        // For the proof: reading the route yields the invariant `IsRouteList`.
        let _ = route.items();
        Tunnel {
            packet,
            header,
            ingress,
            leg,
            targets,
            route,
            place: 0,
            down,
        }
    }

    /// The switch where the packet is.
    pub fn here(&self) -> u32
        ensures here { result ≡ here self.now }
        ensures switch { result < 64 }
        ensures on_route { IsTunnelPlaceOnRoute self.now.route self.now.place }
    {
        self.route.items()[self.place as usize]
    }

    /// The next switch on the route; `None` exactly at the route's end.
    pub fn next(&self) -> Option<u32>
        ensures next { result ≡ next self.now }
        ensures more { IsSome result ↔ (self.now.place + 1 < length self.now.route) }
        ensures other { IfSome result (λ other. (other ≢ here self.now) × (other < 64)) }
    {
        tunnel_route_switch_after(&self.route, self.place)
    }

    /// Moves one place on.
    pub fn advance(&mut self)
        requires { self.old.place + 1 < length self.old.route }
        ensures { self.new ≡ advanced_tunnel self.old }
    {
        self.place += 1;
    }

    /// Adds the link between the packet's switch and this other one to the links found down.
    pub fn mark_down(&mut self, other: u32)
        requires different { other ≢ here self.old }
        requires switch { other < 64 }
        ensures { self.new ≡ tunnel_marked_down self.old other }
    {
        let here = self.here();
        self.down.add(here, other);
    }

    /// Puts the packet at the beginning of a new route: from here to the first of its targets that
    /// a path of known links, without those found down, reaches. Returns false exactly if there is
    /// none; then nothing changes.
    pub fn reroute(&mut self, base: &Database, near: u64) -> bool
        ensures found { result ≡ is_some (tunnel_route_from_here self.old base.now near) }
        ensures after { self.new ≡ tunnel_put_on_route self.old (tunnel_route_from_here self.old base.now near) }
    {
        match base.route(self.here(), &self.targets, near, &self.down) {
            None => false,
            Some(route) => {
                self.route = route;
                self.place = 0;
                true
            }
        }
    }
}

// The switch after this place on the route.
fn tunnel_route_switch_after(route: &Route, place: u32) -> Option<u32>
    ensures { result ≡ slice_get route.now (place + 1) }
{
    route.items().get(place as usize + 1).copied()
}
