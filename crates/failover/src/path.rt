ghost use Rattle.std.specs.Prelude.{◌≡◌, ◌-◌, ◌≤◌, take, drop, replicate};

use std::marker::Model;

/// One to 64 distinct switches below 64, in the order in which a packet passes them.
///
/// They are stored in place, without an allocation. Contracts see the list.
#[derive(Clone, Copy, Debug, PartialEq, Eq)]
pub struct Route {
    // The switches, and 0 at the places beyond the route's end.
    switches: [u32; 64],
    len: u8,
}

const _: () = prove!(size_of::<Route>() <= 264);

impl Model for Route {
    ghost use Rattle.std.specs.Prelude.{List, ℕ};
    ghost use Rattle.failover.specs.RouteList.{first_route_switches, IsFilledRouteList, filled_route_list, filled-first_route_switches};

    ghost Value = { List ℕ };

    ghost view = { first_route_switches };

    ghost invariant = { IsFilledRouteList };

    ghost inverse = { filled_route_list };

    ghost inverse_ok = { filled-first_route_switches };
}

impl Route {
    ghost use Rattle.failover.specs.RouteList.{IsRouteList};

    // The route of the first `len` switches of this array, which has 0 at all other places.
    pub(crate) fn new(switches: [u32; 64], len: u8) -> Route
        requires few { len ≤ 64 }
        requires rest { drop len switches ≡ replicate (64 - len) 0 }
        requires list { IsRouteList (take len switches) }
        ensures { result ≡ take len switches }
    {
        Route { switches, len }
    }

    /// The switches.
    pub fn items(&self) -> &[u32]
        ensures list { result.now ≡ self.now }
        ensures route { IsRouteList self.now }
    {
        &self.switches[..usize::from(self.len)]
    }
}
