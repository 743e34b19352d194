ghost use Rattle.std.specs.Prelude.{◌≡◌, ◌≢◌, ◌+◌, ◌<◌, ℕ, IsTrue, slice_get};
ghost use Rattle.failover.specs.RouteList.{IsRouteList};
ghost use Rattle.switch_core.specs.declared.packet.Onward.TheVariants.{LinkDown};
ghost use Rattle.switch_core.specs.Exports.{SwitchStandsAtRoutePlace, switch_call_counted, switch_hop_onward, serves};

use crate::packet::Onward;
use crate::switch::Switch;
use base::has;
use failover::Route;

impl Switch {
    /// Where a packet that is here, at this place of its route, moves on; no tunnel is made for
    /// it. A link is down if it isn't usable.
    ///
    /// `near` has a bit for each switch to which there is a usable link.
    pub fn pass(&mut self, route: &Route, place: u32, near: u64) -> Onward
        requires serving { IsTrue (serves self.old) }
        requires here { SwitchStandsAtRoutePlace self.old route.now place }
        ensures onward { result ≡ switch_hop_onward near (slice_get route.now (place + 1)) }
        ensures other { (other : ℕ) → result ≡ LinkDown other
            → (other ≢ self.old.number) × (other < 64) }
        ensures after { self.new ≡ switch_call_counted self.old }
    {
        self.count();
        match switch_core_next_switch(route, place) {
            None => Onward::AtEnd,
            Some(next) if has(near, next) => Onward::Next(next),
            Some(next) => Onward::LinkDown(next),
        }
    }
}

// The switch after this place of the route; `None` at its end.
fn switch_core_next_switch(route: &Route, place: u32) -> Option<u32>
    ensures next { result ≡ slice_get route.now (place + 1) }
    ensures route { IsRouteList route.now }
{
    route.items().get(place as usize + 1).copied()
}
