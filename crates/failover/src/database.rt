ghost use Rattle.std.specs.Prelude.{◌≡◌, ◌<◌, map, ◌↔◌, slice_set, IfSome, IsTrue};
ghost use Rattle.std.specs.Bool.{OnTrue};
ghost use Rattle.failover.specs.Exports.{IsFailoverTargetIsolated, IsRoute, IsRouteList, adverts_after_hearing, first_adverts, first_failover_advert_below, held_advert, is_failover_target_isolated, is_advert_news, failover_known_links, neighbours_named_by_advert, no_adverts, route_of};

use crate::advert::Advert;
use crate::down_set::DownSet;
use crate::links::is_linkless;
use crate::path::Route;
use crate::search::first_route;
use base::MAX_SWITCHES;
use policy_rules::Targets;
use std::marker::Model;

/// The newest advert that a switch heard from each origin below 64, if any. Contracts see the list
/// of 64, by origin.
#[derive(Debug, Drop)]
pub struct Database {
    adverts: [Option<Advert>; 64],
    // The neighbours that each advert names, kept so that no route has to collect them.
    named: [u64; 64],
}

impl Model for Database {
    ghost use Rattle.std.specs.Prelude.{List, Option};
    ghost use Rattle.failover.specs.declared.advert.Advert.{Advert};
    ghost use Rattle.failover.specs.Isolated.{IsAdvertDatabase};

    ghost Value = { List (Option Advert) };

    ghost view = { λ d. d.adverts };

    ghost invariant = { λ d. IsAdvertDatabase d.adverts d.named };
}

impl Database {
    ghost use Rattle.failover.specs.Newest.{AreAdvertsByOrigin};

    /// The first adverts, of boot 1 and seq 1: bit k of a switch's mask in `near` says that it has
    /// a link to switch k.
    ///
    /// Only the switches below `switches` have one.
    pub fn begin(near: &[u64; 64], switches: u32) -> Database
        ensures { result ≡ first_adverts near.now switches }
    {
        let mut adverts = [None; 64];
        for origin in 0..MAX_SWITCHES {
            adverts[origin as usize] = first_advert(near, switches, origin);
        }
        Database::of(adverts)
    }

    /// A database without adverts.
    pub fn empty() -> Database
        ensures { result ≡ no_adverts }
    {
        Database::of([None; 64])
    }

    // The database of these adverts, each at the place of its origin.
    fn of(adverts: [Option<Advert>; 64]) -> Database
        requires { AreAdvertsByOrigin adverts }
        ensures { result ≡ adverts }
    {
        let named = link_state_neighbours_named(&adverts);
        Database { adverts, named }
    }

    /// Keeps the advert and returns true exactly if it is news. Otherwise nothing changes.
    pub fn hear(&mut self, advert: &Advert) -> bool
        ensures news { result ≡ is_advert_news self.old advert.now }
        ensures after { self.new ≡ adverts_after_hearing self.old advert.now }
    {
        if !self.is_news(advert) {
            return false;
        }
        self.adverts[advert.origin as usize] = Some(*advert);
        self.named[advert.origin as usize] = advert.up;
        true
    }

    /// Whether the advert is news: its origin is below 64, and there is none of that origin, or
    /// this one is newer.
    #[tactic(auto, unfolding(crate::specs::Adverts::is_advert_news))]
    pub fn is_news(&self, advert: &Advert) -> bool
        ensures news { result ≡ is_advert_news self.now advert.now }
        ensures switch { OnTrue result (advert.now.origin < 64) }
    {
        advert.origin < MAX_SWITCHES
            && match &self.adverts[advert.origin as usize] {
                None => true,
                Some(held) => advert.is_newer(held),
            }
    }

    /// The advert of this origin; `None` exactly if there is none.
    pub fn get(&self, origin: u32) -> Option<Advert>
        ensures held { result ≡ held_advert self.now origin }
        ensures origin { IfSome result (λ advert. advert.origin ≡ origin) }
        ensures by_origin { AreAdvertsByOrigin self.now }
    {
        if origin < MAX_SWITCHES {
            self.adverts[origin as usize]
        } else {
            None
        }
    }

    /// The route of `from` to the first target, in order, that a path of known links reaches: a
    /// path with the fewest links, and of those the least as a list. `None` exactly if no path
    /// reaches any target.
    ///
    /// A link is known if both ends name each other, `from` by the mask `near` and every other
    /// switch by its advert, and if it isn't in `down` (RFC 2328, section 16.1).
    pub fn route(&self, from: u32, targets: &Targets, near: u64, down: &DownSet) -> Option<Route>
        ensures value { result ≡ route_of self.now from targets.now near down.now }
        ensures route { IsRoute (failover_known_links self.now from near down.now) from targets.now result }
        ensures list { IfSome result IsRouteList }
    {
        let mut neighbours = self.named;
        set_own_link_state(&mut neighbours, from, near);
        first_route(&neighbours, down, from, targets.items())
    }

    /// Whether the target is another switch, and no known link ends at it.
    #[tactic(auto, unfolding(crate::specs::Isolated::is_failover_target_isolated))]
    pub fn isolated(&self, at: u32, target: u32, near: u64, down: &DownSet) -> bool
        ensures value { result ≡ is_failover_target_isolated self.now at target near down.now }
        ensures isolated { IsTrue result ↔
            IsFailoverTargetIsolated (failover_known_links self.now at near down.now) at target }
    {
        if target == at {
            return false;
        }
        let mut neighbours = self.named;
        set_own_link_state(&mut neighbours, at, near);
        is_linkless(&neighbours, down, target)
    }
}

// Replaces the neighbours that this switch named by those that it sees.
fn set_own_link_state(neighbours: &mut [u64; 64], at: u32, near: u64)
    ensures { neighbours.new ≡ slice_set neighbours.old at near }
{
    if at < MAX_SWITCHES {
        neighbours[at as usize] = near;
    }
}

// The neighbours that each of these adverts names.
fn link_state_neighbours_named(adverts: &[Option<Advert>; 64]) -> [u64; 64]
    ensures { result ≡ map neighbours_named_by_advert adverts.now }
{
    let mut named = [0; 64];
    for origin in 0..64 {
        named[origin] = neighbours_named_by_advert(&adverts[origin]);
    }
    named
}

// The neighbours that an advert names, if there is one.
fn neighbours_named_by_advert(advert: &Option<Advert>) -> u64
    ensures { result ≡ neighbours_named_by_advert advert.now }
{
    match advert {
        None => 0,
        Some(advert) => advert.up,
    }
}

// The first advert of a switch; `None` if there is no switch of this number.
fn first_advert(near: &[u64; 64], switches: u32, origin: u32) -> Option<Advert>
    requires { origin < 64 }
    ensures { result ≡ first_failover_advert_below near.now switches origin }
{
    (origin < switches).then_some(Advert {
        origin,
        boot: 1,
        seq: 1,
        up: near[origin as usize],
    })
}
