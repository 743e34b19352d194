ghost use Rattle.std.specs.Prelude.{◌≡◌, ◌∷◌, [], All, IfOk, IfSome, Some, unwrap_or};
ghost use Rattle.std.specs.Option.{option_copied};
ghost use Rattle.failover.specs.Exports.{adverts_after_hearing, is_advert_news, no_adverts, no_failover_links, route_of};
ghost use Rattle.switch_core.specs.Routes.{IsSwitchRouteBy};

use base::Shared;
use failover::{Advert, Database, DownSet, Route};
use policy_rules::Targets;
use std::alloc::{AllocError, Global};
use std::marker::Model;

/// The most routes that are kept at once.
const MAX_KEPT: usize = 64;

/// A route of `from` to one target, for packets that found no link down.
#[derive(Drop)]
pub struct KeptRoute {
    from: u32,
    target: u32,
    /// A bit for each switch to which `from` has a usable link.
    near: u64,
    route: Shared<Route>,
}

/// The adverts that a switch has, and routes that it found by them, so that packets share these.
/// Contracts see the adverts.
#[derive(Drop)]
pub struct SwitchRoutes {
    database: Database,
    kept: Vec<KeptRoute>,
}

impl Model for SwitchRoutes {
    ghost use Rattle.std.specs.Prelude.{List, Option, All};
    ghost use Rattle.failover.specs.declared.advert.Advert.{Advert};
    ghost use Rattle.switch_core.specs.Routes.{IsSwitchRouteBy};

    ghost Value = { List (Option Advert) };

    ghost view = { λ w. w.database };

    ghost invariant = { λ w. All (IsSwitchRouteBy w.database) w.kept.items };
}

impl SwitchRoutes {
    /// These adverts, without routes; it allocates nothing yet.
    pub fn new(alloc: Global, database: Database) -> SwitchRoutes
        ensures { result ≡ database }
    {
        SwitchRoutes {
            database,
            kept: Vec::new(alloc),
        }
    }

    /// The adverts.
    pub fn database(&self) -> &Database
        ensures { result.now ≡ self.now }
    {
        &self.database
    }

    /// Keeps the advert if it is news, as `Database::hear` does, and drops the kept routes.
    pub fn hear(&mut self, advert: &Advert) -> bool
        ensures news { result ≡ is_advert_news self.old advert.now }
        ensures after { self.new ≡ adverts_after_hearing self.old advert.now }
    {
        self.kept.clear();
        self.database.hear(advert)
    }

    /// Removes all adverts.
    pub fn clear(&mut self)
        ensures { self.new ≡ no_adverts }
    {
        self.kept.clear();
        self.database = Database::empty();
    }

    /// A route to the first of the targets that is reachable without the links found down; `None`
    /// if no target is reachable. If `down` is `None`, the callers share the route.
    ///
    /// # Errors
    /// Only out of memory.
    pub fn to_first(
        &mut self,
        alloc: Global,
        from: u32,
        targets: &Targets,
        near: u64,
        down: Option<&DownSet>,
    ) -> Result<Option<Shared<Route>>, AllocError>
        ensures route { IfOk result (λ found. found ≡ route_of self.old from targets.now near
            (unwrap_or (option_copied down.entry) no_failover_links)) }
        ensures same { self.new ≡ self.old }
    {
        if let Some(links) = down {
            return self.own_route(alloc, from, targets, near, links);
        }
        if let Some(route) = self.kept_route(from, targets.items()[0], near) {
            return Ok(Some(route.clone()?));
        }
        self.find_route(alloc, from, targets, near)
    }

    // The kept route to this target; `None` if there is none.
    fn kept_route(&self, from: u32, target: u32, near: u64) -> Option<&Shared<Route>>
        ensures { IfSome result (λ route.
            route_of self.now from (target ∷ []) near no_failover_links ≡ Some route.now) }
    {
        for way in &self.kept {
            if way.target == target && way.near == near && way.from == from {
                return Some(&way.route);
            }
        }
        None
    }

    // Finds a route, and keeps it if it leads to the first of all targets.
    #[cold]
    #[inline(never)]
    fn find_route(
        &mut self,
        alloc: Global,
        from: u32,
        targets: &Targets,
        near: u64,
    ) -> Result<Option<Shared<Route>>, AllocError>
        ensures route { IfOk result (λ found. found ≡ route_of self.old from targets.now near
            no_failover_links) }
        ensures same { self.new ≡ self.old }
    {
        let target = targets.items()[0];
        let alone = Targets::new(&[target]).unwrap();
        let down = DownSet::empty();
        let Some(route) = self.own_route(alloc, from, &alone, near, &down)? else {
            return self.own_route(alloc, from, targets, near, &down);
        };
        if self.kept.len() >= MAX_KEPT {
            self.kept.clear();
        }
        self.kept.push(KeptRoute {
            from,
            target,
            near,
            route: route.clone()?,
        })?;
        Ok(Some(route))
    }

    // A route without these links, which no other packet shares yet.
    #[cold]
    #[inline(never)]
    fn own_route(
        &self,
        alloc: Global,
        from: u32,
        targets: &Targets,
        near: u64,
        down: &DownSet,
    ) -> Result<Option<Shared<Route>>, AllocError>
        ensures { IfOk result (λ found. found ≡ route_of self.now from targets.now near down.now) }
    {
        match self.database.route(from, targets, near, down) {
            None => Ok(None),
            Some(route) => Ok(Some(Shared::new(alloc, route)?)),
        }
    }
}
