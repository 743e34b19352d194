ghost use Rattle.std.specs.Prelude.{◌≡◌, IfErr, IfOk, None, Some, unwrap_or};
ghost use Rattle.std.specs.Option.{option_copied};
ghost use Rattle.base.specs.Refusals.{IfRefused};
ghost use Rattle.failover.specs.Exports.{no_failover_links, route_of};
ghost use Rattle.switch_core.specs.Exports.{are_switch_targets_isolated, switch_stuck_cause};

use crate::switch::Switch;
use base::{Failure, Shared};
use failover::{DownSet, Route};
use policy_rules::{Cause, Leg, Targets};
use std::alloc::Global;

impl Switch {
    /// The route of a packet that begins this leg here, to the first of its targets that it can
    /// reach, around the links that it found down, if any. No tunnel is made for it, and packets
    /// that found none down share their route.
    ///
    /// `near` has a bit for each switch to which there is a usable link.
    ///
    /// # Errors
    /// Why there is no route, or out of memory.
    pub fn shared_route(
        &mut self,
        alloc: Global,
        near: u64,
        down: Option<&DownSet>,
        leg: Leg,
        targets: &Targets,
    ) -> Result<Shared<Route>, Failure<Cause>>
        ensures route { IfOk result (λ route. route_of self.old.database self.old.number
            targets.now near (unwrap_or (option_copied down.entry) no_failover_links) ≡ Some route) }
        ensures refused { IfErr result (IfRefused (λ cause.
            (route_of self.old.database self.old.number targets.now near
            (unwrap_or (option_copied down.entry) no_failover_links) ≡ None)
            × (cause ≡ switch_stuck_cause self.old near (unwrap_or (option_copied down.entry) no_failover_links)
            leg targets.now))) }
        ensures same { self.new ≡ self.old }
    {
        let number = self.number;
        match self.database.to_first(alloc, number, targets, near, down)? {
            None => Err(Failure::Refused(self.why_stuck(near, down, &leg, targets))),
            Some(route) => Ok(route),
        }
    }

    // Why there is no route around these links.
    #[cold]
    #[inline(never)]
    fn why_stuck(&self, near: u64, down: Option<&DownSet>, leg: &Leg, targets: &Targets) -> Cause
        ensures { result ≡ switch_stuck_cause self.now near
            (unwrap_or (option_copied down.entry) no_failover_links) leg.now targets.now }
    {
        match down {
            None => self.cause(near, &DownSet::empty(), leg, targets),
            Some(links) => self.cause(near, links, leg, targets),
        }
    }

    /// Why a packet without a route on this leg is stuck.
    #[tactic(auto, unfolding(crate::specs::Ends::switch_stuck_cause))]
    pub(crate) fn cause(&self, near: u64, down: &DownSet, leg: &Leg, targets: &Targets) -> Cause
        ensures { result ≡ switch_stuck_cause self.now near down.now leg.now targets.now }
    {
        match leg {
            Leg::Seek { .. } if self.are_isolated(near, down, targets.items()) =>
                Cause::NoAuthority,
            _ => Cause::NoRoute,
        }
    }

    // Whether each of these is another switch, at which no known link ends.
    #[tactic(auto, unfolding(crate::specs::Ends::are_switch_targets_isolated))]
    fn are_isolated(&self, near: u64, down: &DownSet, targets: &[u32]) -> bool
        ensures { result ≡ are_switch_targets_isolated self.now near down.now targets.now }
    {
        let database = self.database.database();
        targets.iter().all(|target| database.isolated(self.number, *target, near, down))
    }
}
