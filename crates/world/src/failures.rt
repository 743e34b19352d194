//! Switches and links that fail and come back.
ghost use Rattle.steps.specs.declared.step.Step.TheVariants.{Crash as CrashStep, Restart as RestartStep};
ghost use Rattle.refinement.specs.Links.{refined_link_step};
ghost use Rattle.world.specs.Parts.{WorldStepHasBegun, WorldPlaysStep};

use crate::parts::WorldParts;
use base::has;
use journal::Item;
use std::alloc::{AllocError, Global};
use world_log::{hello, set_world_log_link};

impl WorldParts {
    /// The switch goes down, unless it is down already: it loses what it learnt, and the packets
    /// there are lost. The switches at the other ends of its usable links send new adverts.
    ///
    /// # Errors
    /// Only out of memory; then a part of the items is written.
    pub fn crash(&mut self, alloc: Global, switch: u32) -> Result<(), AllocError>
        requires { WorldStepHasBegun (CrashStep switch) self.old }
        ensures { WorldPlaysStep (CrashStep switch) result self.old self.new }
    {
        if !self.switches[switch as usize].is_up() {
            return self.log.journal.push(Item::Nothing);
        }
        self.switches[switch as usize].crash();
        self.log.journal.push(Item::Down { switch })?;
        self.log.lose_at(switch)?;
        self.change_links(alloc)
    }

    /// The switch comes up again, closed, in its next boot, and sends the controller its boot.
    /// Nothing happens if it is up.
    ///
    /// # Errors
    /// Only out of memory; then a part of the items is written.
    pub fn restart(&mut self, alloc: Global, switch: u32) -> Result<(), AllocError>
        requires { WorldStepHasBegun (RestartStep switch) self.old }
        ensures { WorldPlaysStep (RestartStep switch) result self.old self.new }
    {
        let here = switch as usize;
        if self.switches[here].is_up() {
            return self.log.journal.push(Item::Nothing);
        }
        let boot = self.switches[here].restart();
        self.log.journal.push(Item::Booted { switch, boot })?;
        self.log.send(alloc, hello(switch, boot))
    }

    /// The link of two switches comes back, or fails, at both of its ends, and the switches whose
    /// usable links changed send their neighbours adverts. Nothing happens if the link is in that
    /// state already.
    ///
    /// # Errors
    /// Only out of memory; then a part of the items is written.
    pub fn set_link(
        &mut self,
        alloc: Global,
        one: u32,
        two: u32,
        up: bool,
    ) -> Result<(), AllocError>
        requires { WorldStepHasBegun (refined_link_step up one two) self.old }
        ensures { WorldPlaysStep (refined_link_step up one two) result self.old self.new }
    {
        if has(self.links[one as usize], two) == up {
            return self.log.journal.push(Item::Nothing);
        }
        set_world_log_link(&mut self.links, one, two, up);
        self.log.journal.push(Item::LinkIs {
            one: one.min(two),
            two: one.max(two),
            up,
        })?;
        self.change_links(alloc)
    }
}
