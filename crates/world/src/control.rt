//! The controller's part: policies that are updated, switches that are confirmed as down, and what
//! is sent again because it may have been lost. That is the hello and the adverts of a switch, and
//! what the controller didn't hear that it has.
ghost use Rattle.std.specs.Prelude.{◌≡◌, ◌==◌, ◌++◌, length, map};
ghost use Rattle.controller.specs.declared.sends.Act.TheVariants.{Post};
ghost use Rattle.steps.specs.declared.step.Step.TheVariants.{Confirm as ConfirmStep, Resend as ResendStep, Update as UpdateStep};
ghost use Rattle.world.specs.Parts.{WorldStepHasBegun, WorldPlaysStep};

use crate::codes::{TOO_MANY_LIVE, TOO_MANY_VERSIONS};
use crate::files::Compiled;
use crate::parts::WorldParts;
use base::Failure;
use controller::{Act, SubmitError};
use journal::{Item, Message};
use std::alloc::{AllocError, Global};
use world_log::world_log_adverts_again;

impl WorldParts {
    /// Makes the file's policy, or the one that its change makes, the newest version. If there is
    /// none, or it has no plan, or the controller refuses it, writes the code of that refusal.
    ///
    /// # Errors
    /// Only out of memory; then a part of the items is written.
    pub fn update(&mut self, alloc: Global, file: u32) -> Result<(), AllocError>
        requires { WorldStepHasBegun (UpdateStep file) self.old }
        ensures { WorldPlaysStep (UpdateStep file) result self.old self.new }
    {
        let (plan, touched) = match self.files.compiled(alloc, file as usize - 1)? {
            Compiled::Refused { code } => {
                return self.log.journal.push(Item::Refused { file, code });
            }
            Compiled::Planned(plan, touched) => (plan, touched),
        };
        let newest = plan.clone()?;
        let version = self.controller.marks().count() + 1;
        let code = match self.controller.submit(plan, touched) {
            Ok(sends) => {
                self.files.set_newest(newest);
                self.log.journal.push(Item::Submitted { file, version })?;
                return self.log.note_acts(alloc, sends.into_items());
            }
            Err(Failure::Refused(SubmitError::TooManyLive)) => TOO_MANY_LIVE,
            Err(Failure::Refused(SubmitError::TooManyVersions)) => TOO_MANY_VERSIONS,
            Err(Failure::NoMemory) => return Err(AllocError),
        };
        self.log.journal.push(Item::Refused { file, code })
    }

    /// The controller learns that the switch is down, and no longer waits for it. Nothing happens
    /// if the switch is up.
    ///
    /// # Errors
    /// Only out of memory; then a part of the items is written.
    pub fn confirm(&mut self, alloc: Global, switch: u32) -> Result<(), AllocError>
        requires { WorldStepHasBegun (ConfirmStep switch) self.old }
        ensures { WorldPlaysStep (ConfirmStep switch) result self.old self.new }
    {
        if self.switches[switch as usize].is_up() {
            return self.log.journal.push(Item::Nothing);
        }
        let sends = self.controller.over(switch)?;
        self.log.journal.push(Item::OverNow { switch })?;
        self.log.note_acts(alloc, sends.into_items())
    }

    /// A switch that is up sends its boot to the controller again, and all adverts that it has to
    /// its neighbours; then the controller sends again what the switch didn't acknowledge. Nothing
    /// happens if there is nothing to send.
    ///
    /// # Errors
    /// Only out of memory; then a part of the items is written.
    pub fn resend(&mut self, alloc: Global, switch: u32) -> Result<(), AllocError>
        requires { WorldStepHasBegun (ResendStep switch) self.old }
        ensures { WorldPlaysStep (ResendStep switch) result self.old self.new }
    {
        let here = switch as usize;
        let count = self.switches.len() as u32;
        let near = self.near[here];
        let messages = world_log_adverts_again(alloc, &self.switches[here], switch, count, near)?;
        let sends = self.controller.resend(switch)?;
        let acts = sends.into_items();
        if world_sends_are_none(messages.as_slice(), acts.as_slice()) {
            return self.log.journal.push(Item::Nothing);
        }
        self.log.send_and_note(alloc, messages, acts)
    }
}

// Whether there is nothing to send.
fn world_sends_are_none(messages: &[Message], acts: &[Act]) -> bool
    ensures { result ≡ (length (map Post messages.now ++ acts.now) == 0) }
{
    messages.is_empty() && acts.is_empty()
}
