//! Messages that are delivered: which switch hears them, and what is sent in reply.
ghost use Rattle.std.specs.Prelude.{◌≡◌, ◌+◌, ◌-◌, ◌^◌, ◌<◌, ◌≤◌, ◌++◌, All, OnOk, OnErr, length, map};
ghost use Rattle.message_bag.specs.Posts.{new_bag_post};
ghost use Rattle.controller.specs.Exports.{ControllerValue, ControllerReplyNamesExist, ControllerSettlesWith, controller_hear_acts, controller_marks_after, controller_newest_policy};
ghost use Rattle.steps.specs.declared.step.Step.TheVariants.{Deliver as DeliverStep};
ghost use Rattle.update_machine.specs.Messages.{machine_sent_items_from};
ghost use Rattle.world_log.specs.Linking.{AreLogSwitchesRelinked, log_all_adverts_sent, logged_near_all};
ghost use Rattle.world.specs.Parts.{WorldStepHasBegun, WorldPartsKeepRest, WorldPlaysStep};
ghost use Rattle.world_log.specs.Sending.{LogMayNote, LogMaySend, log_act_items, log_act_posts};
ghost use Rattle.world_log.specs.Writing.{IsLogPart};

use crate::parts::WorldParts;
use controller::Controller;
use journal::{Body, Item, Place};
use std::alloc::{AllocError, Global};
use world_log::{Log, usable, world_log_relink};

impl WorldParts {
    /// Delivers a message: its switch or the controller hears it, and sends its replies. A switch
    /// that opens changes which links are usable. Nothing happens if it can't be delivered.
    ///
    /// # Errors
    /// Only out of memory; then a part of the items is written.
    pub fn deliver(&mut self, alloc: Global, number: u32) -> Result<(), AllocError>
        requires { WorldStepHasBegun (DeliverStep number) self.old }
        ensures { WorldPlaysStep (DeliverStep number) result self.old self.new }
    {
        let message = match self.log.bag.get(number)? {
            None => return self.log.journal.push(Item::Nothing),
            Some(message) => message,
        };
        self.log.bag.deliver(number);
        self.log.journal.push(Item::Delivered { number })?;
        let switch = match message.to {
            Place::Switch(switch) => switch,
            Place::Controller => {
                return deliver_to_controller(
                    alloc,
                    &mut self.log,
                    &mut self.controller,
                    &message.body,
                );
            }
        };
        let near = self.near[switch as usize];
        let heard = self.switches[switch as usize].hear(number, &message.body, near)?;
        match heard.opened {
            None => self.log.send_all(alloc, heard.replies.into_items()),
            Some(version) => {
                self.log.journal.push(Item::Opened { switch, version })?;
                self.change_links(alloc)
            }
        }
    }

    /// Finds the usable links again after a link or a switch changed; the switches whose usable
    /// links changed send their neighbours adverts.
    ///
    /// # Errors
    /// Only out of memory; then a part of the items is written.
    pub fn change_links(&mut self, alloc: Global) -> Result<(), AllocError>
        requires many { length self.old.switches.items ≤ 64 }
        requires next { All (λ switch. switch.seq < 2 ^ 32 - 1) self.old.switches.items }
        requires may { LogMaySend self.old.log.bag (log_all_adverts_sent self.old.near
            (logged_near_all self.old.links self.old.switches.items) self.old.switches.items) }
        ensures near { OnOk result
            (self.new.near ≡ logged_near_all self.old.links self.old.switches.items) }
        ensures switches { OnOk result (AreLogSwitchesRelinked self.old.near
            (logged_near_all self.old.links self.old.switches.items)
            self.old.switches.items self.new.switches.items) }
        ensures written { OnOk result (self.new.log.journal ≡ self.old.log.journal
            ++ machine_sent_items_from (length self.old.log.bag + 1) (log_all_adverts_sent self.old.near
            (logged_near_all self.old.links self.old.switches.items) self.old.switches.items)) }
        ensures posted { OnOk result (self.new.log.bag ≡ self.old.log.bag
            ++ map new_bag_post (log_all_adverts_sent self.old.near
            (logged_near_all self.old.links self.old.switches.items) self.old.switches.items)) }
        ensures part { OnErr result (IsLogPart self.old.log.journal
            (machine_sent_items_from (length self.old.log.bag + 1) (log_all_adverts_sent self.old.near
            (logged_near_all self.old.links self.old.switches.items) self.old.switches.items))
            self.new.log.journal) }
        ensures rest { WorldPartsKeepRest self.old self.new }
    {
        let now = usable(&self.links, &self.switches);
        let messages = world_log_relink(alloc, &mut self.switches, &self.near, &now)?;
        self.near = now;
        self.log.send_all(alloc, messages)
    }
}

// The controller hears the message, and does what follows from it.
fn deliver_to_controller(
    alloc: Global,
    log: &mut Log,
    controller: &mut Controller,
    body: &Body,
) -> Result<(), AllocError>
    requires there { ControllerReplyNamesExist body.now controller.old.marks }
    requires may { (new : ControllerValue)
        → ControllerSettlesWith (controller_marks_after body.now controller.old.marks) controller.old.plans new
        → LogMayNote log.old.bag (controller_hear_acts body.now controller.old.marks new) }
    ensures after { ControllerSettlesWith
        (controller_marks_after body.now controller.old.marks) controller.old.plans controller.new }
    ensures newest { controller_newest_policy controller.new ≡ controller_newest_policy controller.old }
    ensures written { OnOk result (log.new.journal ≡ log.old.journal
        ++ log_act_items (length log.old.bag + 1)
        (controller_hear_acts body.now controller.old.marks controller.new)) }
    ensures posted { OnOk result (log.new.bag ≡ log.old.bag
        ++ log_act_posts (controller_hear_acts body.now controller.old.marks controller.new)) }
    ensures part { OnErr result (IsLogPart log.old.journal (log_act_items (length log.old.bag + 1)
        (controller_hear_acts body.now controller.old.marks controller.new)) log.new.journal) }
    ensures travelling { log.new.travelling ≡ log.old.travelling }
{
    let sends = controller.hear(body)?;
    log.note_acts(alloc, sends.into_items())
}
