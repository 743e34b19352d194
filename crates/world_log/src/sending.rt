//! Messages that are sent one after another, and what the controller does, written into the log.
ghost use Rattle.std.specs.Prelude.{◌≡◌, ◌+◌, ◌^◌, ◌<◌, ◌++◌, ◌∷◌, [], OnOk, OnErr, length, map};
ghost use Rattle.message_bag.specs.Posts.{new_bag_post};
ghost use Rattle.controller.specs.declared.sends.Act.TheVariants.{Post};
ghost use Rattle.update_machine.specs.Messages.{machine_sent_items_from};
ghost use Rattle.world_log.specs.Sending.{LogHasNoted, IsLoggedActSpelled, LogMayNote, LogMaySend, log_act_item, log_act_post};
ghost use Rattle.world_log.specs.Writing.{IsLogPart};

use crate::log::Log;
use controller::Act;
use journal::{Item, Message};
use std::alloc::{AllocError, Global};

impl Log {
    /// Sends the messages, each under the next number.
    ///
    /// # Errors
    /// Only out of memory; then a part of the items is written.
    pub fn send_all(&mut self, alloc: Global, messages: Vec<Message>) -> Result<(), AllocError>
        requires { LogMaySend self.old.bag messages.items }
        ensures written { OnOk result (self.new.journal
            ≡ self.old.journal ++ machine_sent_items_from (length self.old.bag + 1) messages.items) }
        ensures posted { OnOk result (self.new.bag
            ≡ self.old.bag ++ map new_bag_post messages.items) }
        ensures part { OnErr result (IsLogPart self.old.journal
            (machine_sent_items_from (length self.old.bag + 1) messages.items) self.new.journal) }
        ensures travelling { self.new.travelling ≡ self.old.travelling }
    {
        for message in messages {
            self.send(alloc, message)?;
        }
        Ok(())
    }

    /// Writes the controller's acts in order, and sends their messages.
    ///
    /// # Errors
    /// Only out of memory; then a part of the items is written.
    pub fn note_acts(&mut self, alloc: Global, acts: Vec<Act>) -> Result<(), AllocError>
        requires { LogMayNote self.old.bag acts.items }
        ensures { LogHasNoted result acts.items self.old self.new }
    {
        for act in acts {
            self.note(alloc, act)?;
        }
        Ok(())
    }

    /// Sends the messages, and then writes the controller's acts.
    ///
    /// # Errors
    /// Only out of memory; then a part of the items is written.
    pub fn send_and_note(
        &mut self,
        alloc: Global,
        messages: Vec<Message>,
        acts: Vec<Act>,
    ) -> Result<(), AllocError>
        requires { LogMayNote self.old.bag (map Post messages.items ++ acts.items) }
        ensures { LogHasNoted result (map Post messages.items ++ acts.items) self.old self.new }
    {
        self.send_all(alloc, messages)?;
        self.note_acts(alloc, acts)
    }

    // Writes that one mark rises, or sends one message; out of memory, it writes nothing.
    fn note(&mut self, alloc: Global, act: Act) -> Result<(), AllocError>
        requires few { length self.old.bag + length (log_act_post act) < 2 ^ 32 }
        requires spelled { IsLoggedActSpelled act }
        ensures written { OnOk result (self.new.journal
            ≡ self.old.journal ++ log_act_item (length self.old.bag + 1) act ∷ []) }
        ensures posted { OnOk result (self.new.bag ≡ self.old.bag ++ log_act_post act) }
        ensures unwritten { OnErr result (self.new.journal ≡ self.old.journal) }
        ensures travelling { self.new.travelling ≡ self.old.travelling }
    {
        match act {
            Act::Current(version) => self.journal.push(Item::Current { version }),
            Act::Retired(version) => self.journal.push(Item::Retired { version }),
            Act::Post(message) => self.send(alloc, message),
        }
    }
}
