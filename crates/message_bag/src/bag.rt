ghost use Rattle.std.specs.Prelude.{◌≡◌, ◌<◌, ◌-◌, ◌^◌, ◌↔◌, ◌⊎◌, [], None, true, length, IfOk, IfSome, IsNone, IsSome, OnOk};
ghost use Rattle.ctrl_msg.specs.declared.message.Body.TheVariants.{Install};
ghost use Rattle.wire.specs.Messages.{message as form};
ghost use Rattle.message_bag.specs.KeptFrames.{IsPostedInBag, bag_tables_version};
ghost use Rattle.message_bag.specs.Feeding.{HasShortBagSpelling};
ghost use Rattle.message_bag.specs.Numbered.{HasPosted, bag_item_numbered};
ghost use Rattle.message_bag.specs.Posts.{IsBagPostLike, bag_posted_frames};

use crate::firsts::Firsts;
use crate::reading::{bag_message_of_frame, tables_of};
use crate::tables::{BagTableFrames, spell_bag_install};
use ctrl_msg::{Message, SharedTables};
use std::alloc::{AllocError, Global};
use std::marker::Model;
use wire::{append, set_wire_receiver};

/// The messages that were posted, numbered from 1 in their order. Contracts see their frames.
#[derive(Drop)]
pub struct Bag {
    firsts: Firsts,
    tables: Vec<BagTableFrames>,
    // The first frame of the message that is posted now.
    scratch: Vec<u8>,
}

impl Model for Bag {
    ghost use Rattle.std.specs.Prelude.{List, ℕ, All, map};
    ghost use Rattle.message_bag.specs.KeptFrames.{AreBagKeptFrames, bag_frames_in};

    ghost Value = { List (List (List ℕ)) };

    ghost view = { λ b. map (bag_frames_in b.tables.items) b.firsts };

    ghost invariant = { λ b. All (AreBagKeptFrames b.tables.items) b.firsts };
}

impl Bag {
    /// A bag in which nothing was posted; it allocates nothing yet.
    pub fn new(alloc: Global) -> Bag
        ensures { result ≡ [] }
    {
        Bag {
            firsts: Firsts::new(alloc),
            tables: Vec::new(alloc),
            scratch: Vec::new(alloc),
        }
    }

    /// Posts a message, and returns its number: one more than there were messages.
    ///
    /// # Errors
    /// Only out of memory, or if the first frames of earlier messages have 2^32 bytes or more;
    /// then nothing changes.
    #[inline(always)]
    pub fn post(&mut self, message: &Message) -> Result<u32, AllocError>
        requires spelling { HasShortBagSpelling message.now }
        requires few { length self.old < 2 ^ 32 - 1 }
        ensures fits { OnOk result (form.fits message.now ≡ true) }
        ensures posted { HasPosted result (bag_posted_frames message.now) self.old self.new }
    {
        let alloc = *self.tables.allocator();
        match tables_of(&message.body) {
            None => self.post_alone(message),
            Some((boot, tables)) => self.post_tables(alloc, message, boot, tables),
        }
    }

    /// Posts the message of this number again, and returns its new number. It isn't encoded again,
    /// and its frames aren't kept again.
    ///
    /// # Errors
    /// Only out of memory; then nothing changes.
    pub fn repeat(&mut self, number: u32) -> Result<u32, AllocError>
        requires there { IsSome (bag_item_numbered self.old number) }
        requires few { length self.old < 2 ^ 32 - 1 }
        ensures posted { IfSome (bag_item_numbered self.old number)
            (λ frames. HasPosted result frames self.old self.new) }
    {
        self.firsts.repeat(number as usize - 1)
    }

    /// Posts a message that differs at most in its receiver from the one of this number, and
    /// returns its own number. It isn't encoded: its first frame is a copy of that one's.
    ///
    /// # Errors
    /// Only out of memory, or if the first frames of earlier messages have 2^32 bytes or more;
    /// then nothing changes.
    pub fn post_like(&mut self, message: &Message, number: u32) -> Result<u32, AllocError>
        requires spelling { HasShortBagSpelling message.now }
        requires like { IsBagPostLike self.old number message.now }
        requires few { length self.old < 2 ^ 32 - 1 }
        ensures fits { OnOk result (form.fits message.now ≡ true) }
        ensures posted { HasPosted result (bag_posted_frames message.now) self.old self.new }
    {
        let Some((frame, tables)) = self.firsts.get(number as usize - 1) else {
            unreachable!();
        };
        self.scratch.clear();
        self.scratch.extend_from_slice(frame)?;
        set_wire_receiver(&mut self.scratch, message.to);
        self.firsts.push(&self.scratch, tables)
    }

    // Posts a message that is no installation: it has one frame.
    #[inline(always)]
    fn post_alone(&mut self, message: &Message) -> Result<u32, AllocError>
        requires spelling { HasShortBagSpelling message.now }
        requires few { length self.old < 2 ^ 32 - 1 }
        requires message_of_frame { bag_tables_version message.now.body ≡ None }
        ensures fits { OnOk result (form.fits message.now ≡ true) }
        ensures posted { HasPosted result (bag_posted_frames message.now) self.old self.new }
    {
        self.scratch.clear();
        self.scratch.extend_from_slice(&[0, 0, 0, 0, 0, 0, 0, 1])?;
        append(&mut self.scratch, message)?;
        self.firsts.push(&self.scratch, None)
    }

    // Posts an installation of these tables.
    fn post_tables(
        &mut self,
        alloc: Global,
        message: &Message,
        boot: u32,
        tables: &SharedTables,
    ) -> Result<u32, AllocError>
        requires spelling { HasShortBagSpelling message.now }
        requires few { length self.old < 2 ^ 32 - 1 }
        requires carries { message.now.body ≡ Install boot tables.now }
        ensures fits { OnOk result (form.fits message.now ≡ true) }
        ensures posted { HasPosted result (bag_posted_frames message.now) self.old self.new }
    {
        let number = spell_bag_install(
            &mut self.tables,
            &mut self.scratch,
            alloc,
            message,
            boot,
            tables,
        )?;
        self.firsts.push(&self.scratch, Some(number))
    }

    /// The message of this number, out of its frames; `None` exactly if none was posted under it.
    ///
    /// # Errors
    /// Only out of memory.
    pub fn take(&self, number: u32) -> Result<Option<Message>, AllocError>
        ensures none { IfOk result (λ answer.
            IsNone answer ↔ ((number ≡ 0) ⊎ (length self.now < number))) }
        ensures message { IfOk result (λ answer.
            IfSome answer (λ message. IsPostedInBag self.now number message)) }
    {
        let alloc = *self.tables.allocator();
        if number == 0 {
            return Ok(None);
        }
        match self.firsts.get(number as usize - 1) {
            None => Ok(None),
            Some((frame, None)) => Ok(Some(bag_message_of_frame(alloc, frame)?)),
            Some((frame, Some(kept))) => {
                let message = self.tables[kept].message(alloc, frame)?;
                Ok(Some(message))
            }
        }
    }
}
