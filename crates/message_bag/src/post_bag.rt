ghost use Rattle.std.specs.Prelude.{◌≡◌, ◌<◌, ◌-◌, ◌^◌, [], length, is_some, IsTrue, IfOk, IfSome};
ghost use Rattle.message_bag.specs.Numbered.{HasPosted};
ghost use Rattle.message_bag.specs.Posts.{IsBagMessageOf, is_bag_post_deliverable, next_waiting_bag_post, new_bag_post, bag_returned_number, bag_posts_with_delivered, bag_posts_with_forgotten};
ghost use Rattle.message_bag.specs.Feeding.{HasShortBagSpelling};

use crate::deliveries::Deliveries;
use crate::sharing_bag::SharingBag;
use base::Shared;
use ctrl_msg::Message;
use std::alloc::{AllocError, Global};
use std::marker::Model;

/// The messages that were posted, numbered from 1 in their order: at most 2^32 - 1. Contracts see
/// the list of their frames, with whether each was delivered and whether it is forgotten.
#[derive(Drop)]
pub struct PostBag {
    frames: SharingBag,
    deliveries: Deliveries,
}

impl Model for PostBag {
    ghost use Rattle.std.specs.Prelude.{◌≡◌, List, length};
    ghost use Rattle.std.specs.List.{zip};
    ghost use Rattle.message_bag.specs.Posts.{Post};

    ghost Value = { List Post };

    ghost view = { λ b. zip b.frames b.deliveries };

    ghost invariant = { λ b. length b.frames ≡ length b.deliveries };
}

impl PostBag {
    /// A bag in which nothing was posted; it allocates nothing yet.
    pub fn new(alloc: Global) -> PostBag
        ensures { result ≡ [] }
    {
        PostBag {
            frames: SharingBag::new(alloc),
            deliveries: Deliveries::new(alloc),
        }
    }

    /// Posts a message, and returns its number, one more than there were messages, and the message,
    /// shared. If it is an advert that is equal to the last one of its switch to its receiver, both
    /// share the message and its frames.
    ///
    /// # Errors
    /// Only out of memory, or if the first frames of earlier messages have 2^32 bytes or more;
    /// then nothing changes.
    #[tactic(auto, using(crate::proofs::BagFramesByStatus::length_of_zip))]
    pub fn post_shared(
        &mut self,
        alloc: Global,
        message: Message,
    ) -> Result<(u32, Shared<Message>), AllocError>
        requires spelling { HasShortBagSpelling message }
        requires few { length self.old < 2 ^ 32 - 1 }
        ensures message { IfOk result (λ both. both.1 ≡ message) }
        ensures posted { HasPosted (bag_returned_number result) (new_bag_post message) self.old self.new }
    {
        self.deliveries.add()?;
        match self.frames.post_shared(alloc, message) {
            Ok(both) => Ok(both),
            Err(error) => {
                self.deliveries.take_back();
                Err(error)
            }
        }
    }

    /// How many messages were posted.
    #[tactic(auto, using(crate::proofs::BagFramesByStatus::length_of_zip))]
    pub fn sent(&self) -> u32
        ensures { result ≡ length self.now }
    {
        self.deliveries.count()
    }

    /// The message of this number, out of its frames; `None` exactly if none of this number was
    /// posted, or it is forgotten.
    ///
    /// # Errors
    /// Only out of memory.
    pub fn get(&self, number: u32) -> Result<Option<Message>, AllocError>
        ensures found { IfOk result (λ answer. is_some answer ≡ is_bag_post_deliverable self.now number) }
        ensures message { IfOk result (λ answer. IfSome answer (IsBagMessageOf self.now number)) }
    {
        if self.may_be_delivered(number) {
            self.frames.bag().take(number)
        } else {
            Ok(None)
        }
    }

    /// Whether a message of this number was posted and isn't forgotten.
    #[tactic(auto, using(crate::proofs::BagFramesByStatus::deliverable_same))]
    pub fn may_be_delivered(&self, number: u32) -> bool
        ensures { result ≡ is_bag_post_deliverable self.now number }
    {
        self.deliveries.may_be_delivered(number)
    }

    /// Notes that the message of this number was delivered, perhaps again.
    #[tactic(auto, using(crate::proofs::BagFramesByStatus::deliverable_same))]
    pub fn deliver(&mut self, number: u32)
        requires { IsTrue (is_bag_post_deliverable self.old number) }
        ensures { self.new ≡ bag_posts_with_delivered self.old number }
    {
        self.deliveries.deliver(number);
    }

    /// Forgets the message of this number: it is never delivered again.
    #[tactic(auto, using(crate::proofs::BagFramesByStatus::deliverable_same))]
    pub fn forget(&mut self, number: u32)
        requires { IsTrue (is_bag_post_deliverable self.old number) }
        ensures { self.new ≡ bag_posts_with_forgotten self.old number }
    {
        self.deliveries.forget(number);
    }

    /// The least number at or above `from` of a message that was never delivered and isn't
    /// forgotten; `None` exactly if there is none.
    pub fn next_waiting(&self, from: u32) -> Option<u32>
        ensures { result ≡ next_waiting_bag_post self.now from }
    {
        self.deliveries.next_waiting(from)
    }
}
