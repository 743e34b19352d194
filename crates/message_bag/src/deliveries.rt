#![tactic(auto, using(crate::proofs::BagWaitingStatuses::changed_from))]

ghost use Rattle.std.specs.Prelude.{◌≡◌, ◌<◌, ◌+◌, ◌-◌, ◌^◌, [], ◌∷◌, ◌++◌, List, length, IsTrue, OnOk, OnErr};
ghost use Rattle.message_bag.specs.Deliveries.{bag_delivered_status, bag_forgotten_status, is_deliverable, bag_post_may_be_delivered, next_waiting, bag_waiting_status, bag_post_waits, IsFirstWaitingInBag};
ghost use Rattle.message_bag.specs.Numbered.{bag_with_changed};
ghost use Rattle.message_bag.specs.declared.deliveries.MessageState.{MessageState};

use std::alloc::{AllocError, Global};
use std::marker::Model;

/// What became of a message.
#[derive(Clone, Copy, Debug, Drop)]
pub struct MessageState {
    /// It was delivered at least once.
    pub delivered: bool,
    /// It is never delivered again.
    pub forgotten: bool,
}

impl MessageState {
    // The state of a message that is posted now.
    fn waiting() -> MessageState
        ensures { result ≡ bag_waiting_status }
    {
        MessageState {
            delivered: false,
            forgotten: false,
        }
    }

    // Whether it was never delivered and isn't forgotten.
    fn waits(self) -> bool
        ensures { result ≡ bag_post_waits self }
    {
        !self.delivered && !self.forgotten
    }
}

/// What became of at most 2^32 - 1 messages, which are numbered from 1, wherever their frames are
/// kept. Contracts see the list.
#[derive(Drop)]
pub struct Deliveries {
    statuses: Vec<MessageState>,
    // No message up to this number waits, and the next one does, if there is one. It only rises,
    // and each search begins after it, so that all flushes together look at each message once.
    passed: u32,
}

impl Model for Deliveries {
    ghost use Rattle.std.specs.Prelude.{List};
    ghost use Rattle.message_bag.specs.Deliveries.{AreBagMessagesPassed};
    ghost use Rattle.message_bag.specs.declared.deliveries.MessageState.{MessageState};

    ghost Value = { List MessageState };

    ghost view = { λ d. d.statuses.items };

    ghost invariant = { λ d. AreBagMessagesPassed d.passed d.statuses.items };
}

impl Deliveries {
    /// No messages; it allocates nothing yet.
    pub fn new(alloc: Global) -> Deliveries
        ensures { result ≡ [] }
    {
        Deliveries {
            statuses: Vec::new(alloc),
            passed: 0,
        }
    }

    /// Adds a message, which waits.
    ///
    /// # Errors
    /// Only out of memory; then nothing changes.
    pub fn add(&mut self) -> Result<(), AllocError>
        requires { length self.old < 2 ^ 32 - 1 }
        ensures added { OnOk result (self.new ≡ self.old ++ bag_waiting_status ∷ []) }
        ensures unchanged { OnErr result (self.new ≡ self.old) }
    {
        self.statuses.push(MessageState::waiting())?;
        Ok(())
    }

    /// Removes the last message, which waits.
    pub(crate) fn take_back(&mut self)
        requires { (before : List MessageState) × (self.old ≡ before ++ bag_waiting_status ∷ []) }
        ensures { (before : List MessageState) → self.old ≡ before ++ bag_waiting_status ∷ []
            → self.new ≡ before }
    {
        self.statuses.truncate(self.statuses.len() - 1);
    }

    /// How many messages there are.
    pub fn count(&self) -> u32
        ensures { result ≡ length self.now }
    {
        self.statuses.len() as u32
    }

    /// Whether there is a message of this number that isn't forgotten.
    pub fn may_be_delivered(&self, number: u32) -> bool
        ensures { result ≡ is_deliverable self.now number }
    {
        if number == 0 {
            return false;
        }
        match self.statuses.get(number as usize - 1) {
            Some(status) => !status.forgotten,
            None => false,
        }
    }

    /// Notes that the message of this number was delivered, perhaps again.
    pub fn deliver(&mut self, number: u32)
        requires { IsTrue (is_deliverable self.old number) }
        ensures { self.new ≡ bag_with_changed bag_delivered_status self.old number }
    {
        self.statuses[number as usize - 1].delivered = true;
        self.passed = first_waiting_message(&self.statuses, self.passed);
    }

    /// Forgets the message of this number: it is never delivered again.
    pub fn forget(&mut self, number: u32)
        requires { IsTrue (is_deliverable self.old number) }
        ensures { self.new ≡ bag_with_changed bag_forgotten_status self.old number }
    {
        self.statuses[number as usize - 1].forgotten = true;
        self.passed = first_waiting_message(&self.statuses, self.passed);
    }

    /// The least number at or above `from` of a message that was never delivered and isn't
    /// forgotten; `None` exactly if there is none.
    pub fn next_waiting(&self, from: u32) -> Option<u32>
        ensures { result ≡ next_waiting self.now from }
    {
        let start = from.saturating_sub(1).max(self.passed);
        let place = first_waiting_message(&self.statuses, start);
        if place < self.count() {
            Some(place + 1)
        } else {
            None
        }
    }
}

// The least place at or above this one of a message that waits; if there is none, the number of
// messages, or this place if it is greater.
fn first_waiting_message(statuses: &[MessageState], from: u32) -> u32
    requires { length statuses.now < 2 ^ 32 }
    ensures { IsFirstWaitingInBag statuses.now from result }
{
    for place in from..statuses.len() as u32 {
        if statuses[place as usize].waits() {
            return place;
        }
    }
    from.max(statuses.len() as u32)
}
