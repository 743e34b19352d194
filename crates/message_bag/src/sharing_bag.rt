//! A bag that shares an advert with the last equal one of its switch to its receiver: the message,
//! and its frames. An advert to another receiver is not encoded again.
ghost use Rattle.std.specs.Prelude.{◌≡◌, ◌<◌, ◌-◌, ◌^◌, [], ℕ, None, Some, get_or, length, IfOk, IfSome, IsTrue, OnOk};
ghost use Rattle.message_bag.specs.Feeding.{HasShortBagSpelling};
ghost use Rattle.message_bag.specs.Numbered.{HasPosted};
ghost use Rattle.message_bag.specs.Posts.{bag_posted_frames, bag_returned_number};
ghost use Rattle.message_bag.specs.Sharing.{AreAdvertsPostedInBag};

use crate::bag::Bag;
use base::{MAX_SWITCHES, Shared};
use ctrl_msg::{Body, Message, Place};
use std::alloc::{AllocError, Global};
use std::marker::Model;

/// An advert that was posted, and its number.
#[derive(Drop)]
pub struct PostedAdvert {
    message: Shared<Message>,
    number: u32,
}

/// The messages that were posted, numbered from 1 in their order. Contracts see their frames.
#[derive(Drop)]
pub struct SharingBag {
    bag: Bag,
    // First for each switch its last advert that `post_shared` encoded; then for each receiver and
    // each switch the switch's last advert that it posted to the receiver.
    last: Vec<Option<PostedAdvert>>,
}

impl Model for SharingBag {
    ghost use Rattle.std.specs.Prelude.{List, ℕ};
    ghost use Rattle.message_bag.specs.Sharing.{AreAdvertsPostedInBag};

    ghost Value = { List (List (List ℕ)) };

    ghost view = { λ b. b.bag };

    ghost invariant = { λ b. AreAdvertsPostedInBag b.bag b.last.items };
}

impl SharingBag {
    /// A bag in which nothing was posted; it allocates nothing yet.
    pub fn new(alloc: Global) -> SharingBag
        ensures { result ≡ [] }
    {
        SharingBag {
            bag: Bag::new(alloc),
            last: Vec::new(alloc),
        }
    }

    /// The bag that has their frames.
    pub fn bag(&self) -> &Bag
        ensures { result.now ≡ self.now }
    {
        &self.bag
    }

    /// Posts a message, and returns its number, one more than there were messages, and the message,
    /// shared. If it is an advert that is equal to the last one of its switch to its receiver, both
    /// share the message and its frames.
    ///
    /// # Errors
    /// Only out of memory, or if the first frames of earlier messages have 2^32 bytes or more;
    /// then nothing changes.
    #[inline(always)]
    #[tactic(auto, using(crate::proofs::BagRepeatedMessages::same_advert))]
    pub fn post_shared(
        &mut self,
        alloc: Global,
        message: Message,
    ) -> Result<(u32, Shared<Message>), AllocError>
        requires spelling { HasShortBagSpelling message }
        requires few { length self.old < 2 ^ 32 - 1 }
        ensures message { IfOk result (λ both. both.1 ≡ message) }
        ensures posted { HasPosted (bag_returned_number result) (bag_posted_frames message) self.old self.new }
    {
        let Some(place) = bag_place_of_advert(&message) else {
            let shared = Shared::new(alloc, message)?;
            let number = self.bag.post(shared.get())?;
            return Ok((number, shared));
        };
        match find(&self.last, place, &message) {
            Some(last) if last.message.get().to == message.to => {
                let shared = last.message.clone()?;
                let number = self.bag.repeat(last.number)?;
                Ok((number, shared))
            }
            _ => {
                let shared = Shared::new(alloc, message)?;
                let number = self.post_advert(place, &shared)?;
                Ok((number, shared))
            }
        }
    }

    // Posts an advert, which is the last one of this place from now on.
    #[inline(never)]
    fn post_advert(&mut self, place: usize, message: &Shared<Message>) -> Result<u32, AllocError>
        requires place { place < 4160 }
        requires spelling { HasShortBagSpelling message.now }
        requires few { length self.old < 2 ^ 32 - 1 }
        ensures { HasPosted result (bag_posted_frames message.now) self.old self.new }
    {
        let shared = message.clone()?;
        make_bag_advert_place(&mut self.last, place)?;
        let origin = place % MAX_SWITCHES as usize;
        let number = post_new_bag_advert(&mut self.bag, &mut self.last, origin, message)?;
        self.last[place] = Some(PostedAdvert {
            message: shared,
            number,
        });
        Ok(number)
    }
}

// Posts an advert that isn't its switch's last one to its receiver. It is encoded only if it isn't
// its switch's last one that was encoded.
fn post_new_bag_advert(
    bag: &mut Bag,
    adverts: &mut Vec<Option<PostedAdvert>>,
    origin: usize,
    advert: &Shared<Message>,
) -> Result<u32, AllocError>
    requires there { origin < length adverts.old.items }
    requires adverts { AreAdvertsPostedInBag bag.old adverts.old.items }
    requires spelling { HasShortBagSpelling advert.now }
    requires few { length bag.old < 2 ^ 32 - 1 }
    ensures posted { HasPosted result (bag_posted_frames advert.now) bag.old bag.new }
    ensures adverts { AreAdvertsPostedInBag bag.new adverts.new.items }
    ensures as_many { length adverts.new.items ≡ length adverts.old.items }
{
    if let Some(last) = find(adverts, origin, advert.get()) {
        return bag.post_like(advert.get(), last.number);
    }
    let message = advert.clone()?;
    let number = bag.post(advert.get())?;
    adverts[origin] = Some(PostedAdvert { message, number });
    Ok(number)
}

// The advert of this place, if its body is equal to this message's.
fn find<'a>(
    adverts: &'a [Option<PostedAdvert>],
    place: usize,
    message: &Message,
) -> Option<&'a PostedAdvert>
    ensures same { IfSome result (λ last. last.now.message.body ≡ message.now.body) }
    ensures there { IfSome result (λ last. get_or adverts.now place None ≡ Some last.now) }
{
    match adverts.get(place) {
        Some(Some(last)) if are_same_bag_adverts(&last.message.get().body, &message.body) => Some(
            last,
        ),
        _ => None,
    }
}

// The place of an advert to a switch, after the 64 places of the switches' last adverts; `None` for
// any other message. Its remainder by 64 is the switch whose advert it is.
fn bag_place_of_advert(message: &Message) -> Option<usize>
    ensures { IfSome result (λ place. place < 4160) }
{
    match (message.to, &message.body) {
        (Place::Switch(to), Body::Advertise { advert }) => {
            let row = to % MAX_SWITCHES + 1;
            let place = row * MAX_SWITCHES + advert.origin % MAX_SWITCHES;
            Some(place as usize)
        }
        _ => None,
    }
}

// Makes sure that there is this place, by pushing empty ones.
#[tactic(auto, using(crate::proofs::BagRepeatedMessages::padded_same))]
fn make_bag_advert_place(
    adverts: &mut Vec<Option<PostedAdvert>>,
    place: usize,
) -> Result<(), AllocError>
    requires { place < 4160 }
    ensures there { OnOk result (place < length adverts.new.items) }
    ensures same { (k : ℕ) → get_or adverts.new.items k None ≡ get_or adverts.old.items k None }
{
    while adverts.len() <= place {
        adverts.push(None)?;
    }
    Ok(())
}

// Whether both are the same advert.
fn are_same_bag_adverts(one: &Body, other: &Body) -> bool
    ensures { IsTrue result → one.now ≡ other.now }
{
    match (one, other) {
        (Body::Advertise { advert }, Body::Advertise { advert: same }) => advert == same,
        _ => false,
    }
}
