//! The messages that were sent in a network and may still be delivered, as the bytes that travel.
//!
//! A `PostBag` has the frames of each message that was posted, under its number from 1. Until it
//! is forgotten it may be delivered, in any order and more than once, as by a network that loses,
//! duplicates and reorders what it carries: then the message is made out of its frames again. What
//! became of each is kept apart from the frames. Only `post_shared` and `get` allocate; when memory
//! runs out nothing changes.
//!
//! A `Bag` keeps only the frames of each message. All first frames are one after the other in one
//! vector, so that a message of a few bytes takes a few bytes. The other frames, of tables, are
//! shared by all installations of the same tables, for any boot and any switch. If an advert that
//! `post_shared` posts is equal to the last one of its switch to its receiver, both share the
//! message and the frames. Otherwise, if it is equal to the last one of its switch that was
//! encoded, its frame is a copy of that one's with the byte of the receiver changed. So an advert
//! that is flooded is encoded once for all neighbours. Tables that differ only in their versions
//! share all frames except the one that begins with the version, into which its four bytes are
//! written. So rows and partitions are encoded, cut, assembled and decoded once, and trees to find
//! a rule are built once. The messages that are taken share the tables that came out of the frames,
//! and a comparison with these finds tables that are the same.
//!
//! The laws say what an assembler returns for frames that come in any order and repeatedly.
//!
//! ```text
//! let mut bag = PostBag::new(alloc);
//! let (number, message) = bag.post_shared(alloc, message)?;
//! while let Some(number) = bag.next_waiting(1) {
//!     bag.deliver(number);
//! }
//! ```
#![tactic(auto)]

mod bag;
mod deliveries;
mod digest;
mod firsts;
mod laws;
mod post_bag;
mod reading;
mod sharing_bag;
mod tables;

pub use bag::Bag;
pub use deliveries::{Deliveries, MessageState};
pub use laws::{
    bag_frames_have_one_message, bag_frames_in_any_order, bag_frames_of_another_receiver,
    bag_frames_of_another_version, later_bag_frames_carry_tables,
};
pub use post_bag::PostBag;
