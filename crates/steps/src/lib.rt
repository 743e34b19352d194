//! Steps and events: what a row of a schedule does to a network.
//!
//! A `Step` is one thing that happens at once: a packet enters or moves on by one link, a
//! message is delivered, a switch crashes. An `Event` is one step, or as many steps as are needed
//! until nothing is on its way. Switches are named by their numbers from 0, packets, messages and
//! policy files by theirs from 1.
//!
//! `IsStep` of `specs/Steps.antt` says which steps a network may take: code that reads steps
//! ensures it, and code that plays them may require it.
#![tactic(auto)]

mod step;

pub use five_tuple::{Fields, Header};
pub use step::{Event, MAX_EVENTS, MAX_NUMBER, Step};
