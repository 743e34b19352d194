//! Journals in memory: what happened in a network, item by item, as values that share their routes
//! and messages.
//!
//! An `Item` is one record, and a `Journal` the list of them. Routes, sets of links and messages
//! are shared, and a leaving is packed, so that an item stays small and a clone of one copies none.
#![tactic(auto)]

mod item;
mod packed_leaving;
mod shared;

pub use ctrl_msg::{Body, Message, Place, SharedTables};
pub use failover::{Advert, DownSet, Route};
pub use five_tuple::Header;
pub use item::{Item, Journal};
pub use packed_leaving::PackedLeaving;
pub use policy_rules::{Action, Cause, How, Leaving, Leg};
pub use shared::{SharedLinks, SharedMessage, SharedRoute};
pub use steps::{Event, Step};
