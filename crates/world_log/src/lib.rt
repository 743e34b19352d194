//! What happened in a network so far, with the packets that are on their way and the messages that
//! were sent, what each result of a switch for a packet does to them, and which links are usable.
//!
//! Each call of a `Log` writes exactly the items that the definitions state for the result, and
//! posts the messages that it sends under the next numbers. Of the packets on their way it changes
//! only the one that it names, or at a crash those that are there. `hop` takes all switches, and
//! changes only the packet's own. If memory runs out, the journal has a part of the items. How the
//! items depend on earlier ones is stated by the crates that use this one, such as `refinement`.
//!
//! A link is usable if it is up and both of its ends serve. `usable` returns these links as masks.
//! `world_log_relink` returns what is sent when they change: each switch that is up and whose
//! usable links changed makes its next advert, and sends it over each link that it had, and all
//! that it knows over each new one. `link_masks` and `set_world_log_link` keep which links are up,
//! and `world_log_adverts_again` is what a switch sends again.
//!
//! ```text
//! let site = SwitchSite { near: near[0], ports: &ports };
//! log.enter(alloc, 1, &header, &mut switches[0], site)?;
//! log.hop(alloc, 1, &mut switches, &near, &ports)?;
//! log.send(alloc, message)?;
//! let now = usable(&links, &switches);
//! for message in world_log_relink(alloc, &mut switches, &near, &now)? { .. }
//! ```
#![tactic(auto)]

mod again;
mod log;
mod losing;
mod packets;
mod sending;
mod up_links;
mod usable_links;

pub use again::{hello, world_log_adverts_again};
pub use log::Log;
pub use switch_core::SwitchSite;
pub use up_links::{link_masks, set_world_log_link};
pub use usable_links::{usable, world_log_relink};
