//! The packets that are on their way, by their numbers.
//!
//! `Travelling` keeps what is known of each packet that travels: its tunnel, and the version and
//! the rule of its decision. Each call changes only the packet of its number, and `next` returns
//! the least number of a packet that travels. Only `put`, `links_of`, `standing` and `mark_down`
//! may allocate.
//!
//! ```text
//! let mut travelling = Travelling::new(alloc);
//! travelling.put(7, StoredFlight::begin(standing, leg, targets, route))?;
//! travelling.move_to(7, 1);
//! while let Some(packet) = travelling.next(1) {
//!     travelling.remove(packet);
//! }
//! ```
#![tactic(auto)]

mod held_flight;
mod no_links;
mod standing;
mod stored_flight;
mod switch_index;
mod travelling;

pub use journal::SharedRoute;
pub use standing::Standing;
pub use stored_flight::StoredFlight;
pub use travelling::Travelling;
