//! Packets on their way from switch to switch, each in a tunnel to one of its leg's targets.
//!
//! `Tunnel` keeps the route, the place on it, and the links that the packet found down. A packet
//! moves along its route one switch at a time, a new route is the defined one without the links
//! found down, and nothing else of the packet ever changes. Nothing here allocates.
//!
//! ```text
//! match packet.next() {
//!     None => {}
//!     Some(next) if (near >> next) & 1 == 1 => packet.advance(),
//!     Some(next) => {
//!         packet.mark_down(next);
//!         let is_stuck = !packet.reroute(&base, near);
//!     }
//! }
//! ```
#![tactic(auto)]

mod packet_tunnel;

pub use failover::{Database, DownSet, Route};
pub use five_tuple::Header;
pub use packet_tunnel::Tunnel;
pub use policy_rules::{Leg, Targets};
