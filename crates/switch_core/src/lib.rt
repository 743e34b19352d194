//! One switch of the data plane.
//!
//! Each call of a `Switch` is a step that `specs/` defines on the record that contracts see: its
//! number, boot, stamp, tables by version, cache, database of adverts, and how many packet calls it
//! counted. The laws say what those steps are in terms of lookups, rules, routes and tunnels. Only
//! `begin`, `hear` and `shared_route` allocate.
//!
//! A packet enters by `admit` and moves on by `pass`; `receive` says what becomes of it at the
//! end of its route, and `shared_route` finds the route of a leg. `enter`, `hop` and `arrive` are
//! the same calls for whole tunnels.
//!
//! ```text
//! let mut switch = Switch::begin(alloc, 0, 256, tables, base)?;
//! if let Some(Forwarding::Seek { leg, targets }) = switch.admit(&header) {
//!     let route = switch.shared_route(alloc, near, None, leg, &targets)?; // or why there is none
//!     if let Onward::LinkDown(other) = switch.pass(route.get(), 0, near) {
//!         down.add(0, other);
//!         let other_route = switch.shared_route(alloc, near, Some(&down), leg, &targets)?;
//!     }
//! }
//! let heard = switch.hear(7, &body, near)?;
//! ```
#![tactic(auto)]

mod answering;
mod deciding;
mod ends;
mod forwarding;
mod hearing;
mod kept;
mod laws;
mod life;
mod packet;
mod passing;
mod routes;
mod site;
mod switch;
mod tunnel_calls;

pub use deciding::Decision;
pub use forwarding::Forwarding;
pub use hearing::{Heard, Replies};
pub use laws::{
    switch_core_arrive_laws, switch_core_enter_laws, switch_core_hop_laws, switch_core_lookup_laws,
    switch_decision_laws, switch_exit_laws, switch_laws,
};
pub use packet::{Arriving, Onward};
pub use policy_rules::{Cause, How};
pub use site::SwitchSite;
pub use switch::Switch;
pub use tunnel_calls::{Arrived, Entered, Hop, HopEnd, Next};
