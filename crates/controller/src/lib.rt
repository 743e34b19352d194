//! The controller of a network: the plan of each version of a policy, and the tables that a plan
//! gives a switch.
//!
//! `compile` returns the defined plan of a policy on a network, or the first reason why there is
//! none. From each switch the plan's tables lead each header to the policy's first match.
//! `tables_of` returns the tables that the plan's definition gives a switch; they are sound.
//!
//! ```text
//! let plan = compile(alloc, &policy, &net)?;       // TooManyWords, TooManyLeaves or NoRoom
//! let tables = tables_of(alloc, &plan, 1, switch)?; // regions and rules are the plan's, shared
//! ```
//!
//! A `Controller` keeps the marks of the versions and the plans that a later call can name. The
//! contract of each call says exactly what is sent, in order, and why. With two switches:
//!
//! ```text
//! let mut controller = Controller::begin(alloc, &net, first)?;
//! controller.submit(second)?;  // install 2 to a, install 2 to b
//! controller.hear(&installed_by_a)?;  // nothing: b is a member and lacks version 2
//! controller.hear(&installed_by_b)?;  // current 2, stamp 2 to a, stamp 2 to b
//! controller.hear(&stamped_by_a)?;    // nothing
//! controller.hear(&stamped_by_b)?;    // retired 1, collect 1 to a, collect 1 to b
//! ```
#![tactic(auto)]

mod controller;
mod plan;
mod plan_error;
mod planning;
mod replying;
mod resending;
mod sends;
mod settling;
mod tables;
mod touching;
mod version;

pub use controller::Controller;
pub use plan::{Plan, parts_of};
pub use plan_error::PlanError;
pub use planning::{compile, rooms_of, sizes_of};
pub use sends::{Act, Sends};
pub use tables::tables_of;
pub use touching::touched;
pub use version_update::SubmitError;
