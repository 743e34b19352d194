//! The world: switches, the packets on their way between them, and the journal of what happens.
//!
//! Each step of a `World` writes exactly the items that the definitions over journals state. After
//! it the world is as its journal says:
//!
//! - each switch, with as many calls as the journal counts, and its usable links;
//! - the packets on their way, which are those that travel;
//! - the bag, with the messages that were sent, each with whether it was delivered or forgotten;
//! - the controller's marks and plans.
//!
//! The invariants are true after each step. After a full journal no step begins (`Full`). If memory
//! runs out within a step, a part of the step's items is written, which is a run whose ends have
//! causes too, and no further step is taken. A file of a policy is compiled at most once, when it
//! is first asked for, and a change once for each newest version that it is applied to. All that
//! use a plan share it (`Files`).
//!
//! ```text
//! let mut world = World::begin(alloc, &net, files)?;   // why the first policy has no plan
//! world.step(1, &Step::Packet { switch, header })?;
//! while let Some(packet) = world.next_travelling(1) {
//!     world.step(2, &Step::Hop { packet })?;
//! }
//! ```
#![tactic(auto)]

mod beginning;
pub mod codes;
mod control;
mod delivery;
mod error;
mod failures;
mod files;
mod parts;
mod world;

pub use controller::PlanError;
pub use error::{Full, StepError};
pub use files::{Compiled, Files};
pub use world::World;
