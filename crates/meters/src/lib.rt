//! Boxed recorders at the ports of a network: what each records, which of them stay, and the flow
//! records of those that leave.
//!
//! A `Meter` is at a port and keeps the leavings that it recorded, in order. Contracts know its
//! port, that list, and what its kind says of every list: whether it is complete, so that the
//! meter leaves, and which flow records it has. A `Board` has meters of one type, for example
//! boxes of several kinds. After any leavings its meters are the kept meters of the definition,
//! each with all leavings of its port, and it has the records of those that left, in order.
//!
//! ```text
//! let mut board = Board::new(meters, 0b1000); // keeps the meters of port 3
//! board.note(3, &leaving)?; // each of them notes it
//! let (meters, gone) = board.finish(); // those that stay; the records of those that left
//! ```
#![tactic(auto)]

mod board;
mod flows;
mod kinds;
mod meter;

pub use board::Board;
pub use flows::{FlowRecord, Flows};
pub use kinds::{FirstN, Recorder};
pub use meter::{Meter, Stay};
pub use policy_rules::Leaving;
