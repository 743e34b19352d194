//! The marks of a policy's versions, as a controller keeps them: for each switch its boot, whether
//! it is a member, and the versions that it acknowledged; and over all switches the current and the
//! last retired version.
//!
//! An update has two phases, as in Reitblatt, Foster, Rexford, Schlesinger and Walker,
//! "Abstractions for Network Update": a version becomes current once every member has its tables,
//! and is retired once no member stamps packets with it. Each call settles the marks by this rule,
//! and returns what rose and to which switches to send. Nothing here allocates, and the marks of 64
//! switches fit in 4 KiB.
//!
//!     let mut marks = Marks::begin(2);
//!     let answer = marks.submit()?; // version 2
//!     let answer = marks.installed(0, 1, 2); // switch 0, boot 1
//!     let answer = marks.installed(1, 1, 2); // answer.current is Some(2), answer.stamps is 0b11
#![tactic(auto)]

mod laws;
mod ledger;
mod marks;
mod record;
mod switches;

pub use laws::{version_mark_settling_laws, version_update_acked_laws};
pub use marks::{Marks, Settled, SubmitError};
pub use record::Phase;
