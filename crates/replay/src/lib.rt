//! Plays a schedule on a network of switches.
//!
//! `replay` returns the one play of the schedule, or why the first policy has no plan on the
//! network. A play is the journal that answers the schedule, or that of the steps before the first
//! one that would begin with a full journal. It is a run of the abstract machine, its ends have
//! causes, and the invariants were true at each moment (`PacketLawsHeldThroughout`). That drains
//! and flushes end are laws of `packet_laws`: a packet takes few hops, and each message that is
//! delivered in a flush has a greater number than the one before it. After each step the meters
//! record the packets that left; those that stay are the kept meters of the journal, and the flow
//! records of those that leave are its gone records.
//!
//! ```text
//! let played = replay(alloc, &net, files, &events, meters)?; // Plan(why): no first plan
//! let text = text(alloc, &played.journal, &net)?; // its lines, by `journal_text`
//! let row = played.full; // the row at which there was no room, if the play stopped there
//! let meters = played.meters; // those that stayed
//! let gone = played.gone; // the flow records of those that left
//! let plan = played.plan; // that of the version that is current at the end
//! ```
#![tactic(auto)]

mod error;
mod event_steps;
mod in_force;
mod noting;
mod playing;

pub use error::ReplayError;
pub use event_steps::take_event_steps;
pub use journal::{Item, Journal};
pub use journal_reports::quiet;
pub use journal_text::{text, write_text};
pub use meters::{Board, Flows, Meter};
pub use net_file::Net;
pub use playing::{Played, play, replay};
pub use policy_rules::{Policy, PolicyFile};
pub use steps::{Event, Step};
pub use world::{Full, PlanError, StepError, World};
