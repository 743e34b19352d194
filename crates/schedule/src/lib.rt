//! Schedules as CSV text, a heading and a record for each event; and the load cases.
//!
//! `read_schedule` returns the events that the text states for a network and this many policy
//! files, or the text's first refusal and its row. In a row the kind is looked at first, then the
//! number of fields, and then the fields from left to right. Which bytes make a record is what the
//! crate `csv` defines.
//!
//! `load_case` returns exactly the network, the two policies and the events that the definition
//! states for a number. The network is the same for each number; the policies and the packets are
//! drawn from a linear congruential generator that starts at the number, so that a case is the
//! same at each run.
//!
//! ```text
//! let net = read_net(alloc, network)?;
//! let text = b"event,arguments\npacket,a,1.2.3.4,10.2.0.1,5000,80,tcp\ndrain\n";
//! let events = read_schedule(alloc, text, &net, 1)?; // a packet at the switch `a`, and a drain
//! let case = load_case(alloc, 7)?;
//! ```
#![tactic(auto)]

mod case;
mod case_events;
mod case_net;
mod case_policies;
mod draws;
mod error;
mod kind;
mod laws;
mod read;
mod row;

pub use case::{Case, load_case};
pub use csv_records::ByteRecord;
pub use error::{ScheduleError, ScheduleRefusal};
pub use kind::{KINDS, Kind, read_schedule_kind};
pub use laws::{schedule_kind_laws, schedule_laws};
pub use net_file::Net;
pub use read::read_schedule;
pub use row::read_event;
pub use steps::{Event, Header, MAX_EVENTS, MAX_NUMBER, Step};
