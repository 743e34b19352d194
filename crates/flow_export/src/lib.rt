//! A meter that counts flows: how many packets of each header left its port.
//!
//! A `FlowMeter` records each leaving, as any meter does. Its flow records count what it recorded:
//! one for each different header, in the order in which they first left, with the number of
//! packets that had it. It is complete as soon as it has `most` headers, so that the table of its
//! counts stays small. Each record of a meter that stays counts all packets that left by its port
//! with its header (`flow_laws`). `push_flows` prints records.
//!
//! ```text
//! let meter = FlowMeter::new(alloc, 3, 4096); // at port 3
//! meter.note(&leaving) // Leave with the 4,096th header
//! push_flows(&mut text, meter.records()?.items())?; // a line for each header
//! ```
#![tactic(auto)]

mod flow_meter;
mod laws;
mod text;

pub use flow_meter::FlowMeter;
pub use laws::flow_laws;
pub use meters::{FlowRecord, Flows, Leaving, Meter, Stay};
pub use text::push_flows;
