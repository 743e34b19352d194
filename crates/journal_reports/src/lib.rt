//! What a finished journal says as a whole: its summary, and whether its network is quiet. Neither
//! call reads the whole journal again for each switch.
//!
//! `summarize` counts what became of the packets, how many decisions cached rules made, and what
//! was sent, and takes the versions' marks from the end; `summary_text` returns the eleven lines
//! that the load generator prints. `quiet` returns exactly whether the network is quiet, for any
//! journal: it reads the items twice, first what concerns statuses and then backwards, and keeps
//! for each switch the messages that were delivered and may replace others. In a quiet network all
//! has converged, by the laws of `convergence_laws`.
//!
//! ```text
//! let is_quiet = quiet(alloc, &played.journal, &net)?; // Err: only out of memory
//! let text = summary_text(alloc, &summarize(&played.journal))?;
//! ```
#![tactic(auto)]

mod bucket;
mod deliveries;
mod judge;
mod replacing;
mod status;
mod summary;
mod text;
mod traffic;

pub use journal::Journal;
pub use judge::quiet;
pub use net_file::Net;
pub use summary::{Summary, summarize};
pub use text::summary_text;
