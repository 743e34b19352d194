//! The texts of journals as traces: the checker of traces returns Yes for the text of each journal
//! that answers a schedule.
//!
//! No code: the function is the law that it ensures. `audit` of `trace_audit` returns Yes exactly
//! if each line is good; by the law each line of such a text is.
#![tactic(auto)]

mod laws;

pub use laws::texts_are_good;
