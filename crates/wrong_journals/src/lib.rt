//! Ten small wrong journals, and what refuses each.
//!
//! An operator would object to each of them: a packet is decided by the wrong row, or lost without
//! a cause. Each is wrong in one item, and one fact of the headline refuses it: that the journal
//! is a run of the machine, that ends have their causes, or that rows and entries are the
//! schedule's. The other two facts are true of it, except if a packet leaves by a port that isn't
//! that of its decision: then a second fact refuses it too. Of the corresponding right journals
//! all three are true.
//!
//! No code: each function is the law that it ensures. The laws are computed from the definitions of
//! the first tier, on a network of two switches with two policies.
#![tactic(auto)]

mod laws;

pub use laws::{right_journals_hold, wrong_journals_are_refused, wrong_journals_print};
