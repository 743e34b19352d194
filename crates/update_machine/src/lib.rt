//! What a journal says of its packets, messages, switches, versions and links, and the abstract
//! machine that judges it: definitions over the list of its items, and the laws about these.
//!
//! There are five ways to read a journal, each with one law (`machine_journals_grow`). A schedule
//! has at most one answer (`machine_answers_are_one`), and has one if its flushes and drains end
//! (`answers_exist`); in it packets, messages and versions are numbered without a gap
//! (`machine_answers_are_numbered`). A play takes no step after a full journal: it ends with an
//! answer, or stops there (`plays_are_one`). A version that exists keeps its policy and its plan
//! (`machine_versions_keep_policies`). Only items that concern a switch, a packet or the controller
//! change what a journal says of it (`other_items_change_nothing`). The laws are about the
//! definitions only, whatever code wrote the journal.
#![tactic(auto)]

mod full;
mod laws;

pub use full::FULL_AT;
pub use journal::{Item, Journal};
pub use laws::{
    answers_exist, journals_start, machine_answers_are_numbered, machine_answers_are_one,
    machine_journals_grow, machine_switches_know_links, machine_versions_keep_policies,
    other_items_change_nothing, plays_are_one,
};
