//! Worked values of the lower crates: headers, words, rules, trees, placements and lookups; files
//! that are read, refused and printed, with their shelves and sinks; boards of meters.
//!
//! They make each public call once, with ample memory. There are only tests here, so that none of
//! those crates is proved a second time together with its tests.
#![tactic(auto)]

#[cfg(test)]
mod packets;
#[cfg(test)]
mod refusals;
#[cfg(test)]
mod tests;
