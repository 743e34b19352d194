//! Worked values of the network: switches, caches, the wire, worlds, replays, traces and loads.
//!
//! Of the wire: encodings byte by byte, bytes that are no encoding, and frames in another order
//! than theirs.
//!
//! These tests make the calls that no example shows, with ample memory, on values that come from
//! outside. There are only tests here, so that none of those crates is proved a second time
//! together with its tests.
#![tactic(auto)]

#[cfg(test)]
mod tests;
