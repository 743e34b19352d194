//! Worked runs of the program, over files and outputs in memory: what fails, what is refused, and
//! what a caller's meters get. Reads, writes and allocations fail; policies and changes are at
//! their limits; plays stop full; and a load case is played.
//!
//! Only tests, of what no file of `examples` can show.
#![tactic(auto)]

#[cfg(test)]
mod files;
#[cfg(test)]
mod runs;
#[cfg(test)]
mod tests;
