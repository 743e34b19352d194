//! Cut trees: a decision tree over the header space cuts a list of rules, so that no leaf has more
//! rules than a cap.
//!
//! `build` returns the defined tree: each cut is at the free bit that costs least, and the rules of
//! a half are those of the whole narrowed to it. It refuses exactly the trees of more than 512
//! leaves. No path of a tree has more than 104 cuts, one for each bit. A `Node` is a region with
//! its narrowed rules, and returns its least cut, for trees of other kinds; `free_bits_to_cut` are
//! the bits at which a region can be cut. `cut_tree_narrowing_laws` and `tree_laws` say, of
//! definitions only, that narrowing keeps the first rule of each header, and that each list has
//! exactly one tree.
//!
//! ```text
//! let rules = to_rules(alloc, &policy)?;
//! let tree = build(alloc, &rules, 32)?;
//! ```
#![tactic(auto)]

mod choice;
mod counters;
mod laws;
mod narrowing;
mod node;
mod tree;

pub use choice::{Cost, free_bits_to_cut};
pub use laws::{cut_tree_narrowing_laws, tree_laws};
pub use node::Node;
pub use tree::{TooManyLeaves, Tree, build};
