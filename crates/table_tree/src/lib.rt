//! Lookups by trees: the bits of a header lead to what the tables of a switch say about it, without
//! a search through the partition rules and through a partition's rules.
//!
//! A `RuleTree` leads a header to the places of the few rules of a list that may hold it; its
//! `first` returns what `first_hit` does. `TableTrees` are built once for tables that differ only
//! in their version: a tree over the partition rules, and a rule tree for each authority partition.
//! A `Finder` shares its tables and trees with others. Its `lookup` returns the result of
//! `switch_table::lookup` for these tables. Neither lookup allocates. Both kinds of trees are
//! `BitTree`s with different ends.
#![tactic(auto)]

mod bit_tree;
mod bits;
mod finder;
mod node;
mod rule_node;
mod rule_tree;
mod tree;
mod trees;

pub use bit_tree::{BitTree, HeaderBit};
pub use finder::Finder;
pub use rule_tree::RuleTree;
pub use trees::TableTrees;
