//! The messages of a controller and its switches, as plain values.
//!
//! Messages of equal content are equal: contracts see the tables that an `Install` carries as a
//! value. Clones of an `Install` share its tables, and the trees for lookups in them
//! (`table_tree`); tables that differ only in their version may share the trees, too. Clones of a
//! `Stamp` share its words.
#![tactic(auto)]

mod message;
mod same;
mod shared;

pub use message::{Body, Message, Place};
pub use same::{
    are_same_control_message_tables, are_same_control_message_words, have_same_message_table_rows,
};
pub use shared::SharedTables;
