//! One line of text in a fixed array, which allocates nothing, and what is added at its end.
//!
//! A `Line` keeps the first 2,048 bytes of what was pushed to it. Contracts see these bytes. Each
//! push adds its text after them, as far as there is room: a number, a packet's header, a word, a
//! rule, an action, or a switch's name, in the printed form that its own crate defines.
//!
//! ```text
//! let mut line = Line::new();
//! line.push("row ");
//! line.push_number(7);
//! push_name(&mut line, &net, 0);
//! sink.write(line.bytes()); // row 7 a
//! ```
#![tactic(auto)]

mod digits;
mod fields;
mod line;
mod names;
mod pieces;
mod rules;

pub use fields::{push_line_address, push_line_fields};
pub use line::Line;
pub use names::{push_name, push_names};
pub use rules::{push_line_action, push_line_word, push_rule};
