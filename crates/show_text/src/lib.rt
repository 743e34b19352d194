//! The texts of plans and of tables, as a command prints them.
//!
//! `compile_text` and `table_text` return exactly the lines that their definitions state, each with
//! a line feed at its end.
#![tactic(auto)]

mod plan_lines;
mod text;

pub use text::{compile_text, table_text};
