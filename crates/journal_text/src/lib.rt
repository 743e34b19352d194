//! The text of a journal: one line for each item, in which switches have their names.
//!
//! `text` returns exactly the lines that its definition states, each with a line feed at its end.
//! `write_text` writes this text to a sink. The law `journal_text_lines_fit` says that no line is
//! longer than 2,048 bytes.
#![tactic(auto)]

mod advert_texts;
mod items;
mod laws;
mod messages;
mod names;
mod rows;
mod write;

pub use items::text;
pub use laws::journal_text_lines_fit;
pub use write::write_text;
