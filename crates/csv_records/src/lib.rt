//! The records of a CSV text in memory, one by one, as the crate `csv` reads them with its presets.
//!
//! That crate defines which bytes make a record, and how it reads a byte-order mark, quotes, line
//! ends and blank lines. Records may have any width, none is a heading, and no field is trimmed.
//!
//! Contracts see a `Records` as the list of the records that remain to be read, so a caller
//! reasons about a plain list:
//!
//! ```text
//! let mut records = Records::new(alloc, text);
//! let mut record = ByteRecord::new(alloc);
//! while records.read_next(&mut record)? {
//!     // `record` was the first of the records left; now only the others are left
//! }
//! ```
#![tactic(auto)]

mod fields;
mod records;

pub use csv::ByteRecord;
pub use fields::{csv_field_has_text, field};
pub use records::Records;
