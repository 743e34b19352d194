//! Policies, and changes of them, as CSV text: a heading, and a record for each row. That of a
//! policy has seven fields; that of a change has `add` and such fields, or `remove` and a priority.
//!
//! `read_policy` and `read_change` return the policy or the change that the text states, or the
//! first refusal in the text and its row; `read_file` reads either, by its heading. `check_ports`
//! and `check_policy_file_ports` find the first row that names a port outside a set. `write_policy`
//! and `write_change` return the text, which is read back to what was written if that has at most
//! 2,000 rows and ports below 64. Which bytes make a record is what the crate `csv` defines.
//!
//! ```text
//! fn tidy(alloc: Global, text: &[u8], ports: u64) -> anyhow::Result<Vec<u8>> {
//!     let policy = read_policy(alloc, text)?;  // Refused(InRow { refusal, row }), the first
//!     check_ports(&policy, ports)?;            // NoPort { row }: the first row without its port
//!     Ok(write_policy(alloc, &policy)?)        // read back, it gives the same policy
//! }
//! ```
#![tactic(auto)]

mod edit;
mod error;
mod file;
mod file_rows;
mod ports;
mod read;
mod row;
mod write;

pub use csv_records::ByteRecord;
pub use edit::read_edit;
pub use error::{PolicyError, PolicyRefusal};
pub use file::{is_change, read_change, read_file};
pub use policy_rules::{
    Action, Amendment, Edit, Policy, PolicyFile, PortRange, Prefix, Proto, Row,
};
pub use ports::{NoPort, check_policy_file_ports, check_ports};
pub use read::read_policy;
pub use row::read_policy_file_row;
pub use write::{
    change_texts_are_read_back, policy_texts_are_read_back, write_change, write_policy,
};
