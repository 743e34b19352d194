//! The arguments of the command line.
//!
//! `read_command` tests whether the arguments are in the grammar of `specs/Grammar.antt`, and then
//! reads them with the crate `clap`, by a `clap::Command` that takes this command's options and no
//! others. It returns the grammar's command, or `None` exactly if the grammar doesn't have the
//! arguments. `clap` refuses arguments of the grammar only when memory runs out.
#![tactic(auto)]

mod command;
mod grammar;
mod read;
mod report;

pub use command::{
    AuditArgs, Command, MAX_LOAD, MAX_POLICIES, PrintArgs, ReplayArgs, read_command,
};
pub use report::Report;
