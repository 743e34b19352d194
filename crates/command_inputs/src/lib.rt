//! What a command reads: its files, one after another, each checked before the next one is read; or
//! its load case. `read_command_task` returns the task of a command. If the files are known, this
//! is the task that they state; if one is refused, it returns the first refusal in the order of
//! work, with the file's name, its code and its row. A fault of reading ends it too. No file is
//! read after the one that ended it, and the plan of the first policy comes last.
//!
//! A `Status` says how a command ended, and `write_status` writes its line.
#![tactic(auto)]

mod auditing;
mod inputs;
mod load;
mod networks;
mod policies;
mod printing;
mod status;
mod task;

pub use auditing::AuditInputs;
pub use inputs::PlayInputs;
pub use printing::PrintInputs;
pub use status::{Refusal, RefusedFileName, Status, Stop, write_status};
pub use task::{Task, read_command_task};
