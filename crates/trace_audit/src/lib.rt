//! A checker of printed traces, line by line and word by word: whether the abstract machine allows
//! the text of a journal.
//!
//! `audit` reads a trace line by line. What a line says is defined by its first words
//! (`specs/Told.antt`); a line is good if the machine may take the move that it states
//! (`specs/Reading.antt`). `audit` returns Yes exactly if every line is good, and otherwise the
//! number of the first one that isn't. So on Yes the moves are a run of the machine
//! (`specs/Run.antt`), and each packet that is printed as dropped or out by a port got one decision
//! before (`specs/Decided.antt`).
//!
//! ```text
//! let verdict = audit(alloc, b"row 1: packet a 1.1.1.1 2.2.2.2 1 2 tcp\n  closed 1 a\n", &files)?;
//! // Verdict::Yes: a packet row without an entry is no fault
//! ```
#![tactic(auto)]

mod auditor;
mod index;
mod packets;
mod printed;
mod told;
mod trace;
mod words;

pub use trace::{Verdict, audit};
