//! The edge of a program: a source of whole files, and a sink of bytes.
//!
//! Both are traits, so that the crates above run over real files and streams, or over files and
//! bytes in memory. Contracts know the content of a shelf or a sink if its kind allows it; each
//! kind counts its faults, and a shelf its reads. If the content is known, the contracts are exact:
//! a read returns the named file or says why not, and a write appends what it accepted. If it isn't
//! known, an error other than out of memory occurs only if the count of faults rose. No shelf
//! returns more bytes than the caller's limit.
//!
//! A `ShelfBlock` gathers the pieces of a text in a fixed array, so that they are written together.
//!
//! The kinds in memory can be made to fail at given calls, or never fail. The kinds over the
//! system are a few trusted lines.
#![tactic(auto)]

mod block;
mod calm;
mod output;
mod scripted;
mod source;
mod streams;
mod system;

pub use block::ShelfBlock;
pub use calm::{CalmShelf, CalmSink};
pub use output::{Sink, SinkError, write_pieces, write_whole};
pub use scripted::{MemShelf, MemSink};
pub use source::{Shelf, ShelfError};
pub use streams::{CountedReader, Reader, read_stream_up_to, write_stream_through};
pub use system::{DiskShelf, StdSink};
