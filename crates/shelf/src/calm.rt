//! Files and bytes in memory that never fail.
ghost use Rattle.std.specs.Prelude.{◌≡◌, ◌↔◌, [], Some, true, false, IfOk, IsErrOf};
ghost use Rattle.shelf.specs.Sink.{next_sink_fault_count};

use crate::output::{Sink, SinkError};
use crate::source::{HeldFiles, Shelf, ShelfError};
use std::alloc::Global;
use std::marker::Model;

/// Files in memory that can always be read, if there is memory for a copy.
#[derive(Drop)]
pub struct CalmShelf {
    files: HeldFiles,
    reads: u64,
}

impl Model for CalmShelf {
    ghost use Rattle.shelf.specs.Shelf.{CalmShelfFiles};

    ghost Value = { CalmShelfFiles };

    ghost view = { λ s. record { files = s.files; reads = s.reads } };
}

impl CalmShelf {
    ghost use Rattle.shelf.specs.Shelf.{shelf_files_of};

    /// A shelf of these files. Of two files of one name the first counts.
    pub fn new(alloc: Global, files: Vec<(String, Vec<u8>)>) -> Self
        ensures { result ≡ record { files = shelf_files_of files.items; reads = 0 } }
    {
        CalmShelf {
            files: HeldFiles::new(alloc, files),
            reads: 0,
        }
    }
}

impl Shelf for CalmShelf {
    ghost use Rattle.shelf.specs.Shelf.{ShelfHasFile, ShelfLacksFile, ShelfHasLongerFile, is_shelf_read_fault};

    ghost state = { λ s. record { files = Some s.files; faults = 0; reads = s.reads } };

    fn read(&mut self, name: &str, limit: u64) -> Result<Vec<u8>, ShelfError>
        ensures no_fault { is_shelf_read_fault result ≡ false }
        ensures after { self.new ≡ record self.old { reads = next_sink_fault_count self.old.reads } }
        ensures content { IfOk result (λ content.
            ShelfHasFile self.old.files name.now limit content.items) }
        ensures missing { IsErrOf result ShelfError.Missing ↔ ShelfLacksFile self.old.files name.now }
        ensures too_long { IsErrOf result ShelfError.TooLong
            ↔ ShelfHasLongerFile self.old.files name.now limit }
    {
        self.reads = self.reads.saturating_add(1);
        self.files.copy(name, limit)
    }
}

/// Bytes in memory, which can always be added to, if there is memory.
#[derive(Drop)]
pub struct CalmSink(Vec<u8>);

impl Model for CalmSink {
    ghost use Rattle.std.specs.Prelude.{List, ℕ};

    ghost Value = { List ℕ };

    ghost view = { λ s. s.0.items };
}

impl CalmSink {
    /// An empty sink.
    pub fn new(alloc: Global) -> Self
        ensures { result ≡ [] }
    {
        CalmSink(Vec::new(alloc))
    }

    /// The bytes that were written.
    pub fn bytes(&self) -> &[u8]
        ensures { result.now ≡ self.now }
    {
        &self.0
    }
}

impl Sink for CalmSink {
    ghost state = { λ s. record { bytes = Some s; faults = 0 } };

    ghost takes_memory = { true };

    fn write(&mut self, piece: &[u8]) -> Result<u64, SinkError> {
        self.0.extend_from_slice(piece)?;
        Ok(piece.len() as u64)
    }
}
