//! The edge: files, standard output and standard error of the system.
//!
//! Contracts know neither what is in a file nor what reaches a stream of the system. With readers
//! and writers of known bytes it is proved what `read_stream_up_to` returns and what a `StdSink`
//! accepts.
ghost use Rattle.std.specs.Prelude.{◌≡◌, ◌≤◌, None, false, length, IfOk, ◌≢◌, if◌then◌else◌};
ghost use Rattle.shelf.specs.Sink.{next_sink_fault_count};

use crate::output::{Sink, SinkError};
use crate::source::{Shelf, ShelfError};
use crate::streams::{CountedReader, read_stream_up_to, write_stream_through};
use std::fs::File;
use std::io::Write;
use std::marker::Model;
use std::rt::Files;

/// The files of a system, by their paths.
///
/// A file that can't be opened is `Missing`; one that is opened but can't be read, such as a
/// folder, is `Failed`. The model is the count of faults, which rises at each error except out of
/// memory, and the count of reads.
#[derive(Drop)]
pub struct DiskShelf<R: Files + AllocGlobal + Drop> {
    system: R,
    faults: u64,
    reads: u64,
}

impl<R: Files + AllocGlobal + Drop> Model for DiskShelf<R> {
    ghost use Rattle.shelf.specs.Shelf.{ShelfReadCounts};

    ghost Value = { ShelfReadCounts };

    ghost view = { λ s. record { faults = s.faults; reads = s.reads } };
}

impl<R: Files + AllocGlobal + Drop> DiskShelf<R> {
    /// The files of this system.
    pub fn new(system: R) -> Self
        ensures { result ≡ record { faults = 0; reads = 0 } }
    {
        DiskShelf {
            system,
            faults: 0,
            reads: 0,
        }
    }

    // The content of the file of this name, which is missing if it can't be opened.
    fn open_and_read(&self, name: &str, limit: u64) -> Result<Vec<u8>, ShelfError>
        ensures { IfOk result (λ content. length content.items ≤ limit) }
    {
        let file = File::open(&self.system, name).map_err(|error| ShelfError::of_open(&error))?;
        read_stream_up_to(self.system.alloc(), &mut CountedReader::new(file), limit)
    }
}

impl<R: Files + AllocGlobal + Drop> Shelf for DiskShelf<R> {
    ghost use Rattle.shelf.specs.Shelf.{is_shelf_refusal};

    ghost state = { λ s. record { files = None; faults = s.faults; reads = s.reads } };

    fn read(&mut self, name: &str, limit: u64) -> Result<Vec<u8>, ShelfError>
        ensures after { self.new ≡ record {
          faults = (if is_shelf_refusal result then next_sink_fault_count self.old.faults else self.old.faults);
          reads = next_sink_fault_count self.old.reads;
        } }
        ensures faults { self.old.faults ≤ self.new.faults }
        ensures within { IfOk result (λ content. length content.items ≤ limit) }
    {
        self.reads = self.reads.saturating_add(1);
        let content = self.open_and_read(name, limit);
        if matches!(
            content,
            Err(ShelfError::Failed | ShelfError::Missing | ShelfError::TooLong)
        ) {
            self.faults = self.faults.saturating_add(1);
        }
        content
    }
}

/// A stream of the system, such as standard output or standard error.
///
/// The model is the bytes that the stream has, if its type says them, and the count of faults,
/// which rises at each error and when the stream accepts nothing of a piece that has bytes. A
/// write that a signal interrupts is no error, and is tried again. Writes allocate nothing. As a
/// sink its bytes aren't known, because an error may leave a part of a piece in the stream.
#[derive(Drop)]
pub struct StdSink<W: Write + Drop> {
    stream: W,
    faults: u64,
}

impl<W: Write + Drop> Model for StdSink<W> {
    ghost use Rattle.shelf.specs.Sink.{SinkState};

    ghost Value = { SinkState };

    ghost view = { λ s. record { bytes = W.contents s.stream; faults = s.faults } };
}

impl<W: Write + Drop> StdSink<W> {
    /// A sink into this stream, such as `rt.stdout()` or `rt.stderr()`.
    pub fn new(stream: W) -> Self
        ensures { result ≡ record { bytes = W.contents stream; faults = 0 } }
    {
        StdSink { stream, faults: 0 }
    }
}

impl<W: Write + Drop> Sink for StdSink<W> {
    ghost use Rattle.shelf.specs.SinkWrites.{is_sink_write_fault};
    ghost use Rattle.shelf.specs.Streams.{SinkWriterGainsFront};

    ghost state = { λ s. record { bytes = None; faults = s.faults } };

    ghost takes_memory = { false };

    fn write(&mut self, piece: &[u8]) -> Result<u64, SinkError>
        ensures within { IfOk result (λ taken. taken ≤ length piece.now) }
        ensures no_memory { result ≢ Err SinkError.NoMemory }
        ensures gains { SinkWriterGainsFront piece.now result self.old.bytes self.new.bytes }
        ensures after { self.new.faults ≡ (if is_sink_write_fault piece.now result
            then next_sink_fault_count self.old.faults else self.old.faults) }
        ensures faults { self.old.faults ≤ self.new.faults }
    {
        match write_stream_through(&mut self.stream, piece) {
            Ok(taken) if taken > 0 || piece.is_empty() => Ok(taken as u64),
            Ok(_) => {
                self.faults = self.faults.saturating_add(1);
                Ok(0)
            }
            Err(_) => {
                self.faults = self.faults.saturating_add(1);
                Err(SinkError::Failed)
            }
        }
    }
}
