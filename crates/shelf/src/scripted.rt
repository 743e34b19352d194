//! Files and bytes in memory, with calls that are made to fail.
ghost use Rattle.std.specs.Prelude.{◌≡◌, ◌≤◌, ◌↔◌, ◌++◌, IsTrue, IfOk, OnErr, IsErrOf, Some, [], true, length, min, take};
ghost use Rattle.shelf.specs.Sink.{next_sink_fault_count};
ghost use Rattle.shelf.specs.Scripts.{shelf_script_of, ShelfScriptFailsNext, shelf_script_after_call};

use crate::output::{Sink, SinkError};
use crate::source::{HeldFiles, Shelf, ShelfError};
use std::alloc::Global;
use std::marker::Model;

/// Which calls are to fail, how many there were, and how many faults.
#[derive(Drop)]
struct FaultScript {
    failing: Vec<u64>,
    calls: u64,
    faults: u64,
}

impl Model for FaultScript {
    ghost use Rattle.shelf.specs.Scripts.{ShelfCallScript};

    ghost Value = { ShelfCallScript };

    ghost view = { λ s. record { failing = s.failing.items; calls = s.calls; faults = s.faults } };
}

impl FaultScript {
    fn new(failing: Vec<u64>) -> Self
        ensures { result ≡ shelf_script_of failing.items }
    {
        FaultScript {
            failing,
            calls: 0,
            faults: 0,
        }
    }

    /// Counts a call, and returns whether it fails; if it does, the count of faults rises.
    fn begin_call(&mut self) -> bool
        ensures fails { IsTrue result ↔ ShelfScriptFailsNext self.old }
        ensures after { self.new ≡ shelf_script_after_call self.old result }
        ensures counts { self.old.faults ≤ self.new.faults }
    {
        self.calls = self.calls.saturating_add(1);
        let fails = self.failing.contains(&self.calls);
        if fails {
            self.faults = self.faults.saturating_add(1);
        }
        fails
    }

    /// Raises the count of faults.
    fn raise(&mut self)
        ensures after { self.new ≡ record self.old { faults = next_sink_fault_count self.old.faults } }
        ensures counts { self.old.faults ≤ self.new.faults }
    {
        self.faults = self.faults.saturating_add(1);
    }
}

/// Files in memory; the calls whose numbers were given to `new` fail.
///
/// Calls are counted from 1. The count of faults rises at the listed calls, and at no other.
#[derive(Drop)]
pub struct MemShelf {
    files: HeldFiles,
    script: FaultScript,
}

impl Model for MemShelf {
    ghost use Rattle.shelf.specs.Shelf.{ScriptedShelfFiles};

    ghost Value = { ScriptedShelfFiles };

    ghost view = { λ s. record { files = s.files; script = s.script } };
}

impl MemShelf {
    ghost use Rattle.shelf.specs.Shelf.{shelf_files_of};

    /// A shelf of these files; the calls with these numbers fail.
    ///
    /// Of two files of one name the first counts.
    pub fn new(alloc: Global, files: Vec<(String, Vec<u8>)>, failing: Vec<u64>) -> Self
        ensures { result
            ≡ record { files = shelf_files_of files.items; script = shelf_script_of failing.items } }
    {
        MemShelf {
            files: HeldFiles::new(alloc, files),
            script: FaultScript::new(failing),
        }
    }
}

impl Shelf for MemShelf {
    ghost use Rattle.shelf.specs.Shelf.{is_shelf_read_fault, ShelfHasFile, ShelfLacksFile, ShelfHasLongerFile, IsNoShelfFault};

    ghost state = { λ s. record {
      files = Some s.files;
      faults = s.script.faults;
      reads = s.script.calls;
    } };

    fn read(&mut self, name: &str, limit: u64) -> Result<Vec<u8>, ShelfError>
        ensures fails { IsErrOf result ShelfError.Failed ↔ ShelfScriptFailsNext self.old.script }
        ensures after { self.new
            ≡ record self.old { script = shelf_script_after_call self.old.script (is_shelf_read_fault result) } }
        ensures faults { self.old.script.faults ≤ self.new.script.faults }

        ensures content { IfOk result (λ content.
            ShelfHasFile self.old.files name.now limit content.items) }
        ensures missing { IsNoShelfFault result
            → (IsErrOf result ShelfError.Missing ↔ ShelfLacksFile self.old.files name.now) }
        ensures too_long { IsNoShelfFault result
            → (IsErrOf result ShelfError.TooLong ↔ ShelfHasLongerFile self.old.files name.now limit) }
    {
        if self.script.begin_call() {
            return Err(ShelfError::Failed);
        }
        self.files.copy(name, limit)
    }
}

/// Bytes in memory; the calls whose numbers were given to `new` fail.
///
/// Calls are counted from 1. The count of faults rises at the listed calls and when a call accepts
/// nothing of a piece that has bytes, and at no other call.
#[derive(Drop)]
pub struct MemSink {
    bytes: Vec<u8>,
    most: u64,
    script: FaultScript,
}

impl Model for MemSink {
    ghost use Rattle.shelf.specs.SinkWrites.{ScriptedSinkBytes};

    ghost Value = { ScriptedSinkBytes };

    ghost view = { λ s. record { bytes = s.bytes.items; most = s.most; script = s.script } };
}

impl MemSink {
    /// An empty sink that accepts at most `most` bytes a call; the calls with these numbers fail.
    pub fn new(alloc: Global, most: u64, failing: Vec<u64>) -> Self
        ensures { result ≡ record { bytes = []; most = most; script = shelf_script_of failing.items } }
    {
        MemSink {
            bytes: Vec::new(alloc),
            most,
            script: FaultScript::new(failing),
        }
    }

    /// The bytes that were written.
    pub fn bytes(&self) -> &[u8]
        ensures { result.now ≡ self.now.bytes }
    {
        &self.bytes
    }
}

impl Sink for MemSink {
    ghost use Rattle.shelf.specs.SinkWrites.{is_sink_write_fault};

    ghost state = { λ s. record { bytes = Some s.bytes; faults = s.script.faults } };

    ghost takes_memory = { true };

    fn write(&mut self, piece: &[u8]) -> Result<u64, SinkError>
        ensures fails { IsErrOf result SinkError.Failed ↔ ShelfScriptFailsNext self.old.script }
        ensures most { IfOk result (λ taken. taken ≡ min self.old.most (length piece.now)) }
        ensures ok { IfOk result (λ taken.
            self.new.bytes ≡ self.old.bytes ++ take taken piece.now) }
        ensures err { OnErr result (self.new.bytes ≡ self.old.bytes) }
        ensures same_most { self.new.most ≡ self.old.most }
        ensures after { self.new.script
            ≡ shelf_script_after_call self.old.script (is_sink_write_fault piece.now result) }

        ensures faults { self.old.script.faults ≤ self.new.script.faults }
    {
        if self.script.begin_call() {
            return Err(SinkError::Failed);
        }
        let taken = self.most.min(piece.len() as u64);
        self.bytes.extend_from_slice(&piece[..taken as usize])?;
        if taken == 0 && !piece.is_empty() {
            self.script.raise();
        }
        Ok(taken)
    }
}
