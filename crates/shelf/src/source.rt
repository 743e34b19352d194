//! The source of whole files, and a lookup among files in memory.
ghost use Rattle.std.specs.Prelude.{◌≡◌, ◌≤◌, ◌↔◌, IfOk, IsErrOf, false, find, length, string_bytes};
ghost use Rattle.std.specs.Option.{ForSome, ForNone, option_copied};
ghost use Rattle.std.specs.Str.{bytes_eq};
ghost use Rattle.shelf.specs.Sink.{SinkFaultsRose, next_sink_fault_count};
ghost use Rattle.shelf.specs.Shelf.{ShelfState, ShelfHasFile, ShelfLacksFile, ShelfHasLongerFile, IsNoShelfFault, shelf_file_named, shelf_files_of, is_shelf_read_fault, is_shelf_refusal};
ghost use Rattle.shelf.specs.Streams.{shelf_cause_by_kind};
ghost use Rattle.shelf.specs.declared.source.ShelfError.TheVariants.{Missing, NoMemory};
ghost use Rattle.std.specs.IoError.{error_kind};

use crate::streams::read_stream_up_to;
use std::alloc::{AllocError, Global};
use std::io;
use std::io::ErrorKind;
use std::marker::Model;
use thiserror::Error;

/// Why a file wasn't read.
#[derive(Debug, Clone, Copy, PartialEq, Eq, Error)]
pub enum ShelfError {
    /// The read failed, and the shelf's count of faults rose.
    #[error("the file can't be read")]
    Failed,
    /// There is no file of this name.
    #[error("there is no such file")]
    Missing,
    /// The file has more bytes than the caller accepts.
    #[error("the file is too long")]
    TooLong,
    /// There is no memory for the content.
    #[error("out of memory")]
    NoMemory,
}

impl From<AllocError> for ShelfError {
    ghost from_gives = { λ _ e. e ≡ NoMemory };

    fn from(_: AllocError) -> Self {
        ShelfError::NoMemory
    }
}

impl ShelfError {
    /// Why a call of the system failed, by its error's kind: out of memory, otherwise `other`.
    pub fn by_kind(error: &io::Error, other: ShelfError) -> ShelfError
        ensures { result ≡ shelf_cause_by_kind (error_kind error.now) other }
    {
        match error.kind() {
            ErrorKind::OutOfMemory => ShelfError::NoMemory,
            _ => other,
        }
    }

    /// Why a file can't be opened: out of memory, otherwise `Missing`.
    pub fn of_open(error: &io::Error) -> ShelfError
        ensures { result ≡ shelf_cause_by_kind (error_kind error.now) Missing }
    {
        ShelfError::by_kind(error, ShelfError::Missing)
    }
}

/// A source of whole files by name.
pub trait Shelf {
    /// What contracts see: the files, if they are known, and the counts of faults and of reads.
    ghost state: { Self → ShelfState };

    /// The whole content of the file `name`, if it has at most `limit` bytes.
    ///
    /// Otherwise an error that says why not; any call may run out of memory.
    fn read(&mut self, name: &str, limit: u64) -> Result<Vec<u8>, ShelfError>
        ensures same_files { (state self.new).files ≡ (state self.old).files }
        ensures reads { (state self.new).reads ≡ next_sink_fault_count (state self.old).reads }
        ensures faults { (state self.old).faults ≤ (state self.new).faults }
        ensures failed { IsErrOf result ShelfError.Failed
            → SinkFaultsRose (state self.old).faults (state self.new).faults }

        // A call that succeeds or runs out of memory counts no fault; if the files are known, only
        // a failed call does.
        ensures calm { is_shelf_refusal result ≡ false
            → (state self.new).faults ≡ (state self.old).faults }
        ensures calm_known { ForSome (state self.old).files (λ _.
            is_shelf_read_fault result ≡ false → (state self.new).faults ≡ (state self.old).faults) }

        ensures within { IfOk result (λ content. length content.items ≤ limit) }

        // If the files are known, they decide the content, `Missing` and `TooLong`.
        ensures content { IfOk result (λ content.
            ForSome (state self.old).files (λ files.
            ShelfHasFile files name.now limit content.items)) }
        ensures missing { ForSome (state self.old).files (λ files.
            IsNoShelfFault result → (IsErrOf result ShelfError.Missing ↔ ShelfLacksFile files name.now)) }
        ensures too_long { ForSome (state self.old).files (λ files.
            IsNoShelfFault result
            → (IsErrOf result ShelfError.TooLong ↔ ShelfHasLongerFile files name.now limit)) }

        // If they aren't known, `Missing` and `TooLong` count as faults.
        ensures missing_unknown { ForNone (state self.old).files
            (IsErrOf result ShelfError.Missing
            → SinkFaultsRose (state self.old).faults (state self.new).faults) }
        ensures too_long_unknown { ForNone (state self.old).files
            (IsErrOf result ShelfError.TooLong
            → SinkFaultsRose (state self.old).faults (state self.new).faults) };
}

/// Files in memory, of which the first of a name counts. Contracts see the names and the contents.
#[derive(Drop)]
pub(crate) struct HeldFiles {
    alloc: Global,
    files: Vec<(String, Vec<u8>)>,
}

impl Model for HeldFiles {
    ghost use Rattle.shelf.specs.Shelf.{ShelfFiles, shelf_files_of};

    ghost Value = { ShelfFiles };

    ghost view = { λ held. shelf_files_of held.files.items };
}

/// The first of these files with this name.
fn find_shelf_file<'a>(files: &'a [(String, Vec<u8>)], name: &str) -> Option<&'a (String, Vec<u8>)>
    ensures { option_copied result
        ≡ find (λ file. bytes_eq (string_bytes file.0) name.now) files.now }
{
    files.iter().find(|file| file.0.as_str() == name)
}

/// The content of the first of these files with this name.
#[tactic(auto, using(crate::proofs::ShelfFileLookups::file_named_kept))]
fn shelf_content_of<'a>(files: &'a [(String, Vec<u8>)], name: &str) -> Option<&'a [u8]>
    ensures { option_copied result ≡ shelf_file_named (shelf_files_of files.now) name.now }
{
    match find_shelf_file(files, name) {
        Some(file) => Some(&file.1),
        None => None,
    }
}

impl HeldFiles {
    /// These files, and the allocator of the copies.
    pub(crate) fn new(alloc: Global, files: Vec<(String, Vec<u8>)>) -> Self
        ensures { result ≡ shelf_files_of files.items }
    {
        HeldFiles { alloc, files }
    }

    /// A copy of the file; an error if there is none, if it is too long, or out of memory.
    pub(crate) fn copy(&self, name: &str, limit: u64) -> Result<Vec<u8>, ShelfError>
        ensures no_fault { is_shelf_read_fault result ≡ false }
        ensures content { IfOk result (λ content. ShelfHasFile self.now name.now limit content.items) }
        ensures missing { IsErrOf result ShelfError.Missing ↔ ShelfLacksFile self.now name.now }
        ensures too_long { IsErrOf result ShelfError.TooLong
            ↔ ShelfHasLongerFile self.now name.now limit }
    {
        let mut content = shelf_content_of(&self.files, name).ok_or(ShelfError::Missing)?;
        // Before the copy, so that a file that is too long never runs out of memory.
        if content.len() as u64 > limit {
            return Err(ShelfError::TooLong);
        }
        read_stream_up_to(self.alloc, &mut content, limit)
    }
}
