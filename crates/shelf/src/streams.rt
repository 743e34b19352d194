//! Reads what a reader has left, and writes pieces to a writer of std.
//!
//! Contracts see the bytes that a reader of std has left (`remaining`) and those that a writer has
//! (`contents`), if its type says them. Contracts don't see whether a call of std fails. So a
//! reader here counts its faults: the count rises exactly at an error other than out of memory.
ghost use Rattle.std.specs.Prelude.{◌≡◌, ◌≢◌, ◌≤◌, ◌++◌, if◌then◌else◌, IfErr, IfOk, IfSome, OnOk, length};
ghost use Rattle.std.specs.Io.KnownBytes.{Keeps, WriteAppends};
ghost use Rattle.std.specs.IoError.{error_kind};
ghost use Rattle.shelf.specs.Sink.{next_sink_fault_count};
ghost use Rattle.shelf.specs.Shelf.{is_shelf_read_fault};
ghost use Rattle.shelf.specs.Streams.{SinkWriterGainsFront, ShelfReaderHasFront, IsShelfReadOf, ShelfReaderState, shelf_counted_fault};

use crate::source::ShelfError;
use std::alloc::Global;
use std::io;
use std::io::{ErrorKind, Read, Write};
use std::marker::Model;

/// A source of bytes that are read once: an open file, or bytes in memory.
pub trait Reader {
    /// What contracts see: the bytes that are left, if they are known, and the count of faults.
    ghost state: { Self → ShelfReaderState };

    /// Adds all that is left to the content, or the first `most` bytes of it.
    ///
    /// # Errors
    /// Out of memory, or another error, which counts as a fault. Then the content may have
    /// some of the bytes.
    fn read_front(&mut self, most: u64, content: &mut Vec<u8>) -> io::Result<()>
        ensures front { ShelfReaderHasFront (state self.old).left most content.old.items content.new.items result }
        ensures faults { (state self.new).faults
            ≡ shelf_counted_fault (state self.old).faults result };
}

/// Bytes in memory; a read fails only out of memory.
impl Reader for &[u8] {
    ghost use Rattle.std.specs.Prelude.{Some};

    ghost state = { λ bytes. record { left = Some bytes.now; faults = 0 } };

    fn read_front(&mut self, most: u64, content: &mut Vec<u8>) -> io::Result<()> {
        let taken = most.min(self.len() as u64) as usize;
        content.extend_from_slice(&self[..taken])?;
        Ok(())
    }
}

/// A reader of std that counts the errors that it returns, except for running out of memory.
#[derive(Drop)]
pub struct CountedReader<R: Read + Drop> {
    reader: R,
    faults: u64,
}

impl<R: Read + Drop> Model for CountedReader<R> {
    ghost use Rattle.shelf.specs.Streams.{ShelfReaderState};

    ghost Value = { ShelfReaderState };

    ghost view = { λ r. record { left = R.remaining r.reader; faults = r.faults } };
}

impl<R: Read + Drop> CountedReader<R> {
    /// This reader, with no error counted yet.
    pub fn new(reader: R) -> Self
        ensures { result ≡ record { left = R.remaining reader; faults = 0 } }
    {
        CountedReader { reader, faults: 0 }
    }
}

// Reads all that a reader of std has left to the end of the content.
fn append_rest_of_reader<R: Read + Drop>(mut reader: R, content: &mut Vec<u8>) -> io::Result<()>
    ensures { OnOk result (IfSome (R.remaining reader) (λ left.
        content.new.items ≡ content.old.items ++ left)) }
{
    reader.read_to_end(content)?;
    Ok(())
}

impl<R: Read + Drop> Reader for CountedReader<R> {
    ghost state = { λ r. r };

    fn read_front(&mut self, most: u64, content: &mut Vec<u8>) -> io::Result<()> {
        match append_rest_of_reader(Read::take(&mut self.reader, most), content) {
            Ok(()) => Ok(()),
            Err(error) => {
                if error.kind() != ErrorKind::OutOfMemory {
                    self.faults = self.faults.saturating_add(1);
                }
                Err(error)
            }
        }
    }
}

/// All that this reader has left, if that is at most `limit` bytes. At most one byte beyond the
/// limit is read.
///
/// # Errors
/// `TooLong` if the reader has more left. An error of the reader by its kind
/// (`ShelfError::by_kind`): `NoMemory`, or `Failed`, exactly if the reader's count of faults rose.
pub fn read_stream_up_to<R: Reader>(
    alloc: Global,
    reader: &mut R,
    limit: u64,
) -> Result<Vec<u8>, ShelfError>
    ensures read { IsShelfReadOf (R.state reader.old).left limit result }
    ensures within { IfOk result (λ content. length content.items ≤ limit) }
    ensures faults { (R.state reader.new).faults
        ≡ (if is_shelf_read_fault result then next_sink_fault_count (R.state reader.old).faults
        else (R.state reader.old).faults) }
{
    let mut content = Vec::new(alloc);
    match reader.read_front(limit.saturating_add(1), &mut content) {
        Ok(()) if content.len() as u64 > limit => Err(ShelfError::TooLong),
        Ok(()) => Ok(content),
        Err(error) => Err(ShelfError::by_kind(&error, ShelfError::Failed)),
    }
}

/// Writes some of the piece from its front, returns how many bytes, and flushes the stream, so
/// that a fault of the device is noticed. If the flush fails, the stream has some of the piece. A
/// call that a signal interrupts is tried again.
pub fn write_stream_through<W: Write>(stream: &mut W, piece: &[u8]) -> io::Result<usize>
    ensures within { IfOk result (λ taken. taken ≤ length piece.now) }
    ensures gains { SinkWriterGainsFront piece.now result (W.contents stream.old) (W.contents stream.new) }
    ensures not_interrupted { IfErr result (λ error. error_kind error ≢ ErrorKind.Interrupted) }
{
    let taken = write_stream_front(stream, piece)?;
    flush(stream)?;
    Ok(taken)
}

// Writes some of the piece from its front. The tries are counted, so that they end.
fn write_stream_front<W: Write>(stream: &mut W, piece: &[u8]) -> io::Result<usize>
    ensures within { IfOk result (λ taken. taken ≤ length piece.now) }
    ensures appends { WriteAppends (W.contents stream.old) (W.contents stream.new)
        result piece.now }
    ensures not_interrupted { IfErr result (λ error. error_kind error ≢ ErrorKind.Interrupted) }
{
    for _ in 0..u64::MAX {
        match stream.write(piece) {
            Err(error) if error.kind() == ErrorKind::Interrupted => {}
            written => return written,
        }
    }
    Err(io::Error::from(ErrorKind::TimedOut))
}

// Flushes the stream. The tries are counted, so that they end.
fn flush<W: Write>(stream: &mut W) -> io::Result<()>
    ensures keeps { Keeps (W.contents stream.old) (W.contents stream.new) }
    ensures not_interrupted { IfErr result (λ error. error_kind error ≢ ErrorKind.Interrupted) }
{
    for _ in 0..u64::MAX {
        match stream.flush() {
            Err(error) if error.kind() == ErrorKind::Interrupted => {}
            flushed => return flushed,
        }
    }
    Err(io::Error::from(ErrorKind::TimedOut))
}
