//! Files and outputs, with each kind of shelf and of sink.
use shelf::{
    CalmShelf, CalmSink, DiskShelf, MemShelf, MemSink, Shelf, ShelfError, Sink, SinkError, StdSink,
    write_whole,
};
use std::alloc::{AllocError, Global};
use std::fs::OpenOptions;
use std::io;
use std::io::{BufWriter, ErrorKind, Write};
use std::test::Fail;

fn one_file(alloc: Global) -> Result<Vec<(String, Vec<u8>)>, AllocError> {
    let name = String::from_str(alloc, "policy")?;
    let content = Vec::from_slice(alloc, b"first")?;
    Ok(vec![in alloc; (name, content)]?)
}

// How the read of this file fails.
fn failure(shelf: &mut impl Shelf, name: &str, limit: u64) -> Option<ShelfError> {
    shelf.read(name, limit).err()
}

// Whether the file has this content.
fn gives(shelf: &mut impl Shelf, name: &str, limit: u64, content: &[u8]) -> bool {
    match shelf.read(name, limit) {
        Ok(bytes) => bytes.as_slice() == content,
        Err(_) => false,
    }
}

// Whether a shelf in memory, whose first read fails, then returns its one file, and each error.
fn gives_in_memory(alloc: Global) -> Result<bool, AllocError> {
    let mut shelf = MemShelf::new(alloc, one_file(alloc)?, vec![in alloc; 1]?);
    Ok(
        failure(&mut shelf, "policy", 5) == Some(ShelfError::Failed)
            && gives(&mut shelf, "policy", 5, b"first")
            && failure(&mut shelf, "policies", 5) == Some(ShelfError::Missing)
            && failure(&mut shelf, "policy", 4) == Some(ShelfError::TooLong),
    )
}

#[test]
fn reads_files_in_memory(rt: HostRuntime) {
    assert!(rt; gives_in_memory(rt.alloc()) == Ok(true));
}

// Whether a shelf without faults returns its file.
fn gives_in_calm(alloc: Global) -> Result<bool, AllocError> {
    let mut calm = CalmShelf::new(alloc, one_file(alloc)?);
    Ok(gives(&mut calm, "policy", 5, b"first"))
}

#[test]
fn reads_files_without_faults(rt: HostRuntime) {
    assert!(rt; gives_in_calm(rt.alloc()) == Ok(true));
}

// Whether a sink that accepts ten bytes at once, and fails at the second write, has the first ten.
fn keeps_first(alloc: Global) -> Result<bool, AllocError> {
    let mut sink = MemSink::new(alloc, 10, vec![in alloc; 2]?);
    let written = write_whole(&mut sink, b"twenty-five bytes of text");
    let has_failed = written.err() == Some(SinkError::Failed);
    Ok(has_failed && sink.bytes() == b"twenty-fiv".as_slice())
}

#[test]
fn keeps_what_came_before_a_fault(rt: HostRuntime) {
    assert!(rt; keeps_first(rt.alloc()) == Ok(true));
}

// Whether a sink gets this many bytes.
fn takes(alloc: Global, count: usize) -> Result<bool, AllocError> {
    let bytes = vec![in alloc; 7u8; count]?;
    let mut calm = CalmSink::new(alloc);
    let written = write_whole(&mut calm, &bytes);
    Ok(written.is_ok() && calm.bytes().len() == count)
}

#[test]
fn writes_in_pieces(rt: HostRuntime) {
    assert!(rt; takes(rt.alloc(), 70_000) == Ok(true));
}

#[test]
fn reads_files_of_the_system(rt: HostRuntime) {
    let mut shelf = DiskShelf::new(rt);
    let missing = failure(&mut shelf, "/no/such/file", 9);
    let failed = failure(&mut shelf, "/", 9);
    let too_long = failure(&mut shelf, "/dev/zero", 9);
    assert!(rt; missing == Some(ShelfError::Missing) && failed == Some(ShelfError::Failed));
    assert!(rt; too_long == Some(ShelfError::TooLong) && gives(&mut shelf, "/dev/null", 0, b""));
}

#[test]
fn writes_to_streams(rt: HostRuntime) {
    let out = StdSink::new(rt.stdout()).write(b"");
    let errs = StdSink::new(rt.stderr()).write(b"");
    assert!(rt; out == Ok(0) && errs == Ok(0));
}

#[test]
fn tells_a_full_device(rt: HostRuntime) -> Result<(), Fail> {
    let full = OpenOptions::new().write(true).open(&rt, "/dev/full")?;
    assert!(rt; StdSink::new(full).write(b"x").err() == Some(SinkError::Failed));
    Ok(())
}

#[test]
fn tells_a_full_slice(rt: HostRuntime) {
    let mut room = [0; 3];
    let written = write_whole(&mut StdSink::new(room.as_mut_slice()), b"four");
    assert!(rt; written.err() == Some(SinkError::Failed) && room.as_slice() == b"fou".as_slice());
}

// What the stream accepts is buffered until the flush, which has room for only three bytes.
#[test]
fn tells_a_failed_flush(rt: HostRuntime) -> Result<(), Fail> {
    let mut room = [0; 3];
    let held_back = BufWriter::new(rt.alloc(), room.as_mut_slice())?;
    assert!(rt; StdSink::new(held_back).write(b"four").err() == Some(SinkError::Failed));
    Ok(())
}

// A stream whose first write and first flush a signal interrupts.
#[derive(Drop)]
struct Signalled {
    wrote: bool,
    flushed: bool,
}

// `Ok` if it was done before; otherwise the error of a signal that interrupted it.
fn once_interrupted(done: &mut bool) -> io::Result<()> {
    if *done {
        return Ok(());
    }
    *done = true;
    Err(io::Error::from(ErrorKind::Interrupted))
}

impl Write for Signalled {
    fn write(&mut self, bytes: &[u8]) -> io::Result<usize> {
        once_interrupted(&mut self.wrote)?;
        Ok(bytes.len())
    }

    fn flush(&mut self) -> io::Result<()> {
        once_interrupted(&mut self.flushed)
    }
}

#[test]
fn writes_again_what_is_interrupted(rt: HostRuntime) {
    let stream = Signalled {
        wrote: false,
        flushed: false,
    };
    assert!(rt; StdSink::new(stream).write(b"four") == Ok(4));
}
