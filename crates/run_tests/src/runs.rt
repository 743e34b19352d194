//! Runs of the program over files and outputs in memory.
use difane_cli::{Meter, run};
use journal::Journal;
use shelf::{MemShelf, MemSink};
use std::alloc::{AllocError, Global};

/// The status of a run, its output and its line of errors.
pub type Ran = (u8, MemSink, MemSink);

/// These arguments as owned strings.
pub fn owned(alloc: Global, args: &[&str]) -> Result<Vec<String>, AllocError> {
    let mut all = Vec::new(alloc);
    for arg in args {
        all.push(String::from_str(alloc, arg)?)?;
    }
    Ok(all)
}

/// A run, the journal of what it played, and how many of its meters were given back.
pub type Metered = (Ran, Journal, usize);

/// A run with these arguments over this shelf and these sinks, with these meters.
pub fn metered(
    alloc: Global,
    args: &[&str],
    mut shelf: MemShelf,
    mut out: MemSink,
    mut errs: MemSink,
    meters: Vec<Box<dyn Meter>>,
) -> Result<Metered, AllocError> {
    let args = owned(alloc, args)?;
    let finished = run(alloc, &args, &mut shelf, &mut out, &mut errs, meters);
    let still = finished.meters.len();
    let ran = (finished.status.number(), out, errs);
    Ok((ran, finished.journal, still))
}

/// A run with these arguments over this shelf, without meters and faults of its sinks.
pub fn ran(alloc: Global, args: &[&str], shelf: MemShelf) -> Result<Ran, AllocError> {
    let (out, errs) = (sink(alloc), sink(alloc));
    let (ran, _, _) = metered(alloc, args, shelf, out, errs, Vec::new(alloc))?;
    Ok(ran)
}

/// A run with these arguments over these files, without meters.
pub fn run_over(alloc: Global, args: &[&str], files: &[(&str, &str)]) -> Result<Ran, AllocError> {
    ran(alloc, args, shelf_of(alloc, files)?)
}

/// A shelf of files with these names and texts; if a number isn't 0, the read with it fails.
pub fn shelf_with_fault(
    alloc: Global,
    files: &[(&str, &str)],
    failing_read: u64,
) -> Result<MemShelf, AllocError> {
    let mut all = Vec::new(alloc);
    for (name, text) in files {
        let name = String::from_str(alloc, name)?;
        all.push((name, Vec::from_slice(alloc, text.as_bytes())?))?;
    }
    Ok(MemShelf::new(alloc, all, calls(alloc, failing_read)?))
}

/// A shelf of files with these names and texts.
pub fn shelf_of(alloc: Global, files: &[(&str, &str)]) -> Result<MemShelf, AllocError> {
    shelf_with_fault(alloc, files, 0)
}

/// The calls that fail: the one of this number, counted from 1; none at 0.
pub fn calls(alloc: Global, number: u64) -> Result<Vec<u64>, AllocError> {
    let mut all = Vec::new(alloc);
    if number > 0 {
        all.push(number)?;
    }
    Ok(all)
}

/// A sink that accepts everything.
pub fn sink(alloc: Global) -> MemSink {
    MemSink::new(alloc, u64::MAX, Vec::new(alloc))
}

/// Whether the run ended with this status, this output and this line of errors.
pub fn ended(ran: &Ran, status: u8, out: &str, line: &str) -> bool {
    let (number, written, told) = ran;
    *number == status && written.bytes() == out.as_bytes() && told.bytes() == line.as_bytes()
}

/// Whether there was memory for the files of a run, and it ended like this.
pub fn ends(told: Result<Ran, AllocError>, status: u8, out: &str, line: &str) -> bool {
    match told {
        Ok(ran) => ended(&ran, status, out, line),
        Err(_) => false,
    }
}
