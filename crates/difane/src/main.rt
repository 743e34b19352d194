//! `difane`: replays a schedule of packets against an access-control policy.
//!
//! This file only joins the proved call to the system: files, standard output and standard error.
#![tactic(auto)]

use difane_cli::{Status, run_metered, write_status};
use shelf::{DiskShelf, Sink, StdSink};
use std::alloc::AllocError;
use std::io::ErrorKind;
use std::process::ExitCode;
use std::rt::Env;
use std::{env, io, mem};

/// The arguments of the command line, without the program's name.
fn read_difane_arguments<R: Env + AllocGlobal>(rt: &R) -> io::Result<Vec<String>> {
    let mut args = Vec::new(rt.alloc());
    for arg in env::args(rt)?.skip(1) {
        args.push(arg)?;
    }
    Ok(args)
}

/// The status of a call whose arguments can't be read. If one isn't UTF-8, that is the status of
/// wrong arguments, and its line is written.
fn difane_unread_status<E: Sink>(kind: ErrorKind, errs: &mut E) -> Status {
    match kind {
        ErrorKind::OutOfMemory => Status::NoMemory,
        _ => {
            write_status(&Status::Words, errs);
            Status::Words
        }
    }
}

fn main(rt: HostRuntime) -> ExitCode {
    let alloc = rt.alloc();
    let mut errs = StdSink::new(rt.stderr());
    let args = match read_difane_arguments(&rt) {
        Ok(args) => args,
        Err(error) => return ExitCode::from(difane_unread_status(error.kind(), &mut errs).number()),
    };
    let mut out = StdSink::new(rt.stdout());
    let mut shelf = DiskShelf::new(rt);
    match run_metered(alloc, &args, &mut shelf, &mut out, &mut errs) {
        Ok(ending) => {
            // The process ends here: the system takes the journal's memory back at once.
            mem::forget(ending.journal);
            ExitCode::from(ending.status.number())
        }
        // The meters ran out of memory, and nothing is printed.
        Err(AllocError) => ExitCode::from(Status::NoMemory.number()),
    }
}
