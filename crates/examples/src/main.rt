//! Runs the examples of the repository, and compares what each writes with the file of its
//! expected output.
//!
//! Each line of `index.txt` has the name of that file, or `-` if nothing is to be written, and
//! then the arguments of a command, separated by blanks. The folder of the examples is `data`;
//! `examples` at the top of the repository is a link to it.
#![tactic(auto)]

use difane_cli::run_metered;
use shelf::{DiskShelf, MemSink, Shelf, ShelfError, StdSink, write_whole};
use std::alloc::{AllocError, Global};
use std::process::ExitCode;

/// The most bytes of an expected output.
const LIMIT: u64 = 1 << 20;

/// What a command wrote, how it ended, and the line that says so.
#[derive(Drop)]
struct Answer {
    status: u8,
    out: MemSink,
    errs: MemSink,
}

/// What the program writes, and how it ends.
fn ask<F: Shelf>(alloc: Global, shelf: &mut F, args: &Vec<String>) -> Result<Answer, AllocError> {
    let mut out = MemSink::new(alloc, u64::MAX, Vec::new(alloc));
    let mut errs = MemSink::new(alloc, u64::MAX, Vec::new(alloc));
    let ending = run_metered(alloc, args, shelf, &mut out, &mut errs)?;
    Ok(Answer {
        status: ending.status.number(),
        out,
        errs,
    })
}

/// The content of the file of this name, or nothing if the name is `-`.
fn expected<F: Shelf>(alloc: Global, shelf: &mut F, name: &str) -> Result<Vec<u8>, ShelfError> {
    if name == "-" {
        return Ok(Vec::new(alloc));
    }
    shelf.read(name, LIMIT)
}

fn args_of(alloc: Global, line: &str) -> Result<Vec<String>, AllocError> {
    let mut args = Vec::new(alloc);
    for arg in line.split(' ') {
        args.push(String::from_str(alloc, arg)?)?;
    }
    Ok(args)
}

/// The report on a line of the index.
fn answer_to<F: Shelf>(alloc: Global, shelf: &mut F, line: &str) -> anyhow::Result<String> {
    let Some((name, args)) = line.split_once(' ') else {
        return Ok(String::from_str(alloc, "no command\n")?);
    };
    let answer = ask(alloc, shelf, &args_of(alloc, args)?)?;
    let wanted = expected(alloc, shelf, name)?;
    let same = if answer.out.bytes() == wanted.as_slice() {
        "as"
    } else {
        "NOT AS"
    };
    let errs = String::from_utf8_lossy(alloc, answer.errs.bytes())?;
    Ok(format!(in alloc; "{args}\n  status {}, {same} {name}\n{errs}", answer.status)?)
}

fn main(rt: HostRuntime) -> anyhow::Result<()> {
    let alloc = rt.alloc();
    let mut out = StdSink::new(rt.stdout());
    let mut shelf = DiskShelf::new(rt);
    let index = shelf.read("index.txt", LIMIT)?;
    for line in String::from_utf8_lossy(alloc, &index)?.lines() {
        write_whole(&mut out, answer_to(alloc, &mut shelf, line)?.as_bytes())?;
    }
    Ok(())
}
