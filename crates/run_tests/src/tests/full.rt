//! The hub of a star of 64 switches, which sends everything again until the journal is full.
use crate::files::DROP;
use crate::runs::{Ran, calls, ended, metered, shelf_of};
use shelf::MemSink;
use std::alloc::Global;
use std::fmt::Write;
use std::test::Fail;

const ARGS: [&str; 5] = ["replay", "s.csv", "p.csv", "--net", "n.toml"];

/// A hub that is the authority, with a link to each of 63 other switches.
fn star(alloc: Global) -> Result<String, Fail> {
    let mut switches = String::new(alloc);
    let mut links = String::new(alloc);
    for k in 1..64u32 {
        write!(switches, ", {{ name = \"s{k}\" }}")?;
        write!(links, "{{ ends = [\"hub\", \"s{k}\"] }}, ")?;
    }
    Ok(format!(in alloc;
        "switch = [{{ name = \"hub\", authority = 8192 }}{switches}]\nlink = [{links}]\n"
    )?)
}

/// This many rows in which the hub sends everything again; the write of this number fails, counted
/// from 1, or none if it is 0.
fn told_again(alloc: Global, rows: u32, failing_write: u64) -> Result<Ran, Fail> {
    let mut schedule = String::from_str(alloc, "event,arguments\n")?;
    for _ in 0..rows {
        schedule.push_str("resend,hub\n")?;
    }
    let net = star(alloc)?;
    let files = [
        ("s.csv", schedule.as_str()),
        ("p.csv", DROP),
        ("n.toml", net.as_str()),
    ];
    let out = MemSink::new(alloc, u64::MAX, calls(alloc, failing_write)?);
    let errs = MemSink::new(alloc, u64::MAX, Vec::new(alloc));
    let shelf = shelf_of(alloc, &files)?;
    let (ran, _, _) = metered(alloc, &ARGS, shelf, out, errs, Vec::new(alloc))?;
    Ok(ran)
}

// The play stops full at its last row, and its first write fails.
#[test]
fn prints_nothing_of_a_full_play(rt: HostRuntime) -> Result<(), Fail> {
    let ran = told_again(rt.alloc(), 247, 1)?;
    assert!(rt; ended(&ran, 5, "", "difane: write fault\n"));
    Ok(())
}

/// A row sends the hub's Hello, 64 adverts to each of 63 switches, and its Open: 4,034 messages. So
/// 246 rows send 992,364, and the last step begins below 990,000; the 247th begins full.
#[test]
fn tells_all_again_until_full(rt: HostRuntime) -> Result<(), Fail> {
    let (status, whole, _) = told_again(rt.alloc(), 246, 0)?;
    let last = b"  sent 992364 hub open boot 1 version 1\n";
    assert!(rt; status == 0 && whole.bytes().ends_with(last));
    let (status, part, errs) = told_again(rt.alloc(), 247, 0)?;
    let is_told = errs.bytes() == b"difane: full row 247\n".as_slice();
    assert!(rt; status == 6 && is_told && part.bytes() == whole.bytes());
    Ok(())
}
