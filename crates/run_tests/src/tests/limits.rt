//! Worked runs over files that are generated, or at the limits of what a policy may be.
use crate::files::NO_ROW;
use crate::runs::{Ran, ends, ran, run_over};
use base::Failure;
use cut_tree::{TooManyLeaves, build};
use policy_file::read_policy;
use policy_rules::to_rules;
use shelf::MemShelf;
use std::alloc::{AllocError, Global};
use std::fmt::Write;
use std::test::Fail;

/// One switch with small leaves, for which the root's bits 71 and 103 are alike: bit 71 is cut.
const SMALL_LEAVES: &str = "leaf_rules = 1\n\
    switch = [{ name = \"s0\", ports = [1], authority = 8 }]\n";

/// 513 rows, each in a leaf of its own.
fn hosts(alloc: Global) -> Result<String, Fail> {
    let mut text = String::from_str(alloc, "priority,src,dst,sport,dport,proto,action\n")?;
    for k in 1..514u32 {
        write!(
            text,
            "{k},10.0.{}.{}/32,any,any,any,any,drop\n",
            k / 256,
            k % 256
        )?;
    }
    Ok(text)
}

/// Four rows of 900 words each.
const WIDE_ROWS: &str = "priority,src,dst,sport,dport,proto,action\n\
    1,any,any,1-65534,1-65534,any,drop\n\
    2,any,any,1-65534,1-65534,any,drop\n\
    3,any,any,1-65534,1-65534,any,drop\n\
    4,any,any,1-65534,1-65534,any,drop\n";

/// A plan of four rows has 3,600 words; of five it would have more than 4,096.
#[test]
fn plans_up_to_4096_words(rt: HostRuntime) -> Result<(), Fail> {
    let (status, out, _) = run_over(rt.alloc(), &["compile", "p.csv"], &[("p.csv", WIDE_ROWS)])?;
    assert!(rt; status == 0 && out.bytes().starts_with(b"words 3600\npartitions 1\n"));
    Ok(())
}

/// Whether the tree of the policy's rules, of one rule in each leaf, has more than 512 leaves.
fn has_too_many_leaves(alloc: Global, policy: &str) -> Result<bool, Fail> {
    let rules = to_rules(alloc, &read_policy(alloc, policy.as_bytes())?)?;
    Ok(matches!(
        build(alloc, &rules, 1),
        Err(Failure::Refused(TooManyLeaves))
    ))
}

#[test]
fn plans_up_to_512_leaves(rt: HostRuntime) -> Result<(), Fail> {
    let hosts = hosts(rt.alloc())?;
    let files = [("p.csv", hosts.as_str()), ("n.toml", SMALL_LEAVES)];
    let ran = run_over(rt.alloc(), &["compile", "p.csv", "--net", "n.toml"], &files);
    assert!(rt; ends(ran, 3, "", "difane: input p.csv code 14 row 0\n"));
    assert!(rt; has_too_many_leaves(rt.alloc(), hosts.as_str())?);
    Ok(())
}

/// A policy too long by a byte.
#[test]
fn refuses_a_policy_too_long(rt: HostRuntime) -> Result<(), Fail> {
    let alloc = rt.alloc();
    let mut policy = Vec::from_slice(alloc, NO_ROW.as_bytes())?;
    policy.resize(16_777_217, b'a')?;
    let mut files = Vec::new(alloc);
    files.push((String::from_str(alloc, "p.csv")?, policy))?;
    let shelf = MemShelf::new(alloc, files, Vec::new(alloc));
    let ran = ran(alloc, &["compile", "p.csv"], shelf);
    assert!(rt; ends(ran, 3, "", "difane: input p.csv code 20 row 0\n"));
    Ok(())
}

const POLICY: &str = "priority,src,dst,sport,dport,proto,action\n\
    100,10.0.0.0/8,any,any,80,tcp,out:3\n50,any,any,any,any,any,drop\n";

/// A replay of this schedule with this change.
fn changed<'a>(alloc: Global, schedule: &'a str, change: &'a str) -> Result<Ran, AllocError> {
    let files = [("s.csv", schedule), ("p.csv", POLICY), ("c.csv", change)];
    run_over(alloc, &["replay", "s.csv", "p.csv", "c.csv"], &files)
}

/// A change that adds 1,999 rows: one too many.
fn adding(alloc: Global) -> Result<String, AllocError> {
    let mut text = String::from_str(alloc, "op,priority,src,dst,sport,dport,proto,action\n")?;
    for priority in 1001..3000 {
        writeln!(text, "add,{priority},any,any,any,any,any,drop")?;
    }
    Ok(text)
}

#[test]
fn refuses_a_change_of_too_many_rows(rt: HostRuntime) -> Result<(), Fail> {
    let many = adding(rt.alloc())?;
    let ran = changed(rt.alloc(), "event,arguments\nupdate,2\n", &many);
    assert!(rt; ends(ran, 0, "row 1: update 2\n  refused file 2 code 26\n", ""));
    Ok(())
}

/// A change that replaces the first row by another one.
const OTHER: &str = "op,priority,src,dst,sport,dport,proto,action\n\
    remove,100\nadd,90,10.0.0.0/8,any,any,443,tcp,out:4\n";

const CHANGED_TWICE: &str = "event,arguments\n\
    update,2\nupdate,2\nflush\npacket,s0,10.1.1.1,9.9.9.9,5000,443,tcp\n";

/// The second update finds no row 100 in the newest policy.
const SUBMITTED_ONCE: &[u8] = b"row 1: update 2\n\
    \x20 submitted file 2 version 2\n\
    \x20 sent 1 s0 install boot 1 version 2\n\
    row 2: update 2\n\
    \x20 refused file 2 code 24\n";

const DECIDED: &[u8] = b"row 4: packet s0 10.1.1.1 9.9.9.9 5000 443 tcp\n\
    \x20 entered 1 s0\n\
    \x20 decided 1 v2 rule 90 out:4 authority s0 part 0\n\
    \x20 out 1 port 4\n";

#[test]
fn decides_by_what_a_change_made(rt: HostRuntime) -> Result<(), Fail> {
    let (status, out, _) = changed(rt.alloc(), CHANGED_TWICE, OTHER)?;
    let text = out.bytes();
    assert!(rt; status == 0 && text.starts_with(SUBMITTED_ONCE) && text.ends_with(DECIDED));
    Ok(())
}

const ONE_PACKET: &str = "event,arguments\npacket,s0,10.1.1.1,9.9.9.9,5000,80,tcp\n";

const DROPPED: &str = "row 1: packet s0 10.1.1.1 9.9.9.9 5000 80 tcp\n\
    \x20 entered 1 s0\n\
    \x20 decided 1 v1 rule default drop authority s0 part 0\n\
    \x20 dropped 1\n";

/// A policy without rows, on one switch: the default decides.
#[test]
fn drops_what_no_row_matches(rt: HostRuntime) {
    let files = [("s.csv", ONE_PACKET), ("p.csv", NO_ROW)];
    let ran = run_over(rt.alloc(), &["replay", "s.csv", "p.csv"], &files);
    assert!(rt; ends(ran, 0, DROPPED, ""));
}
