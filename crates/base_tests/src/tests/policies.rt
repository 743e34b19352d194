//! Policies read from CSV text, and refused.
use crate::refusals::first_other;
use policy_file::{NoPort, Policy, PolicyError, check_ports, read_policy, write_policy};
use policy_rules::{Action, PortRange, Prefix, Proto, Row};
use std::alloc::{AllocError, Global};
use std::fmt::Write;

fn under_heading(alloc: Global, rows: &str) -> Result<Vec<u8>, AllocError> {
    let text = format!(in alloc; "priority,src,dst,sport,dport,proto,action\n{rows}")?;
    Ok(text.into_bytes())
}

// The code and the row of the refusal of this text.
fn refused(alloc: Global, text: &[u8]) -> Option<(u32, u32)> {
    match read_policy(alloc, text) {
        Err(PolicyError::Refused(why)) => Some((why.refusal.code(), why.row)),
        _ => None,
    }
}

const PORTS: PortRange = PortRange {
    low: 0,
    high: u16::MAX,
};

fn web_row() -> Row {
    Row {
        priority: 7,
        src: Prefix::new(0x0a00_0000, 8),
        dst: Prefix::new(0, 0),
        sport: PORTS,
        dport: PortRange { low: 80, high: 80 },
        proto: Proto::Is(6),
        action: Action::Out(2),
    }
}

fn host_row() -> Row {
    Row {
        priority: 5,
        src: Prefix::new(0, 0),
        dst: Prefix::new(0x0102_0304, 32),
        sport: PortRange { low: 0, high: 1023 },
        dport: PORTS,
        proto: Proto::Is(17),
        action: Action::Drop,
    }
}

// Whether the text is the policy of these rows.
fn is_read(alloc: Global, text: &[u8], rows: &[Row]) -> bool {
    match read_policy(alloc, text) {
        Ok(policy) => policy.rows() == rows,
        Err(_) => false,
    }
}

#[test]
fn reads_quotes_line_ends_and_blank_lines(rt: HostRuntime) {
    let text = b"priority,src,dst,sport,dport,proto,action\r\n\r\n\
          7,\"10.1.2.3/8\",any,any,\"80\",tcp,out:2\r\n\n5,any,1.2.3.4,0-1023,any,17,drop";
    assert!(rt; is_read(rt.alloc(), text, &[web_row(), host_row()]));
}

#[test]
fn refuses_other_headings(rt: HostRuntime) {
    let empty = refused(rt.alloc(), b"\n");
    let short = refused(rt.alloc(), b"priority,src\n");
    assert!(rt; empty == Some((1, 0)) && short == Some((1, 0)));
}

// Texts of a second row, each with the code of its refusal.
const REFUSED: [(&str, u32); 9] = [
    ("8,any,any,any,any,any", 2),
    ("4294967296,any,any,any,any,any,drop", 3),
    ("8,10.0.0.0/33,any,any,any,any,drop", 4),
    ("8,any,1.2.3,any,any,any,drop", 5),
    ("8,any,any,9-8,any,any,drop", 6),
    ("8,any,any,any,65536,any,drop", 7),
    ("8,any,any,any,any,sctp,drop", 8),
    ("8,any,any,any,any,any,out:64", 9),
    ("7,any,any,any,any,any,drop", 10),
];

#[test]
fn refuses_with_code_and_row(rt: HostRuntime) {
    let head = "priority,src,dst,sport,dport,proto,action\n7,any,any,any,any,any,drop\n";
    let other = first_other(rt.alloc(), (head, "\n"), 2, &REFUSED, refused);
    assert_eq!(rt; other, Ok(None));
}

// 2000 rows, and this text after them.
fn many_rows(alloc: Global, behind: &str) -> Result<Vec<u8>, AllocError> {
    let mut rows = String::new(alloc);
    for priority in 0..2000u32 {
        writeln!(rows, "{priority},any,any,any,any,any,drop")?;
    }
    rows.push_str(behind)?;
    under_heading(alloc, rows.as_str())
}

// How many rows the policy of this text has.
fn row_count(alloc: Global, text: &[u8]) -> Option<usize> {
    Some(read_policy(alloc, text).ok()?.rows().len())
}

// Whether 2000 rows are read, and a short one after them is refused for their count.
fn reads_most(alloc: Global) -> Result<bool, AllocError> {
    let most = many_rows(alloc, "")?;
    let more = many_rows(alloc, "short\n")?;
    Ok(row_count(alloc, &most) == Some(2000) && refused(alloc, &more) == Some((11, 2001)))
}

#[test]
fn takes_2000_rows_and_no_more(rt: HostRuntime) {
    assert!(rt; reads_most(rt.alloc()) == Ok(true));
}

// The policy of one row.
fn policy_of(alloc: Global, row: &str) -> Option<Policy> {
    let text = under_heading(alloc, row).ok()?;
    read_policy(alloc, &text).ok()
}

// What the check returns for a row that names port 2, on a network with these ports.
fn checked(alloc: Global, ports: u64) -> Option<Result<(), NoPort>> {
    let policy = policy_of(alloc, "1,any,any,any,any,any,out:2\n")?;
    Some(check_ports(&policy, ports))
}

#[test]
fn checks_ports(rt: HostRuntime) {
    let absent = checked(rt.alloc(), 2);
    assert!(rt; absent == Some(Err(NoPort { row: 1 })) && checked(rt.alloc(), 4) == Some(Ok(())));
}

// Whether the policy of the first row is printed as the second.
fn is_printed(alloc: Global, row: &str, printed: &str) -> Option<bool> {
    let policy = policy_of(alloc, row)?;
    let wanted = under_heading(alloc, printed).ok()?;
    let text = write_policy(alloc, &policy).ok()?;
    Some(text.as_slice() == wanted.as_slice())
}

#[test]
fn prints_policies(rt: HostRuntime) {
    let row = "1,10.1.2.3/8,any,any,any,any,drop\n";
    let printed = "1,10.0.0.0/8,any,any,any,any,drop\n";
    assert!(rt; is_printed(rt.alloc(), row, printed) == Some(true));
}
