//! Changes of policies read from CSV text, and refused.
use crate::refusals::first_other;
use policy_file::{
    NoPort, PolicyError, PolicyFile, check_policy_file_ports, is_change, read_change, read_file,
    read_policy, write_change,
};
use policy_rules::{Action, PortRange, Prefix, Proto, Row};
use std::alloc::{AllocError, Global};
use std::fmt::Write;

fn under_heading(alloc: Global, rows: &str) -> Result<Vec<u8>, AllocError> {
    let text = format!(in alloc; "op,priority,src,dst,sport,dport,proto,action\n{rows}")?;
    Ok(text.into_bytes())
}

// The code and the row of a refusal.
fn refusal<T: Drop>(outcome: Result<T, PolicyError>) -> Option<(u32, u32)> {
    match outcome {
        Err(PolicyError::Refused(why)) => Some((why.refusal.code(), why.row)),
        _ => None,
    }
}

fn secure_row() -> Row {
    Row {
        priority: 90,
        src: Prefix::new(0x0a00_0000, 8),
        dst: Prefix::new(0, 0),
        sport: PortRange {
            low: 0,
            high: u16::MAX,
        },
        dport: PortRange {
            low: 443,
            high: 443,
        },
        proto: Proto::Is(6),
        action: Action::Out(4),
    }
}

// The file of one row that is removed and one that is added.
fn file(alloc: Global) -> Result<Vec<u8>, AllocError> {
    under_heading(
        alloc,
        "remove,100\nadd,90,10.0.0.0/8,any,any,443,tcp,out:4\n",
    )
}

// Whether the change removes the row of priority 100 and adds the secure one.
fn is_read(alloc: Global) -> Option<bool> {
    let text = file(alloc).ok()?;
    let change = read_change(alloc, &text).ok()?;
    let removes = change.removed() == [100].as_slice();
    Some(removes && change.added() == [secure_row()].as_slice())
}

#[test]
fn reads_what_is_removed_and_added(rt: HostRuntime) {
    assert!(rt; is_read(rt.alloc()) == Some(true));
}

const WHOLE: &[u8] = b"priority,src,dst,sport,dport,proto,action\n5,any,any,any,any,any,drop\n";

// Whether the file of this text is a change, by its heading; `None` if reading it says otherwise.
fn is_change_file(alloc: Global, text: &[u8]) -> Option<bool> {
    let is_change = is_change(alloc, text).ok()?;
    let is_read = matches!(read_file(alloc, text).ok()?, PolicyFile::Change(_));
    if is_change == is_read {
        Some(is_change)
    } else {
        None
    }
}

// Whether a reader refused the text for its heading.
fn has_other_heading<T: Drop>(outcome: Result<T, PolicyError>) -> bool {
    refusal(outcome) == Some((1, 0))
}

// Whether a change and a policy are known by their headings, and no reader accepts another one.
fn are_known(alloc: Global) -> Result<bool, AllocError> {
    let change = file(alloc)?;
    Ok(
        is_change_file(alloc, &change) == Some(true)
            && is_change_file(alloc, WHOLE) == Some(false)
            && has_other_heading(read_policy(alloc, &change))
            && has_other_heading(read_change(alloc, WHOLE))
            && has_other_heading(read_file(alloc, b"op,priority\n"))
            && has_other_heading(read_file(alloc, b"")),
    )
}

#[test]
fn files_are_known_by_their_headings(rt: HostRuntime) {
    assert!(rt; are_known(rt.alloc()) == Ok(true));
}

// Texts of a third row, each with the code of its refusal.
const REFUSED: [(&str, u32); 15] = [
    ("swap,5", 22),
    ("Remove,5,5", 22),
    ("remove", 2),
    ("remove,8,any", 2),
    ("add,8,any,any,any,any,any", 2),
    ("remove,08", 3),
    ("add,4294967296,any,any,any,any,any,drop", 3),
    ("add,8,10.0.0.0/33,any,any,any,any,drop", 4),
    ("add,8,any,1.2.3,any,any,any,drop", 5),
    ("add,8,any,any,9-8,any,any,drop", 6),
    ("add,8,any,any,any,65536,any,drop", 7),
    ("add,8,any,any,any,any,sctp,drop", 8),
    ("add,8,any,any,any,any,any,out:64", 9),
    ("remove,7", 10),
    ("add,7,any,any,any,any,any,drop", 10),
];

// The code and the row of the refusal of a change of these rows.
fn refused(alloc: Global, rows: &str) -> Result<Option<(u32, u32)>, AllocError> {
    let text = under_heading(alloc, rows)?;
    Ok(refusal(read_file(alloc, &text)))
}

#[test]
fn refuses_with_code_and_row(rt: HostRuntime) {
    let head = "op,priority,src,dst,sport,dport,proto,action\n\
        remove,7\nadd,7,any,any,any,any,any,drop\n";
    let refused_file = |alloc, text: &[u8]| refusal(read_file(alloc, text));
    let other = first_other(rt.alloc(), (head, "\n"), 3, &REFUSED, refused_file);
    assert_eq!(rt; other, Ok(None));
}

// 2000 edits.
fn many_edits(alloc: Global) -> Result<String, AllocError> {
    let mut rows = String::new(alloc);
    for priority in 0..1000u32 {
        writeln!(rows, "remove,{priority}")?;
        writeln!(rows, "add,{priority},any,any,any,any,any,drop")?;
    }
    Ok(rows)
}

// How many edits the change of these rows has.
fn edit_count(alloc: Global, rows: &str) -> Option<usize> {
    let text = under_heading(alloc, rows).ok()?;
    Some(read_change(alloc, &text).ok()?.edits().len())
}

// Whether 2000 edits are read, and one of another kind after them is refused for their count.
fn reads_most(alloc: Global) -> Result<bool, AllocError> {
    let mut rows = many_edits(alloc)?;
    let count = edit_count(alloc, rows.as_str());
    rows.push_str("swap\n")?;
    Ok(count == Some(2000) && refused(alloc, rows.as_str())? == Some((11, 2001)))
}

#[test]
fn takes_2000_edits_and_no_more(rt: HostRuntime) {
    assert!(rt; reads_most(rt.alloc()) == Ok(true));
}

// What the check returns for the added row, which names port 4, on a network with these ports.
fn checked(alloc: Global, ports: u64) -> Option<Result<(), NoPort>> {
    let text = file(alloc).ok()?;
    let change = read_file(alloc, &text).ok()?;
    Some(check_policy_file_ports(&change, ports))
}

#[test]
fn checks_the_ports_of_added_rows(rt: HostRuntime) {
    assert!(rt; checked(rt.alloc(), 0b1_0000) == Some(Ok(())));
    assert!(rt; checked(rt.alloc(), 0b0_1111) == Some(Err(NoPort { row: 2 })));
}

// Whether the change of these rows is printed as the file.
fn is_printed(alloc: Global, rows: &str) -> Option<bool> {
    let text = under_heading(alloc, rows).ok()?;
    let change = read_change(alloc, &text).ok()?;
    let printed = write_change(alloc, &change).ok()?;
    Some(printed.as_slice() == file(alloc).ok()?.as_slice())
}

#[test]
fn prints_changes(rt: HostRuntime) {
    let rows = "remove,\"100\"\nadd,90,10.1.2.3/8,any,any,443,6,out:4";
    assert!(rt; is_printed(rt.alloc(), rows) == Some(true));
}
