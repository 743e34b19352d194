//! Changes of a policy of two rows.
ghost use Rattle.std.specs.Prelude.{◌<◌, ◌+◌, ◌^◌, length};

use base::Failure;
use five_tuple::{Fields, Header, Prefix};
use policy_rules::{
    Action, Amendment, Edit, Hit, Inapplicable, Policy, PolicyFile, PortRange, Proto, Repeated,
    Row, apply,
};
use std::alloc::Global;

const ANY: PortRange = PortRange {
    low: 0,
    high: u16::MAX,
};

// A row on packets to any address, from these and, if a port is given, of TCP to this port.
fn row(priority: u32, src: Prefix, port: Option<u16>, action: Action) -> Row {
    let (dport, proto) = match port {
        None => (ANY, Proto::Any),
        Some(port) => (
            PortRange {
                low: port,
                high: port,
            },
            Proto::Is(6),
        ),
    };
    Row {
        priority,
        src,
        dst: Prefix::new(0, 0),
        sport: ANY,
        dport,
        proto,
        action,
    }
}

fn drop_row(priority: u32) -> Row {
    row(priority, Prefix::new(0, 0), None, Action::Drop)
}

fn web_row() -> Row {
    row(100, Prefix::new(0x0a00_0000, 8), Some(80), Action::Out(3))
}

fn secure_row() -> Row {
    row(90, Prefix::new(0x0a00_0000, 8), Some(443), Action::Out(4))
}

// The policy of the rows of priority 100 and 50.
fn policy(alloc: Global) -> Option<Policy> {
    let rows = Vec::from_slice(alloc, &[web_row(), drop_row(50)]).ok()?;
    Policy::new(alloc, rows).ok()
}

// The header of a packet from 10.1.1.1 to 9.9.9.9, from port 5000 to this one, of TCP.
fn header(dport: u16) -> Header {
    Header::pack(&Fields {
        src: 0x0a01_0101,
        dst: 0x0909_0909,
        sport: 5000,
        dport,
        proto: 6,
    })
}

fn change(alloc: Global, removed: &[u32], added: &[Row]) -> Result<Amendment, Failure<Repeated>>
    requires { length removed.now + length added.now < 2 ^ 32 }
{
    let removed = Vec::from_slice(alloc, removed)?;
    let added = Vec::from_slice(alloc, added)?;
    Amendment::new(alloc, removed, added)
}

// What the change makes of the policy of two rows.
fn amended(alloc: Global, change: &Amendment) -> Option<Result<Policy, Failure<Inapplicable>>> {
    Some(apply(alloc, &policy(alloc)?, change))
}

// The change that replaces the web row by the secure one.
fn securing(alloc: Global) -> Option<Amendment> {
    change(alloc, &[100], &[secure_row()]).ok()
}

fn lists(amendment: &Amendment) -> bool {
    amendment.removed() == [100].as_slice() && amendment.added() == [secure_row()].as_slice()
}

fn decides(policy: &Policy) -> bool {
    policy.rows() == [drop_row(50), secure_row()].as_slice()
        && policy.scan(&header(443)) == Hit::of(&secure_row())
        && policy.scan(&header(80)) == Hit::of(&drop_row(50))
}

// Whether the change lists its rows, makes the new policy in order, and can't be applied twice.
fn is_made_once(alloc: Global) -> Option<bool> {
    let change = securing(alloc)?;
    let policy = amended(alloc, &change)?.ok()?;
    let again = apply(alloc, &policy, &change).err();
    let is_absent = again == Some(Failure::Refused(Inapplicable::Absent));
    Some(is_absent && lists(&change) && decides(&policy))
}

#[test]
fn changes_rows_in_their_order(rt: HostRuntime) {
    assert!(rt; is_made_once(rt.alloc()) == Some(true));
}

// Whether a change may remove a row and add another one of the same priority.
fn is_replaced(alloc: Global) -> Option<bool> {
    let wide = row(100, Prefix::new(0, 0), None, Action::Out(1));
    let change = change(alloc, &[100], &[wide]).ok()?;
    let policy = amended(alloc, &change)?.ok()?;
    Some(policy.rows() == [drop_row(50), wide].as_slice())
}

#[test]
fn replaces_a_row_that_is_removed_and_added(rt: HostRuntime) {
    assert!(rt; is_replaced(rt.alloc()) == Some(true));
}

// The refusal of a change that removes these rows, and adds one whose priority is in use.
fn refused(alloc: Global, removed: &[u32]) -> Option<Failure<Inapplicable>>
    requires { length removed.now < 1000 }
{
    let change = change(alloc, removed, &[drop_row(50)]).ok()?;
    amended(alloc, &change)?.err()
}

#[test]
fn refuses_what_is_absent_first(rt: HostRuntime) {
    let taken = refused(rt.alloc(), &[]);
    assert!(rt; taken == Some(Failure::Refused(Inapplicable::Taken)));
    let absent = refused(rt.alloc(), &[7]);
    assert!(rt; absent == Some(Failure::Refused(Inapplicable::Absent)));
}

// The change that adds a row of each priority from this one below 3000.
fn adding(alloc: Global, least: u32) -> Option<Amendment> {
    let mut added = Vec::new(alloc);
    for priority in least..3000u32 {
        added.push(Edit::Add(drop_row(priority))).ok()?;
    }
    if added.len() > 2000 {
        return None;
    }
    Amendment::of_edits(alloc, added).ok()
}

// Whether two rows and 1998 more are a policy, and two and 1999 more are too many.
fn takes_most(alloc: Global) -> Option<bool> {
    let (most, more) = (adding(alloc, 1002)?, adding(alloc, 1001)?);
    let policy = amended(alloc, &most)?.ok()?;
    let refused = amended(alloc, &more)?.err();
    let too_many = Failure::Refused(Inapplicable::TooManyRows { rows: 2001 });
    let are_many = more.edits().len() == 1999 && refused == Some(too_many);
    Some(are_many && policy.rows().len() == 2000)
}

#[test]
fn takes_2000_rows_and_no_more(rt: HostRuntime) {
    assert!(rt; takes_most(rt.alloc()) == Some(true));
}

// The refusal of a change that removes and adds these, with the edit that repeats an earlier one.
fn repeated(alloc: Global, removed: &[u32], added: &[Row]) -> Option<Failure<Repeated>>
    requires { length removed.now + length added.now < 2 ^ 32 }
{
    change(alloc, removed, added).err()
}

#[test]
fn names_the_first_edit_that_repeats_one(rt: HostRuntime) {
    let third = Some(Failure::Refused(Repeated { edit: 3 }));
    assert!(rt; repeated(rt.alloc(), &[5, 7, 5], &[]) == third);
    assert!(rt; repeated(rt.alloc(), &[5], &[drop_row(5), drop_row(5)]) == third);
}

fn edit_count(file: &PolicyFile) -> usize {
    match file {
        PolicyFile::Whole(_) => 0,
        PolicyFile::Change(change) => change.edits().len(),
    }
}

// How many edits the second of two files has, a policy and a change.
fn held(alloc: Global) -> Option<usize> {
    let mut files = Vec::new(alloc);
    files.push(PolicyFile::Whole(policy(alloc)?)).ok()?;
    files
        .push(PolicyFile::Change(change(alloc, &[50], &[]).ok()?))
        .ok()?;
    Some(edit_count(files.get(1)?))
}

#[test]
fn holds_policies_and_changes(rt: HostRuntime) {
    assert!(rt; held(rt.alloc()) == Some(1));
}
