//! The rules of policies whose words are known, and lists of targets.
ghost use Rattle.std.specs.Prelude.{◌<◌, ◌^◌, length};

use crate::packets::web_header;
use policy_rules::{
    Action, Hit, Partition, Policy, PortRange, Prefix, Proto, Row, Rule, Rules, Targets,
    count_policy_match_words, first_hit, to_rules,
};
use std::alloc::{AllocError, Global};
use ternary::Word;

const ANY: PortRange = PortRange {
    low: 0,
    high: u16::MAX,
};

// A row on packets of TCP to these addresses, with these source and destination ports.
fn row(priority: u32, dst: Prefix, ports: (PortRange, PortRange), action: Action) -> Row {
    Row {
        priority,
        src: Prefix::new(0, 0),
        dst,
        sport: ports.0,
        dport: ports.1,
        proto: Proto::Is(6),
        action,
    }
}

fn policy_of(alloc: Global, rows: &[Row]) -> Option<Policy>
    requires { length rows.now < 2 ^ 32 }
{
    let rows = Vec::from_slice(alloc, rows).ok()?;
    Policy::new(alloc, rows).ok()
}

fn rules_of(alloc: Global, rows: &[Row]) -> Option<Vec<Rule>>
    requires { length rows.now < 2 ^ 32 }
{
    to_rules(alloc, &policy_of(alloc, rows)?).ok()
}

// TCP to 10.0.0.0/8 leaves by port 2.
fn wide_row() -> Row {
    row(100, Prefix::new(0x0a00_0000, 8), (ANY, ANY), Action::Out(2))
}

// TCP to 10.1.0.0/16, port 80, is dropped.
fn web_row() -> Row {
    let web = PortRange { low: 80, high: 80 };
    row(200, Prefix::new(0x0a01_0000, 16), (ANY, web), Action::Drop)
}

fn two_rules(alloc: Global) -> Option<Vec<Rule>> {
    rules_of(alloc, &[wide_row(), web_row()])
}

// A destination, and the rule and the action of its first match.
const SCANNED: [(u32, Hit); 3] = [
    (
        0x0a01_0203,
        Hit {
            rule: Some(200),
            action: Action::Drop,
        },
    ),
    (
        0x0a02_0001,
        Hit {
            rule: Some(100),
            action: Action::Out(2),
        },
    ),
    (
        0x0b00_0001,
        Hit {
            rule: None,
            action: Action::Drop,
        },
    ),
];

// The place of the first row of the table that a scan doesn't give, or how many rows it has.
fn scanned(alloc: Global) -> Option<usize> {
    let policy = policy_of(alloc, &[wide_row(), web_row()])?;
    for (place, (dst, hit)) in SCANNED.iter().enumerate() {
        if policy.scan(&web_header(0x0102_0304, *dst)) != *hit {
            return Some(place);
        }
    }
    Some(SCANNED.len())
}

#[test]
fn scans_for_the_first_match(rt: HostRuntime) {
    assert!(rt; scanned(rt.alloc()) == Some(3));
}

// The place, the name and the mask of each rule, and a destination that it is the first to match.
const LISTED: [(usize, Option<u32>, u128, u32); 3] = [
    (0, Some(200), 0xffff_0000_0000_ffff_ff, 0x0a01_0505),
    (1, Some(100), 0xff00_0000_0000_0000_ff, 0x0a02_0001),
    (2, None, 0, 0x0b00_0001),
];

// Whether the rule at this place has its place as its rank, this name and this mask.
fn is_listed(rules: &[Rule], place: usize, name: Option<u32>, mask: u128) -> bool {
    match rules.get(place) {
        Some(rule) => {
            rule.rank as usize == place && rule.rule == name && rule.word.mask() == mask
        }
        None => false,
    }
}

// The place of the first row of the table that isn't the rule's, or how many rules there are.
fn listed(alloc: Global) -> Option<usize> {
    let rules = two_rules(alloc)?;
    for (place, name, mask, dst) in &LISTED {
        let is_first = first_hit(&rules, &web_header(0x0102_0304, *dst)) == Some(*place);
        if !is_first || !is_listed(&rules, *place, *name, *mask) {
            return Some(*place);
        }
    }
    Some(rules.len())
}

#[test]
fn lists_rows_by_falling_priority_and_hits_the_first(rt: HostRuntime) {
    assert!(rt; listed(rt.alloc()) == Some(3));
}

// How many rules a row with two ranges of 30 blocks makes, with the default.
fn rule_count(alloc: Global) -> Option<usize> {
    let ports = PortRange {
        low: 1,
        high: 65534,
    };
    let first = row(1, Prefix::new(0, 0), (ports, ports), Action::Drop);
    Some(rules_of(alloc, &[first])?.len())
}

#[test]
fn counts_words(rt: HostRuntime) {
    assert!(rt; rule_count(rt.alloc()) == Some(901));
}

// Whether a policy of one word is cloned.
fn is_cloned(alloc: Global) -> Option<bool> {
    let policy = policy_of(alloc, &[wide_row()])?;
    let copy = policy.clone().ok()?;
    Some(copy.rows() == policy.rows() && count_policy_match_words(&policy) == 1)
}

// Whether a partition of these rules is cloned.
fn is_cloned_with(rules: Vec<Rule>) -> Result<bool, AllocError> {
    let partition = Partition {
        number: 0,
        region: Word::any(),
        rules: Rules::new(rules)?,
    };
    let copy = partition.clone()?;
    Ok(copy.rules.items() == partition.rules.items())
}

// Whether a partition of two rows' rules is cloned.
fn is_partition_cloned(alloc: Global) -> Option<bool> {
    is_cloned_with(two_rules(alloc)?).ok()
}

#[test]
fn clones_equal_what_they_copy(rt: HostRuntime) {
    assert!(rt; is_cloned(rt.alloc()) == Some(true));
    assert!(rt; is_partition_cloned(rt.alloc()) == Some(true));
}

fn hold(targets: &[u32]) -> bool {
    match Targets::new(targets) {
        Some(held) => held.items() == targets,
        None => false,
    }
}

#[test]
fn holds_targets(rt: HostRuntime) {
    assert!(rt; Targets::new(&[]).is_none() && Targets::new(&[1, 2, 3, 4, 5]).is_none());
    assert!(rt; hold(&[7]) && hold(&[4, 3, 2, 1]));
}
