//! Networks read from TOML text, and refused.
ghost use Rattle.std.specs.Prelude.{IfOk};
ghost use Rattle.net_file.specs.Net.{IsNet};

use crate::refusals::first_other;
use net_file::{Net, NetError, is_name, read_net, solo};
use std::alloc::{AllocError, Global};

// The code and the row of the refusal of this text.
fn refused(alloc: Global, text: &[u8]) -> Option<(u32, u32)> {
    match read_net(alloc, text) {
        Err(NetError::Refused(why)) => Some((why.refusal.code(), why.row)),
        _ => None,
    }
}

// Whether the network has the switches `a`, with port 1, and `b`, with ports 2 and 63 and room 100,
// and their link.
fn is_pair(net: &Net) -> bool {
    let [a, b] = net.switches.items() else {
        return false;
    };
    let [link] = net.links.items() else {
        return false;
    };
    a.name.bytes() == b"a".as_slice()
        && a.ports == 2
        && a.room == 0
        && b.name.bytes() == b"b".as_slice()
        && b.ports == 9223372036854775812
        && b.room == 100
        && link.joins(0, 1)
        && net.leaf_rules == 64
        && net.backups == 0
        && net.cache == 256
}

fn states_pair(alloc: Global, text: &str) -> bool {
    match read_net(alloc, text.as_bytes()) {
        Ok(net) => is_pair(&net),
        Err(_) => false,
    }
}

// The pair in three spellings.
const SPELLINGS: [&str; 3] = [
    "[[switch]]\nname = \"a\"\nports = [1]\n[[switch]]\nname = \"b\"\nports = [2, 63]\n\
     authority = 100\n[[link]]\nends = [\"a\", \"b\"]\n",
    "\u{feff}other = 1.5\r\n[[switch]]\r\nname = \"a\"\r\nports = [1]\r\nrack = 4\r\n\
     [[switch]]\r\nname = \"b\"\r\nports = [63, 2]\r\nauthority = 100\r\n[[link]]\r\n\
     ends = [\"b\", \"a\"]\r\ncable = true\r\n",
    "switch = [{name = \"a\", ports = [1], at.rack = 4}, \
     {name = \"b\", ports = [2, 63], authority = 100}]\nlink = [{ends = [\"a\", \"b\"]}]",
];

#[test]
fn reads_each_spelling(rt: HostRuntime) {
    for text in &SPELLINGS {
        assert!(rt; states_pair(rt.alloc(), text), "at {text}");
    }
}

// Texts by the row of their refusal, each with its code.
const REFUSED: [(u32, &[(&str, u32)]); 3] = [
    (
        0,
        &[
            ("", 2),
            ("switch", 1),
            ("cache = 9223372036854775808", 1),
            ("leaf_rules = true\nbackups = 4", 3),
            ("leaf_rules = 0\nbackups = 1.0", 4),
            ("backups = 4\ncache = \"1\"", 4),
            ("cache = 65537", 4),
            ("switch = []", 4),
            ("switch = 1979-05-27", 3),
        ],
    ),
    (
        1,
        &[
            ("switch = [1]", 3),
            ("[[switch]]\nports = 1", 2),
            ("[[switch]]\nname = 'controller'", 4),
            ("[[switch]]\nname = 'a'\nports = [64, true]", 3),
            ("[[switch]]\nname = 'a'\nports = [-1]\nauthority = true", 4),
            ("[[switch]]\nname = 'a'\nports = [1, 1]", 7),
        ],
    ),
    (
        2,
        &[
            ("switch = [{name='a',ports=[1]},{name='a',ports=[1]}]", 6),
            (
                "[[switch]]\nname = 'a'\nports = [1]\n[[switch]]\nname = 'b'\nports = [1]",
                7,
            ),
        ],
    ),
];

#[test]
fn refuses_with_code_and_row(rt: HostRuntime) {
    for (row, cases) in &REFUSED {
        let other = first_other(rt.alloc(), ("", ""), *row, cases, refused);
        assert_eq!(rt; other, Ok(None));
    }
}

// Two switches, their link, and the beginning of a second link.
const PAIR: &str = "[[switch]]\nname = \"a\"\n[[switch]]\nname = \"b\"\n[[link]]\n\
     ends = [\"a\", \"b\"]\n[[link]]\n";

// Keys of the second link, each with the code of its refusal.
const REFUSED_LINKS: [(&str, u32); 5] = [
    ("ends = [\"a\"]", 3),
    ("", 2),
    ("ends = [\"a\", \"c\"]", 5),
    ("ends = [\"b\", \"b\"]", 8),
    ("ends = [\"b\", \"a\"]", 9),
];

#[test]
fn refuses_links(rt: HostRuntime) {
    let other = first_other(rt.alloc(), (PAIR, "\n"), 102, &REFUSED_LINKS, refused);
    assert_eq!(rt; other, Ok(None));
}

#[test]
fn refuses_other_bytes(rt: HostRuntime) {
    assert!(rt; refused(rt.alloc(), &[255]) == Some((1, 0)));
}

// The head of a text, and this many values in the array that it opens.
fn with_many(alloc: Global, head: &str, count: u32) -> Result<String, AllocError> {
    let mut text = String::from_str(alloc, head)?;
    for _ in 0..count {
        text.push_str("1,")?;
    }
    text.push_str("]")?;
    Ok(text)
}

// Whether a text with this many values is refused for their count.
fn has_too_many(alloc: Global, head: &str, count: u32) -> Result<bool, AllocError> {
    let text = with_many(alloc, head, count)?;
    Ok(refused(alloc, text.as_bytes()) == Some((10, 0)))
}

#[test]
fn counts_switches_and_links(rt: HostRuntime) {
    let links = "switch = [{name = \"a\"}]\nlink = [";
    assert!(rt; has_too_many(rt.alloc(), "switch = [", 65) == Ok(true));
    assert!(rt; has_too_many(rt.alloc(), links, 257) == Ok(true));
}

// Three switches in a row, a, c and b.
fn three(alloc: Global) -> Result<Net, NetError>
    ensures { IfOk result IsNet }
{
    let text = "[[switch]]\nname = \"a\"\nports = [1]\n[[switch]]\nname = \"b\"\nports = [63]\n\
          [[switch]]\nname = \"c\"\n[[link]]\nends = [\"a\", \"c\"]\n[[link]]\n\
          ends = [\"c\", \"b\"]\n";
    read_net(alloc, text.as_bytes())
}

// Whether switch 2 is found by its name, and 2 and 0 are printed by theirs, and one that doesn't
// exist as no name.
fn have_names(alloc: Global, net: &Net) -> Result<bool, AllocError>
    requires { IsNet net.now }
{
    let mut names = String::new(alloc);
    net.push_names(&mut names, &[2, 0, 3])?;
    Ok(net.number(b"c") == Some(2) && net.number(b"d").is_none() && names.as_str() == " c a ")
}

fn have_links_and_ports(net: &Net) -> bool
    requires { IsNet net.now }
{
    let ports = net.ports();
    net.links_of(0) == 4
        && net.links_of(2) == 3
        && net.port_mask() == 9223372036854775810
        && ports.owner(63) == Some(1)
        && ports.owner(2).is_none()
}

// Whether a copy knows a name.
fn is_copied(net: &Net) -> Result<bool, AllocError>
    requires { IsNet net.now }
{
    let copy = net.clone()?;
    Ok(copy.number(b"b") == Some(1))
}

// Whether the network of three, and a copy of it, know their names, links and ports.
fn answer(alloc: Global) -> Result<bool, NetError> {
    let net = three(alloc)?;
    Ok(have_names(alloc, &net)? && have_links_and_ports(&net) && is_copied(&net)?)
}

#[test]
fn three_switches_answer(rt: HostRuntime) {
    assert!(rt; matches!(answer(rt.alloc()), Ok(true)));
}

#[test]
fn knows_names(rt: HostRuntime) {
    assert!(rt; is_name(b"edge0-1") && !is_name(b"controller") && !is_name(b"1a"));
}

// Whether the network of one switch has its name and all ports.
fn is_solo(alloc: Global) -> Result<bool, AllocError> {
    let solo = solo(alloc)?;
    Ok(solo.number(b"s0") == Some(0) && solo.port_mask() == u64::MAX)
}

#[test]
fn answers_on_one_switch(rt: HostRuntime) {
    assert!(rt; is_solo(rt.alloc()) == Ok(true));
}
