//! Texts of headers and of the fields that match them.
use five_tuple::{
    Fields, Header, PortBlock, Proto, count_tuple_port_blocks, cover, read_address, read_number,
    read_port, read_prefix, read_proto, read_proto_number, read_range, read_tuple_fields,
    write_address, write_prefix, write_proto, write_range,
};
use std::alloc::{AllocError, Global};

#[test]
fn packs_fields(rt: HostRuntime) {
    let fields = Fields {
        src: 0x0a01_0203,
        dst: 0xc0a8_0001,
        sport: 0x1234,
        dport: 80,
        proto: 6,
    };
    let header = Header::pack(&fields);
    let number = 0x0a01_0203_c0a8_0001_1234_0050_06;
    assert!(rt; header.number() == number && header.fields() == fields);
}

const NUMBERS: [(&str, u64, Option<u64>); 8] = [
    ("0", 9, Some(0)),
    ("007", 9, None),
    ("32", 32, Some(32)),
    ("33", 32, None),
    ("", 9, None),
    ("+1", 9, None),
    ("18446744073709551615", u64::MAX, Some(u64::MAX)),
    ("18446744073709551616", u64::MAX, None),
];

#[test]
fn reads_numbers(rt: HostRuntime) {
    for (text, most, want) in &NUMBERS {
        assert!(rt; read_number(text.as_bytes(), *most) == *want, "{text}");
    }
}

const ADDRESSES: [(&str, Option<u32>); 4] = [
    ("10.1.2.3", Some(0x0a01_0203)),
    ("256.1.1.1", None),
    ("1.1.1", None),
    ("1.1.1.1.1", None),
];

#[test]
fn reads_addresses(rt: HostRuntime) {
    for (text, want) in &ADDRESSES {
        assert!(rt; read_address(text.as_bytes()) == *want, "{text}");
    }
}

// Texts, each with the address and the length of the prefix that it names, and with the first and
// the last port of the range.
const PREFIXES_AND_RANGES: [(&str, Option<(u32, u32)>, Option<(u16, u16)>); 9] = [
    ("any", Some((0, 0)), Some((0, 65535))),
    ("10.1.2.3/8", Some((0x0a00_0000, 8)), None),
    ("10.1.2.3", Some((0x0a01_0203, 32)), None),
    ("10.1.2.3/33", None, None),
    ("10.1.2.3/8/8", None, None),
    ("80", None, Some((80, 80))),
    ("70-80", None, Some((70, 80))),
    ("80-70", None, None),
    ("65536", None, None),
];

// The address and the length of the prefix that the text names.
fn prefix_of(text: &str) -> Option<(u32, u32)> {
    let prefix = read_prefix(text.as_bytes())?;
    Some((prefix.address, prefix.len))
}

// The first and the last port of the range that the text names.
fn range_of(text: &str) -> Option<(u16, u16)> {
    let range = read_range(text.as_bytes())?;
    Some((range.low, range.high))
}

#[test]
fn reads_prefixes_and_ranges(rt: HostRuntime) {
    for (text, prefix, range) in &PREFIXES_AND_RANGES {
        let is_so = prefix_of(text) == *prefix && range_of(text) == *range;
        assert!(rt; is_so, "{text}");
    }
}

// The fields of a packet from 10.1.1.1 to port 80 of 9.9.9.9 by this protocol.
fn web_fields(proto: u8) -> Fields {
    Fields {
        src: 0x0a01_0101,
        dst: 0x0909_0909,
        sport: 5000,
        dport: 80,
        proto,
    }
}

// The fields of a packet from this address.
fn packet_from(src: &str) -> Option<Fields> {
    read_tuple_fields(src.as_bytes(), b"9.9.9.9", b"5000", b"80", b"tcp")
}

#[test]
fn reads_packets(rt: HostRuntime) {
    let packet = packet_from("10.1.1.1");
    assert!(rt; packet == Some(web_fields(6)) && packet_from("any").is_none());
    assert!(rt; read_port(b"65535") == Some(u16::MAX));
}

const PROTOCOLS: [(&str, Option<Proto>, Option<u8>); 6] = [
    ("any", Some(Proto::Any), None),
    ("tcp", Some(Proto::Is(6)), Some(6)),
    ("udp", Some(Proto::Is(17)), Some(17)),
    ("icmp", Some(Proto::Is(1)), Some(1)),
    ("255", Some(Proto::Is(255)), Some(255)),
    ("256", None, None),
];

#[test]
fn reads_protocols(rt: HostRuntime) {
    for (text, want, number) in &PROTOCOLS {
        let text_number = read_proto_number(text.as_bytes());
        let is_so = read_proto(text.as_bytes()) == *want && text_number == *number;
        assert!(rt; is_so, "{text}");
    }
}

// The kind of field that a text is read as.
#[derive(Clone, Copy)]
enum FieldKind {
    Prefix,
    Range,
    Protocol,
}

// What is read from the text as this kind, printed.
fn printed(alloc: Global, kind: FieldKind, text: &[u8]) -> Option<Vec<u8>> {
    match kind {
        FieldKind::Prefix => write_prefix(alloc, &read_prefix(text)?).ok(),
        FieldKind::Range => write_range(alloc, &read_range(text)?).ok(),
        FieldKind::Protocol => write_proto(alloc, &read_proto(text)?).ok(),
    }
}

fn is_printed(alloc: Global, kind: FieldKind, text: &str, want: &str) -> bool {
    match printed(alloc, kind, text.as_bytes()) {
        Some(bytes) => bytes.as_slice() == want.as_bytes(),
        None => false,
    }
}

const PRINTED: [(FieldKind, &str, &str); 9] = [
    (FieldKind::Prefix, "0.0.0.0/0", "any"),
    (FieldKind::Prefix, "10.1.2.3/8", "10.0.0.0/8"),
    (FieldKind::Range, "0-65535", "any"),
    (FieldKind::Range, "80-80", "80"),
    (FieldKind::Range, "0-65534", "0-65534"),
    (FieldKind::Protocol, "any", "any"),
    (FieldKind::Protocol, "6", "tcp"),
    (FieldKind::Protocol, "17", "udp"),
    (FieldKind::Protocol, "1", "icmp"),
];

#[test]
fn writes_fields(rt: HostRuntime) {
    for (kind, text, want) in &PRINTED {
        assert!(rt; is_printed(rt.alloc(), *kind, text, want), "{text}");
    }
}

// Whether a packet and an address are written like this.
fn are_written(alloc: Global, packet: &str, address: &[u8]) -> Result<bool, AllocError> {
    let fields = web_fields(47).to_string(alloc)?;
    let source = write_address(alloc, 0x0a01_0101)?;
    Ok(fields.as_str() == packet && source.as_slice() == address)
}

#[test]
fn writes_packets_and_addresses(rt: HostRuntime) {
    let packet = "10.1.1.1 9.9.9.9 5000 80 47";
    assert!(rt; are_written(rt.alloc(), packet, b"10.1.1.1") == Ok(true));
}

const COVERS: [(&str, u32, u16, u16); 3] = [
    ("1024-65535", 6, 1024, 64512),
    ("1-65534", 30, 1, 65535),
    ("any", 1, 0, 0),
];

// Whether the range has this many blocks, and this first one.
fn is_covered(alloc: Global, text: &str, count: u32, first: PortBlock) -> Option<bool> {
    let range = read_range(text.as_bytes())?;
    let blocks = cover(alloc, &range).ok()?;
    let is_first = blocks.first().copied() == Some(first);
    Some(is_first && blocks.len() == count as usize && count_tuple_port_blocks(&range) == count)
}

#[test]
fn covers_ranges(rt: HostRuntime) {
    for (text, count, value, mask) in &COVERS {
        let is_so = is_covered(rt.alloc(), text, *count, (*value, *mask));
        assert!(rt; is_so == Some(true), "{text}");
    }
}
