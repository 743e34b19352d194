#![tactic(auto, using(crate::proofs::HeaderTextRoundTrip::number_back, crate::proofs::HeaderTextRoundTrip::address_back, crate::proofs::HeaderTextRoundTrip::prefix_back, crate::proofs::HeaderTextRoundTrip::range_back, crate::proofs::HeaderTextRoundTrip::proto_number_back, crate::proofs::HeaderTextRoundTrip::proto_back))]

ghost use Rattle.std.specs.Prelude.{ℕ, ◌≡◌, ◌≤◌, ◌<◌, ◌^◌, Some, decimal, IfOk};
ghost use Rattle.five_tuple.specs.declared.matching.Proto.{Proto};
ghost use Rattle.five_tuple.specs.Exports.{AddressBlock, IsAddressBlock, IsPortRange, IsProtocol, PlainTupleTextLaws, PortRangeValue, address_of, address_text, header_fields_text, tuple_number_up_to, address_prefix_of, address_prefix_text, proto_number_of, proto_number_text, proto_of, proto_text, port_range_of, port_range_text};

use crate::header::Fields;
use crate::matching::{PortRange, Prefix, Proto};
use std::alloc::{AllocError, Global};
use std::fmt;

/// An IPv4 address, printed as four numbers joined by dots.
#[derive(Clone, Copy, Debug, PartialEq, Eq)]
pub struct Address(pub u32);

/// A protocol's number, printed by the name of ICMP, TCP or UDP, otherwise as the number.
#[derive(Clone, Copy, Debug, PartialEq, Eq)]
pub struct Protocol(pub u8);

#[tactic(auto, unfolding(crate::specs::Printing::address_text))]
impl fmt::Display for Address {
    ghost output = { λ a. Some (address_text a.0) };

    fn fmt<W: fmt::Write>(&self, f: &mut fmt::Formatter<W>) -> fmt::Result {
        let [a, b, c, d] = self.0.to_be_bytes();
        write!(f, "{a}.{b}.{c}.{d}")
    }
}

#[tactic(auto, unfolding(crate::specs::Printing::proto_number_text))]
impl fmt::Display for Protocol {
    ghost output = { λ p. Some (proto_number_text p.0) };

    fn fmt<W: fmt::Write>(&self, f: &mut fmt::Formatter<W>) -> fmt::Result {
        match self.0 {
            1 => write!(f, "icmp"),
            6 => write!(f, "tcp"),
            17 => write!(f, "udp"),
            number => write!(f, "{number}"),
        }
    }
}

/// Printed as `any` if it is every address, otherwise as the address, a slash and the length.
#[tactic(auto, unfolding(crate::specs::RowPrinting::address_prefix_text))]
impl fmt::Display for Prefix {
    ghost output = { λ p. Some (address_prefix_text p) };

    fn fmt<W: fmt::Write>(&self, f: &mut fmt::Formatter<W>) -> fmt::Result {
        let Prefix { address, len } = *self;
        if len == 0 {
            write!(f, "any")
        } else {
            let address = Address(address);
            write!(f, "{address}/{len}")
        }
    }
}

/// Printed as `any` if it is every port, as one number if it is one port, otherwise as both ends
/// joined by a dash.
#[tactic(auto, unfolding(crate::specs::RowPrinting::port_range_text))]
impl fmt::Display for PortRange {
    ghost output = { λ r. Some (port_range_text r) };

    fn fmt<W: fmt::Write>(&self, f: &mut fmt::Formatter<W>) -> fmt::Result {
        let PortRange { low, high } = *self;
        if low == 0 && high == u16::MAX {
            write!(f, "any")
        } else if low == high {
            write!(f, "{low}")
        } else {
            write!(f, "{low}-{high}")
        }
    }
}

/// Printed as `any`, or as the protocol's name or number.
#[tactic(auto, unfolding(crate::specs::RowPrinting::proto_text))]
impl fmt::Display for Proto {
    ghost output = { λ p. Some (proto_text p) };

    fn fmt<W: fmt::Write>(&self, f: &mut fmt::Formatter<W>) -> fmt::Result {
        match self {
            Proto::Any => write!(f, "any"),
            Proto::Is(number) => {
                let protocol = Protocol(*number);
                write!(f, "{protocol}")
            }
        }
    }
}

/// Printed as both addresses, both ports and the protocol, separated by blanks.
#[tactic(auto, unfolding(crate::specs::Printing::header_fields_text))]
impl fmt::Display for Fields {
    ghost output = { λ x. Some (header_fields_text x) };

    fn fmt<W: fmt::Write>(&self, f: &mut fmt::Formatter<W>) -> fmt::Result {
        let src = Address(self.src);
        let dst = Address(self.dst);
        let sport = self.sport;
        let dport = self.dport;
        let proto = Protocol(self.proto);
        write!(f, "{src} {dst} {sport} {dport} {proto}")
    }
}

/// The address as four numbers joined by dots.
pub fn write_address(alloc: Global, address: u32) -> Result<Vec<u8>, AllocError>
    ensures text { IfOk result (λ t. t.items ≡ address_text address) }
    ensures read_back { IfOk result (λ t. address_of t.items ≡ Some address) }
{
    Ok(Address(address).to_string(alloc)?.into_bytes())
}

/// The block: `any` if it is every address, otherwise its address, a slash and its length.
pub fn write_prefix(alloc: Global, prefix: &Prefix) -> Result<Vec<u8>, AllocError>
    ensures text { IfOk result (λ t. t.items ≡ address_prefix_text prefix.now) }
    ensures read_back { IfOk result (λ t. address_prefix_of t.items ≡ Some prefix.now) }
{
    // For the proof: reading a field yields the invariant `IsAddressBlock`.
    let _ = &prefix.len;
    Ok(prefix.to_string(alloc)?.into_bytes())
}

/// The range: `any` if it is every port, one number if it is one port, otherwise both ends joined
/// by a dash.
pub fn write_range(alloc: Global, range: &PortRange) -> Result<Vec<u8>, AllocError>
    ensures text { IfOk result (λ t. t.items ≡ port_range_text range.now) }
    ensures read_back { IfOk result (λ t. port_range_of t.items ≡ Some range.now) }
{
    // For the proof: reading a field yields the invariant `IsPortRange`.
    let _ = &range.low;
    Ok(range.to_string(alloc)?.into_bytes())
}

/// `any`, the name of ICMP, TCP or UDP, or another protocol's number.
#[tactic(auto, using(crate::proofs::HeaderTextRoundTrip::proto_back), unfolding(crate::specs::RowPrinting::proto_text))]
pub fn write_proto(alloc: Global, proto: &Proto) -> Result<Vec<u8>, AllocError>
    ensures text { IfOk result (λ t. t.items ≡ proto_text proto.now) }
    ensures read_back { IfOk result (λ t. proto_of t.items ≡ Some proto.now) }
{
    match proto {
        Proto::Any => Vec::from_slice(alloc, b"any"),
        Proto::Is(number) => Ok(Protocol(*number).to_string(alloc)?.into_bytes()),
    }
}

/// Each printed form is read back to what it prints: a law about the texts only.
pub fn tuple_fields_read_back()
    ensures number { (most n : ℕ) → n ≤ most → n < 2 ^ 64 → tuple_number_up_to most (decimal n) ≡ Some n }
    ensures address { (a : ℕ) → a < 2 ^ 32 → address_of (address_text a) ≡ Some a }
    ensures prefix { (p : AddressBlock) → IsAddressBlock p → address_prefix_of (address_prefix_text p) ≡ Some p }
    ensures range { (r : PortRangeValue) → IsPortRange r → port_range_of (port_range_text r) ≡ Some r }
    ensures proto_number { (n : ℕ) → n < 2 ^ 8 → proto_number_of (proto_number_text n) ≡ Some n }
    ensures proto { (p : Proto) → IsProtocol p → proto_of (proto_text p) ≡ Some p }
{}

/// Each printed form has only digits, lower-case letters, dots, slashes and dashes: a field of a
/// CSV file that needs no quotes.
pub fn tuple_fields_print_plain()
    ensures { PlainTupleTextLaws }
{}
