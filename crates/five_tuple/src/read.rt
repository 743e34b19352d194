ghost use Rattle.std.specs.Prelude.{◌≡◌, ◌≤◌, ◌<◌, ◌^◌, ◌∷◌, [], ◌==◌, ◌&&◌, nat_lt, not, length, IfSome, MatchOption, position};
ghost use Rattle.five_tuple.specs.Exports.{IsAddressBlock, IsAddressByteBefore, IsPortRange, IsProtocol, LacksAddressByte, address_of, tuple_fields_from, tuple_text_has_leading_zero, tuple_number_up_to, tuple_fields_of, tuple_text_parts_round_byte, address_prefix_of, proto_number_of, proto_of, port_range_from, port_range_of};

use crate::header::Fields;
use crate::matching::{PortRange, Prefix, Proto};

/// The number that the text writes in decimal digits; `None` unless it is one of at most `most`.
///
/// A number has no sign, and begins with 0 only if 0 is its only digit.
pub fn read_number(text: &[u8], most: u64) -> Option<u64>
    ensures value { result ≡ tuple_number_up_to most text.now }
    ensures bound { IfSome result (λ n. n ≤ most) }
{
    if text.is_empty() {
        return None;
    }
    if has_leading_zero(text) {
        return None;
    }
    let mut number: u64 = 0;
    for byte in text {
        if !byte.is_ascii_digit() {
            return None;
        }
        let digit = u64::from(*byte - b'0');
        let longer = number.checked_mul(10)?.checked_add(digit)?;
        if longer > most {
            return None;
        }
        number = longer;
    }
    Some(number)
}

/// Whether the text begins with a zero that isn't its only digit.
fn has_leading_zero(text: &[u8]) -> bool
    ensures { result ≡ tuple_text_has_leading_zero text.now }
{
    text.len() > 1 && text[0] == b'0'
}

/// The place of the first `byte`; `None` if there is none.
fn place_in_tuple_text(text: &[u8], byte: u8) -> Option<usize>
    ensures { result ≡ position (λ b. b == byte) text.now }
{
    text.iter().position(|b| *b == byte)
}

/// The text before and after the first `byte`; `None` if there is none.
fn cut(text: &[u8], byte: u8) -> Option<(&[u8], &[u8])>
    ensures { MatchOption result
        (tuple_text_parts_round_byte byte text.now ≡ text.now ∷ [])
        (λ r. tuple_text_parts_round_byte byte text.now ≡ r.0.now ∷ tuple_text_parts_round_byte byte r.1.now) }
{
    let at = place_in_tuple_text(text, byte)?;
    Some((&text[..at], &text[at + 1..]))
}

fn read_tuple_byte(text: &[u8]) -> Option<u8>
    ensures { result ≡ tuple_number_up_to 255 text.now }
{
    let number = read_number(text, 255)?;
    Some(number as u8)
}

/// The port, from 0 to 65535, that the text writes; `None` for any other text.
pub fn read_port(text: &[u8]) -> Option<u16>
    ensures value { result ≡ tuple_number_up_to 65535 text.now }
    ensures bound { IfSome result (λ port. port < 2 ^ 16) }
{
    let number = read_number(text, 65535)?;
    Some(number as u16)
}

/// Whether there are digits, without a leading zero.
fn is_unpadded_tuple_field(digits: &[u8]) -> bool
    ensures { result ≡ (nat_lt 0 (length digits.now) && not (tuple_text_has_leading_zero digits.now)) }
{
    !digits.is_empty() && !has_leading_zero(digits)
}

/// The number from 0 to 255 before the first dot, and what follows the dot; `None` if there is no
/// dot, or no such number before it.
fn address_byte_before_dot(text: &[u8]) -> Option<(u8, &[u8])>
    ensures { MatchOption result (LacksAddressByte text.now) (λ r. IsAddressByteBefore text.now r.0 r.1.now) }
{
    let mut number: u32 = 0;
    for (place, byte) in text.iter().enumerate() {
        if !byte.is_ascii_digit() {
            if *byte != b'.' {
                return None;
            }
            if !is_unpadded_tuple_field(&text[..place]) {
                return None;
            }
            return Some((number as u8, &text[place + 1..]));
        }
        number = number * 10 + u32::from(*byte - b'0');
        if number > 255 {
            return None;
        }
    }
    None
}

/// The address of four numbers from 0 to 255 joined by dots; `None` for any other text.
pub fn read_address(text: &[u8]) -> Option<u32>
    ensures { result ≡ address_of text.now }
{
    let (first, rest) = address_byte_before_dot(text)?;
    let (second, rest) = address_byte_before_dot(rest)?;
    let (third, rest) = address_byte_before_dot(rest)?;
    let fourth = read_tuple_byte(rest)?;
    Some(u32::from_be_bytes([first, second, third, fourth]))
}

/// The block of addresses that the text names; `None` for a text that names none.
///
/// `any` is every address, an address without a length is only itself, and after a slash comes the
/// block's length, at most 32 (RFC 4632, section 3.1). Its bits beyond the length are cleared.
#[tactic(auto, using(crate::proofs::HeaderPartReadings::block_reads), unfolding(crate::specs::Texts::address_prefix_of))]
pub fn read_prefix(text: &[u8]) -> Option<Prefix>
    ensures value { result ≡ address_prefix_of text.now }
    ensures valid { IfSome result IsAddressBlock }
{
    if text == b"any".as_slice() {
        return Some(Prefix::new(0, 0));
    }
    match cut(text, b'/') {
        None => {
            let address = read_address(text)?;
            Some(Prefix::new(address, 32))
        }
        Some((block, len)) => {
            let address = read_address(block)?;
            let len = read_number(len, 32)?;
            Some(Prefix::new(address, len as u32))
        }
    }
}

fn range_from(low: Option<u16>, high: Option<u16>) -> Option<PortRange>
    ensures { result ≡ port_range_from low high }
{
    let (low, high) = (low?, high?);
    if low <= high {
        Some(PortRange { low, high })
    } else {
        None
    }
}

/// The ports that the text names; `None` for a text that names none.
///
/// `any` is every port, a number is one port, and two joined by a dash are the ends, the first at
/// most the second.
#[tactic(auto, unfolding(crate::specs::Texts::port_range_of))]
pub fn read_range(text: &[u8]) -> Option<PortRange>
    ensures value { result ≡ port_range_of text.now }
    ensures valid { IfSome result IsPortRange }
{
    if text == b"any".as_slice() {
        return Some(PortRange {
            low: 0,
            high: u16::MAX,
        });
    }
    match cut(text, b'-') {
        None => {
            let port = read_port(text);
            range_from(port, port)
        }
        Some((low, high)) => range_from(read_port(low), read_port(high)),
    }
}

/// The protocol's number: `icmp`, `tcp` and `udp` mean 1, 6 and 17, and each number from 0 to 255
/// itself; `None` for any other text.
#[tactic(auto, unfolding(crate::specs::Texts::proto_number_of))]
pub fn read_proto_number(text: &[u8]) -> Option<u8>
    ensures value { result ≡ proto_number_of text.now }
    ensures bound { IfSome result (λ n. n < 2 ^ 8) }
{
    if text == b"icmp".as_slice() {
        return Some(1);
    }
    if text == b"tcp".as_slice() {
        return Some(6);
    }
    if text == b"udp".as_slice() {
        return Some(17);
    }
    read_tuple_byte(text)
}

/// Any protocol, written `any`, or one by its name or number; `None` for any other text.
#[tactic(auto, unfolding(crate::specs::Texts::proto_of))]
pub fn read_proto(text: &[u8]) -> Option<Proto>
    ensures value { result ≡ proto_of text.now }
    ensures valid { IfSome result IsProtocol }
{
    if text == b"any".as_slice() {
        Some(Proto::Any)
    } else {
        read_proto_number(text).map(Proto::Is)
    }
}

/// The fields of a packet, each from its text; `None` if one of them can't be read.
///
/// The addresses have no length, and the protocol isn't `any`.
pub fn read_tuple_fields(
    src: &[u8],
    dst: &[u8],
    sport: &[u8],
    dport: &[u8],
    proto: &[u8],
) -> Option<Fields>
    ensures { result ≡ tuple_fields_of src.now dst.now sport.now dport.now proto.now }
{
    tuple_fields_from(
        read_address(src),
        read_address(dst),
        read_port(sport),
        read_port(dport),
        read_proto_number(proto),
    )
}

fn tuple_fields_from(
    src: Option<u32>,
    dst: Option<u32>,
    sport: Option<u16>,
    dport: Option<u16>,
    proto: Option<u8>,
) -> Option<Fields>
    ensures { result ≡ tuple_fields_from src dst sport dport proto }
{
    Some(Fields {
        src: src?,
        dst: dst?,
        sport: sport?,
        dport: dport?,
        proto: proto?,
    })
}
