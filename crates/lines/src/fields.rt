ghost use Rattle.std.specs.Prelude.{◌≡◌, [], ◌∷◌, decimal};
ghost use Rattle.std.specs.List.{join_with_byte};
ghost use Rattle.five_tuple.specs.Printing.{address_text, header_fields_text, proto_number_text};
ghost use Rattle.lines.specs.Pushes.{line_with};

use crate::line::Line;
use five_tuple::Fields;

// Adds four numbers joined by dots.
fn push_dotted_bytes(line: &mut Line, a: u8, b: u8, c: u8, d: u8)
    ensures { line.new ≡ line_with line.old
        (join_with_byte 46 (decimal a ∷ decimal b ∷ decimal c ∷ decimal d ∷ [])) }
{
    line.push_number(u64::from(a));
    line.push(".");
    line.push_number(u64::from(b));
    line.push(".");
    line.push_number(u64::from(c));
    line.push(".");
    line.push_number(u64::from(d));
}

/// Adds an address as four numbers joined by dots.
#[tactic(auto, unfolding(five_tuple::specs::Printing::address_text))]
pub fn push_line_address(line: &mut Line, address: u32)
    ensures { line.new ≡ line_with line.old (address_text address) }
{
    let [a, b, c, d] = address.to_be_bytes();
    push_dotted_bytes(line, a, b, c, d);
}

// Adds a protocol: `icmp`, `tcp` or `udp`, any other as its number.
#[tactic(auto, unfolding(five_tuple::specs::Printing::proto_number_text))]
fn push_line_protocol(line: &mut Line, proto: u8)
    ensures { line.new ≡ line_with line.old (proto_number_text proto) }
{
    match proto {
        1 => line.push("icmp"),
        6 => line.push("tcp"),
        17 => line.push("udp"),
        number => line.push_number(u64::from(number)),
    }
}

/// Adds both addresses, both ports and the protocol, separated by blanks.
pub fn push_line_fields(line: &mut Line, fields: &Fields)
    ensures { line.new ≡ line_with line.old (header_fields_text fields.now) }
{
    push_line_address(line, fields.src);
    line.push(" ");
    push_line_address(line, fields.dst);
    line.push(" ");
    line.push_number(u64::from(fields.sport));
    line.push(" ");
    line.push_number(u64::from(fields.dport));
    line.push(" ");
    push_line_protocol(line, fields.proto);
}
